#![tactic(auto)]

pub mod payment;
pub mod statement;
