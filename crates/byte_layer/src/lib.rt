#![tactic(auto)]

pub mod fault;
pub mod number;
pub mod part;
