#![tactic(auto)]

pub mod as_lot;
pub mod order;
