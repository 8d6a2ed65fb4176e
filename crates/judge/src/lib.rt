#![tactic(auto)]

pub mod fault;
pub mod judge;
pub mod weigh;
