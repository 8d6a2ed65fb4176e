#![tactic(auto)]

pub mod fault;
pub mod proposal;
pub mod shape;
