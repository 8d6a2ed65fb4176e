#![tactic(auto)]

pub mod fault;
pub mod lent;
pub mod lot;
pub mod quarters;
pub mod trade;
pub mod views;
