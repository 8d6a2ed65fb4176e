#![tactic(auto)]

pub mod as_lot;
pub mod elasticity;
pub mod fields;
pub mod format;
pub mod lawful;
