#![tactic(auto)]

pub mod as_lot;
pub mod fields;
pub mod flow;
pub mod format;
pub mod lawful;
pub mod step;
pub mod stretch;
