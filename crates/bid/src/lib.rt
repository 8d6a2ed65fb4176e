#![tactic(auto)]

pub mod as_lot;
pub mod fields;
pub mod format;
pub mod group;
pub mod lawful;
pub mod size;
