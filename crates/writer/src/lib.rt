#![tactic(auto)]

pub mod admit;
pub mod fields;
pub mod lawful;
pub mod open;
pub mod state;
pub mod underway;
