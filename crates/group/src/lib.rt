#![tactic(auto)]

pub mod as_lot;
pub mod group;
pub mod made;
