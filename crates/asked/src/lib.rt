#![tactic(auto)]

pub mod ask;
pub mod may;
pub mod unasked;
