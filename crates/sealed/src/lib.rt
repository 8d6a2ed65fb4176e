#![tactic(auto)]

pub mod as_lot;
pub mod forward;
pub mod orders;
pub mod reading;
pub mod rows;
pub mod sealed_book;
pub mod split;
pub mod taken;
