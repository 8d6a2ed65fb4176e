#![tactic(auto)]

pub mod field;
pub mod limit;
pub mod named;
pub mod side;
