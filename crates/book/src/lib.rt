#![tactic(auto)]

pub mod check;
pub mod command;
pub mod fault;
pub mod row;
pub mod stand;
pub mod step;
