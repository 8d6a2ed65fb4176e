#![tactic(auto)]

pub mod chain;
pub mod chained;
pub mod heading;
pub mod joined;
mod parts;
pub mod slice;
