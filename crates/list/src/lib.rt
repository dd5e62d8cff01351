// The rows that a list is held to before any table is looked at.
#![tactic(auto)]

pub mod rows;
pub mod sized;
