// The builder: a list of trees made step by step in a lent run of words.
#![tactic(auto)]

pub mod build;
pub mod range;
pub mod restore;
mod sort;
pub mod state;
pub mod steps;
mod store;
