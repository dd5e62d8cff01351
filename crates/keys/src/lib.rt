// The keys of a list by their numbers, and runs of words.
#![tactic(auto)]

pub mod key;
pub mod run;
