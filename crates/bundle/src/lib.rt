// A bundle, which is a stored buffer with its tables and tree count, and its check.
#![tactic(auto)]

pub mod check;
pub mod read;
