// The list of a checked buffer, written again over the same tables.
#![tactic(auto)]

pub mod tidy;
