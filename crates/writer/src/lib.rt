// The writer of a list over given tables: rows 1 to 5, then the sizes, then the bytes.
#![tactic(auto)]

mod once;
mod refuse;
pub mod write;
