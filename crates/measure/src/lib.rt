// Whole walks in one call, for benchmarks: the loop is compiled together with the steps, as a caller's would be.
#![tactic(auto)]

pub mod added;
pub mod cursors;
pub mod walks;
