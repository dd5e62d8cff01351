// Functions on slices of numbers, for tests and benchmarks from Rust or C.
#![tactic(auto)]

pub mod buffers;
pub mod builders;
pub mod by_value;
pub mod cursors;
pub mod lists;
pub mod packing;
pub mod replies;
pub mod roots;
pub mod trees;
mod unchecked;
pub mod walks;
