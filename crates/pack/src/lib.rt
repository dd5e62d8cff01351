// Packing and reading of one span and of one symbol. The crates above know of either what these functions promise.
#![tactic(auto)]

mod rests;
pub mod row;
pub mod span;
pub mod symbol;
pub mod unchecked;
