// The cursor: a walk that knows which subtrees are open. By value, and over lent arrays.
#![tactic(auto)]

pub mod cursor;
pub mod lent;
pub mod look;
mod open;
pub mod plan;
pub mod state;
