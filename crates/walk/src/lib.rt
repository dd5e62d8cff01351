// Walks over a buffer, tree by tree or past whole subtrees, and the last span of what a walk has left.
#![tactic(auto)]

pub mod buffer;
pub mod last_span;
pub mod read;
pub mod sizes;
pub mod walk;
