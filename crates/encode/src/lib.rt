// One tree of a list: its size, and its bytes in the form that is tried first and holds it.
#![tactic(auto)]

pub mod encode;
pub mod listed;
pub mod size;
