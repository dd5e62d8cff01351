// What a buffer that the check has passed holds: its list in lent words, how many these must be, and the sort of one
// tree.
#![tactic(auto)]

pub mod leaf;
pub mod list;
mod words;
pub mod work;
