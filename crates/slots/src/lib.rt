// A hash index of keys: the hash of three words, and the search from slot to slot.
#![tactic(auto)]

pub mod hash;
pub mod probe;
