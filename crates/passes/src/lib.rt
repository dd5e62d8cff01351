// What the writer does with the trees of a list, run by run: row 5, the work words, the bytes.
#![tactic(auto)]

pub mod bytes;
pub mod five;
pub mod runs;
pub mod sizes;
