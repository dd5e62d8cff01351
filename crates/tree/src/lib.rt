// One tree as a value: its types, row 2 of its fields, and its list words.
#![tactic(auto)]

pub mod fields;
pub mod kinds;
pub mod limits;
pub mod listed;
pub mod loose;
pub mod own;
pub mod plain;
pub mod ranged;
pub mod raw;
pub mod refusal;
pub mod sizes;
pub mod sort;
pub mod tables;
pub mod types;
pub mod unchecked;
pub mod words;
