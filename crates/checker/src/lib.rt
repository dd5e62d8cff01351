// The check of a stored buffer, new in this product: the source reads a buffer unchecked.
#![tactic(auto)]

pub mod check;
pub mod glance;
