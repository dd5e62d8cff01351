// The distinct keys of a list with their counts: through a hash table, class by class, or by a plain scan.
#![tactic(auto)]

pub mod classes;
pub mod count;
pub mod gather;
pub mod scan;
mod select;
pub mod sizes;
