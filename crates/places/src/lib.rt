// The first places of a list's parts and symbols in their tables.
#![tactic(auto)]

mod closes;
mod index;
pub mod key;
mod keys;
mod portion;
pub mod resolve;
mod stream;
mod table;
mod tables;
mod whole;
