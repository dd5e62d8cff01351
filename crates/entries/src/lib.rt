// The table of one kind of keys, in its order: made of the gathered keys, or in the lent runs themselves.
#![tactic(auto)]

mod settle;
pub mod table;
