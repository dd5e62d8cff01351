// One leaf of a stored list exchanged: new bytes over new tables; and their sizes before.
#![tactic(auto)]

mod change;
mod fresh;
mod judge;
mod own;
mod prepare;
pub mod preview;
pub mod report;
pub mod set_token;
