// The tables of a list: its distinct span parts and symbols with their counts.
#![tactic(auto)]

pub mod make;
