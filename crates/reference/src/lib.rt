// The reference for the span packer, and loops of one shape over both. No part of the product uses it.
#![tactic(auto)]

pub mod lists;
pub mod span;
