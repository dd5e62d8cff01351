// One tree of a buffer: read in any form, judged, and its indices looked up.
#![tactic(auto)]

pub mod decode;
pub mod judge;
pub mod loose;
pub mod read;
