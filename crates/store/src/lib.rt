// What is done with stored buffers, for hosts: functions in numbers, on lent runs.
#![tactic(auto)]

pub mod preview_token;
pub mod set_token;
mod tell;
pub mod tidy_buffer;
