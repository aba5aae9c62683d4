// The settled block: what a draft becomes, and the calls on it.
#![tactic(auto)]

pub mod faults;
pub mod settled_block;
