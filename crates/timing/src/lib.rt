// One timing over lent nets, arcs, order and areas: signals forward, required times backward, slacks, the worst path.
#![tactic(auto)]

pub mod answers;
pub mod circuit;
pub mod entries;
pub mod faults;
mod forward;
mod required;
mod signals;
mod slacks;
pub mod timer;
mod worst_path;
