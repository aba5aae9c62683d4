// A block as a draft that is being built, and the settled network that timing runs on.
#![tactic(auto)]

mod counts;
pub mod draft;
pub mod fan_out;
pub mod faults;
pub mod netlist;
pub mod order;
mod ordering;
pub mod settled;
