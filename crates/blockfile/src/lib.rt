// The block file: its records, and loading them into a draft and a model of points.
#![tactic(auto)]

pub mod faults;
mod fields;
pub mod loading;
pub mod reader;
pub mod records;
