// The report of a block file: from bytes to text.
#![tactic(auto)]

mod areas;
mod errors;
mod lines;
pub mod reporting;
