// The units of a timing: steps of slope, the two senses, and what a refusal names.
#![tactic(auto)]

pub mod refusals;
pub mod senses;
pub mod steps;
