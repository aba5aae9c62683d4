// Delay models: the interface, kinds given by points, kinds of fixed figures, derating, and a choice of two models.
#![tactic(auto)]

mod choice;
mod curve;
pub mod delay_model;
pub mod derated;
pub mod faults;
pub mod fixed;
mod interpolation;
mod kinds;
pub mod point;
mod point_tests;
pub mod points;

// `Either` of two models is a model too.
pub use either;
