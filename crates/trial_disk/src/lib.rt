//! A disk of which some calls fail, for tests.
#![tactic(auto)]

mod failing;

pub use failing::{Failing, Failure};
