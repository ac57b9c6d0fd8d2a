//! The machine: what the warehouse does, as definitions over lists of acts, and its laws.
#![tactic(auto)]

pub mod laws;
