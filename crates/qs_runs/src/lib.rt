//! Runs of two ends: every run keeps an invariant, and agrees. There is no code here but laws, each the contract of a function.
#![tactic(auto)]

pub mod laws;
