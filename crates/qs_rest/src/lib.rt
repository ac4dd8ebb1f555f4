//! Two ends at rest: nothing is stuck, and no credit is lost. There is no code here but laws, each the contract of a function.
#![tactic(auto)]

pub mod laws;
