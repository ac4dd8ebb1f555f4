//! Two ends come to rest. There is no code here but laws, each the contract of a function.
#![tactic(auto)]

pub mod laws;
