//! A law on assemblies, the contract of a function: two kinds show the same.
pub use crate::replay::{Shown, Step, replay};
