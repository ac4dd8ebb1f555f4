//! The command line of the program.
#![tactic(auto)]

mod command_line;
pub mod laws;
mod usage;

pub use command_line::{Refusal, Request};
