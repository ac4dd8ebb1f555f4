//! Scripts of events, read.
#![tactic(auto)]

pub mod laws;
mod script;
mod settings;

pub use script::{Reason, ScriptFault, parse_script};
pub use settings::standard_settings;
