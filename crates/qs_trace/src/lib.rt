//! What an end sees of a log, as a trace that the field's viewers open.
#![tactic(auto)]

mod events;
mod frame_json;
mod item;
pub mod laws;
mod records;
mod words;

pub use events::{trace, vantage_name};
