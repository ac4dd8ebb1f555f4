//! What the program prints of frames, events and answers.
#![tactic(auto)]

mod events;
mod fields;
mod frame_text;
mod largest;
pub mod laws;
mod payload;
mod words;

pub use events::{push_log, script_text};
pub use payload::payload_text;
pub use words::{push_closing, side_name, yes_no};
