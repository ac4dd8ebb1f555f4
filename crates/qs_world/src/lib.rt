//! Two endpoints of a connection, and what happens between them.
#![tactic(auto)]

mod copies;
mod drained;
mod draws;
pub mod laws;
mod playing;
mod random;
mod report;
mod reporting;
mod world;

pub use copies::copy_event;
pub use drained::play_drained;
pub use playing::{play, play_all};
pub use qs_calls::{Act, Answer, Event, Side};
pub use qs_conn::{
    Closing, LostFault, Made, MakeFault, OpenFault, Received, Settings, SetupFault, UseFault,
};
pub use qs_recv::Read;
pub use qs_script::{Reason, ScriptFault, parse_script, standard_settings};
pub use qs_wire::{Dir, StreamId};
pub use random::random_script;
pub use report::{EndTotals, LaneTotals, PlayFault, Report};
pub use world::{Drained, World};
