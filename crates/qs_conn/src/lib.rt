//! One endpoint of a connection: its streams, its flow control, and what its packets carry.
#![tactic(auto)]

mod bits;
mod blocked;
mod by_dir;
mod due;
mod endpoint;
mod filling;
mod heard;
mod held;
mod limits;
mod marks;
mod middle;
mod newly_told;
mod outbox;
mod own_told;
mod piece_room;
mod recv_lanes;
mod recv_marks;
mod recv_tables;
mod seen;
mod send_lanes;
mod send_marks;
mod setup;
mod told;
mod told_streams;

pub use endpoint::Endpoint;
pub use heard::Heard;
pub use held::Held;
pub use newly_told::Told;
pub use qs_calls::{
    Closed, Closing, LaneReport, LostFault, Made, MakeFault, News, OpenFault, PeerLimits,
    RaiseFault, Received, RecvReport, SendReport, SetFault, Settings, SetupFault, Share, Tuning,
    UseFault,
};
pub use qs_machine::laws;
