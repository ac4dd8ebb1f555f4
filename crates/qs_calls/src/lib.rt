//! The calls of an endpoint as values: its settings, what may be asked of it, and what it returns. Apart from its code, since the
//! definitions below speak of them, too.
#![tactic(auto)]

mod answer;
mod closing;
mod event;
mod filling;
mod making;
mod news;
mod reading;
mod report;
mod settings;
mod token;
mod uses;

pub use answer::Answer;
pub use closing::{CloseKind, Closed, Closer, Closing, NotedClose, Received};
pub use event::{Act, Event, MAX_BYTES, MAX_ROOM, MIN_ROOM, Side};
pub use filling::{Fill, Filled, MIN_FILL, NO_CAP};
pub use making::{LostFault, Made, MakeFault};
pub use news::News;
pub use qs_recv::Share;
pub use qs_send::MAX_VARINT;
pub use reading::Consumed;
pub use report::{LaneReport, RecvReport, SendReport};
pub use settings::{PeerLimits, RaiseFault, SetFault, Settings, SetupFault, Tuning};
pub use token::{TakeFault, Taken, Token, TokenFault};
pub use uses::{OpenFault, UseFault};
