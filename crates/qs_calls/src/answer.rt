//! What the endpoints of a run returned.

use crate::closing::{Closing, Received};
use crate::making::{LostFault, Made, MakeFault};
use crate::uses::{OpenFault, UseFault};
use qs_recv::Read;
use qs_wire::StreamId;

/// One for each act.
#[derive(Debug, PartialEq, Eq, Drop)]
pub enum Answer {
    OpenStream(Result<StreamId, OpenFault>),
    Accept(Option<StreamId>),
    Write(Result<usize, UseFault>),
    Finish(Result<(), UseFault>),
    Reset(Result<(), UseFault>),
    Stop(Result<(), UseFault>),
    /// With the bytes that were read.
    ReadUpTo(Result<Read, UseFault>, Vec<u8>),
    /// With the payload.
    Make(Result<Option<Made>, MakeFault>, Vec<u8>),
    Lose(Result<(), LostFault>),
    /// With the packet number.
    Claim(Result<u64, MakeFault>),
    /// Of the end that the payload came to.
    Deliver(Result<Received, Closing>),
}
