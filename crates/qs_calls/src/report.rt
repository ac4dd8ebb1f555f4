//! The states of a stream.

use qs_recv::RecvState;
use qs_send::SendState;

#[derive(Clone, Copy, Debug, PartialEq, Eq, Drop)]
pub struct LaneReport {
    pub send: Option<SendReport>,
    pub recv: Option<RecvReport>,
}

/// A sending half (RFC 9000, section 3.1).
#[derive(Clone, Copy, Debug, PartialEq, Eq, Drop)]
pub struct SendReport {
    pub state: SendState,
    pub written: u64,
    pub final_size: Option<u64>,
    /// The code of its reset, if there was one: the application's, or that of the peer's STOP_SENDING (section 3.5).
    pub reset_code: Option<u64>,
    pub limit: u64,
}

/// A receiving half (RFC 9000, section 3.2).
#[derive(Clone, Copy, Debug, PartialEq, Eq, Drop)]
pub struct RecvReport {
    pub state: RecvState,
    pub read_count: u64,
    /// The final size if known, else one more than the largest received offset, or 0: what flow control counts.
    pub highest: u64,
    pub limit: u64,
    pub final_size: Option<u64>,
    pub reset_code: Option<u64>,
    /// The code with which the application stopped it first (section 3.5).
    pub stop_code: Option<u64>,
}
