//! What comes of making a packet, and of losing one.

use thiserror::Error;

/// A packet that was made: its number, the length of its payload in bytes, and whether it asks for an ACK: whether it holds a frame other
/// than an ACK (RFC 9000, section 13.2.1). All are known as it is made, and a caller would have to read the payload for them.
#[derive(Clone, Copy, Debug, PartialEq, Eq, Drop)]
pub struct Made {
    pub number: u64,
    pub len: usize,
    pub is_ack_eliciting: bool,
}

/// Why no packet was made.
#[derive(Clone, Copy, Debug, PartialEq, Eq, Drop, Error)]
pub enum MakeFault {
    #[error("the connection is closed")]
    Closed,
    #[error("out of memory")]
    NoMemory,
    /// The last packet number was used (RFC 9000, section 12.3).
    #[error("there is no packet number left")]
    Exhausted,
}

/// Why a packet was not declared lost, or not wholly.
#[derive(Clone, Copy, Debug, PartialEq, Eq, Drop, Error)]
pub enum LostFault {
    /// It wasn't made, it is acknowledged or lost, or nobody acknowledges it.
    #[error("no such packet is outstanding")]
    NotOutstanding,
    /// Some of what it carried is due again. The call may be made again.
    #[error("out of memory")]
    NoMemory,
    #[error("the connection is closed")]
    Closed,
}
