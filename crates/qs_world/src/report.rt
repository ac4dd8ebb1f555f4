//! What two endpoints have come to.

use qs_calls::{Answer, Event, Side};
use qs_conn::{Closing, SetupFault};
use qs_wire::StreamId;
use thiserror::Error;

/// One direction of a stream, as its sender and its receiver know it.
#[derive(Clone, Copy, Debug, PartialEq, Eq, Drop)]
pub struct LaneTotals {
    pub sender: Side,
    pub id: StreamId,
    /// How many bytes the sender accepted.
    pub written: u64,
    /// How many bytes were read at the receiver.
    pub read: u64,
    /// Whether every byte and the FIN are acknowledged.
    pub received: bool,
    /// The final size that the sender declared.
    pub declared: Option<u64>,
    /// The final size that the receiver knows.
    pub known: Option<u64>,
}

/// The credit of an endpoint.
#[derive(Clone, Copy, Debug, PartialEq, Eq, Drop)]
pub struct EndTotals {
    /// How much of the connection's credit the peer used.
    pub spent: u64,
    /// The connection limit that this endpoint granted.
    pub granted: u64,
    /// How many bytes are stored until they are read.
    pub stored: u64,
    /// Why this endpoint closed.
    pub closing: Option<Closing>,
}

/// What happened, with each answer in order, and what came of it.
#[derive(Debug, PartialEq, Eq, Drop)]
pub struct Report {
    pub log: Vec<(Event, Answer)>,
    /// By stream number, A as sender before B.
    pub lanes: Vec<LaneTotals>,
    /// A and B.
    pub ends: [EndTotals; 2],
}

/// Why events were not played to their end.
#[derive(Clone, Copy, Debug, PartialEq, Eq, Drop, Error)]
pub enum PlayFault {
    #[error("out of memory")]
    NoMemory,
    /// A packet was to be delivered that wasn't made. Events are counted from 1.
    #[error("no such packet at event {event}")]
    NoSuchPacket { event: usize },
    #[error("the ends cannot be made")]
    Setup(SetupFault),
}
