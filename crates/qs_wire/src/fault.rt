//! What can be wrong with a payload.

ghost use Rattle.std.specs.Prelude.{◌≡◌, ◌<◌, ◌^◌};
ghost use Rattle.qs_wire.specs.Faults.{code_of, kind_number};

use thiserror::Error;

/// What is wrong with a payload, or with the frame at a place in it.
#[derive(Clone, Copy, Debug, PartialEq, Eq)]
pub enum FaultKind {
    /// The payload has no frame (RFC 9000, section 12.4).
    Empty,
    /// A frame type has a shorter spelling (RFC 9000, section 12.4).
    LongType,
    /// No frame has this type (RFC 9000, section 12.4).
    UnknownType,
    /// A field, or the bytes that it counts, end past the payload.
    Truncated,
    /// An offset plus a length is above 2^62-1 (RFC 9000, sections 19.6 and 19.8).
    OffsetTooLarge,
    /// A count of streams is above 2^60 (RFC 9000, sections 19.11 and 19.14).
    CountTooLarge,
    /// An ACK names a number below zero (RFC 9000, section 19.3.1).
    BelowZero,
    /// A connection ID has no byte or more than 20 (RFC 9000, section 19.15).
    IdentifierLength,
}

impl FaultKind {
    /// The code to close a connection with (RFC 9000, section 20.1).
    pub fn code(self) -> u64
        ensures exact { result ≡ code_of self }
        ensures small { result < 2 ^ 62 }
    {
        match self {
            FaultKind::Empty | FaultKind::LongType => PROTOCOL_VIOLATION,
            _ => FRAME_ENCODING_ERROR,
        }
    }

    /// The kinds counted from 1, as messages name them.
    pub fn number(self) -> u64
        ensures { result ≡ kind_number self }
    {
        match self {
            FaultKind::Empty => 1,
            FaultKind::LongType => 2,
            FaultKind::UnknownType => 3,
            FaultKind::Truncated => 4,
            FaultKind::OffsetTooLarge => 5,
            FaultKind::CountTooLarge => 6,
            FaultKind::BelowZero => 7,
            FaultKind::IdentifierLength => 8,
        }
    }
}

const FRAME_ENCODING_ERROR: u64 = 0x07;

const PROTOCOL_VIOLATION: u64 = 0x0a;

/// The first fault of a payload.
#[derive(Clone, Copy, Debug, PartialEq, Eq, Drop, Error)]
#[error("a frame of type {frame_type:#x} at {place} breaks code {code:#x}")]
pub struct WireFault {
    pub kind: FaultKind,
    /// Where the frame's first byte stands.
    pub place: usize,
    /// The code to close a connection with.
    pub code: u64,
    /// The frame's type, 0 if none was read.
    pub frame_type: u64,
}

/// A spelling does not fit the slice.
#[derive(Clone, Copy, Debug, PartialEq, Eq, Drop, Error)]
#[error("the frame does not fit")]
pub struct Full;
