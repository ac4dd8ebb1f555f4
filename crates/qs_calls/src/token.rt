//! Frames without their packet, and tokens of packets, for a stack with packet numbers and ACKs of its own.

ghost use Rattle.std.specs.Prelude.{◌≡◌};
ghost use Rattle.qs_calls.specs.Tokens.{joined};

use crate::Closing;
use thiserror::Error;

/// The token of a packet that was filled: by it the packet is told to be acknowledged or lost. It is the number under which the end keeps
/// what it put in (RFC 9000, section 13.3), and no packet number of the stack's own. A packet that was filled in parts has several, which
/// follow one another. Beside them stands the epoch of the end, so that an end which takes another one's place doesn't take its tokens for
/// its own.
#[derive(Clone, Copy, Debug, PartialEq, Eq, Drop)]
pub struct Token {
    pub epoch: u64,
    /// The lowest of the numbers.
    pub first: u64,
    /// The highest of them.
    pub number: u64,
}

impl Token {
    /// One token for what this one names and what was filled in next. `None` if its numbers don't follow this one's, or their epochs
    /// differ.
    pub fn and(self, next: Token) -> Option<Token>
        ensures { result ≡ joined self next }
    {
        if next.epoch == self.epoch && self.number.checked_add(1) == Some(next.first) {
            return Some(Token {
                epoch: self.epoch,
                first: self.first,
                number: next.number,
            });
        }
        None
    }
}

/// What came of one frame, or of several.
#[derive(Clone, Copy, Debug, PartialEq, Eq, Drop)]
pub enum Taken {
    /// It took effect, and changed something.
    Took,
    /// It took effect before, or carries or raises nothing: nothing changed. A stack counts many of these against a peer that only makes
    /// work.
    Unchanged,
    /// It is for the stack, and changed nothing.
    NotOurs,
}

/// Why a frame took no effect.
#[derive(Clone, Copy, Debug, PartialEq, Eq, Drop, Error)]
pub enum TakeFault {
    /// This endpoint closed, for this frame or before (RFC 9000, section 10.2).
    #[error("this end closed the connection")]
    Closing(Closing),
    /// The peer closed before, with this code.
    #[error("the peer closed the connection with code {0}")]
    PeerClosed(u64),
    /// The frame changed nothing, and may come again.
    #[error("out of memory")]
    NoMemory,
}

/// Why a token wasn't acknowledged or lost, or not wholly.
#[derive(Clone, Copy, Debug, PartialEq, Eq, Drop, Error)]
pub enum TokenFault {
    /// Not all of its packets were made yet, or it is of another epoch.
    #[error("no packet has this token")]
    NotGiven,
    /// Some of what the packet carried may be done already. The call may be made again.
    #[error("out of memory")]
    NoMemory,
    #[error("the connection is closed")]
    Closed,
}
