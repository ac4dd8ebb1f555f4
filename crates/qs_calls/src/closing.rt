//! How a connection ends, and what came of a payload.

/// Why this endpoint closed: the code, and the type and the place of the frame that offended (RFC 9000, section 10.2).
#[derive(Clone, Copy, Debug, PartialEq, Eq, Drop)]
pub struct Closing {
    pub code: u64,
    pub frame_type: u64,
    /// Where the frame's first byte stands in its payload.
    pub place: usize,
}

/// A side of the connection, seen from this endpoint.
#[derive(Clone, Copy, Debug, PartialEq, Eq, Drop)]
pub enum Closer {
    /// This endpoint.
    Us,
    /// The other one.
    Peer,
}

/// Who closed in the sense of section 20 of RFC 9000. The codes of the two kinds are numbered apart.
#[derive(Clone, Copy, Debug, PartialEq, Eq, Drop)]
pub enum CloseKind {
    /// The transport: a CONNECTION_CLOSE of type 0x1c, or an idle timeout (RFC 9000, sections 10.1 and 19.19).
    Transport,
    /// The application: a CONNECTION_CLOSE of type 0x1d (RFC 9000, section 19.19).
    Application,
}

/// A close that the endpoint didn't see, since the stack above the packets read or made it. Apart from what a frame did: such a close has
/// no frame and no place.
#[derive(Clone, Copy, Debug, PartialEq, Eq, Drop)]
pub struct NotedClose {
    pub by: Closer,
    pub kind: CloseKind,
    pub code: u64,
}

/// An endpoint that is closed stays so: the first close is the one that the peer knows.
#[derive(Clone, Copy, Debug, PartialEq, Eq, Drop)]
pub enum Closed {
    ByUs(Closing),
    ByPeer(u64),
    Noted(NotedClose),
}

/// What came of a payload that did not close the connection.
#[derive(Clone, Copy, Debug, PartialEq, Eq, Drop)]
pub enum Received {
    /// All frames took effect, and the packet number is kept.
    Done,
    /// The packet number was processed before.
    Duplicate,
    /// The packet number is below those whose history is kept.
    BelowFloor,
    /// A CONNECTION_CLOSE with this code.
    PeerClosed(u64),
    /// The first frames took effect, and then memory was refused. The same payload may come again.
    NoMemory,
}
