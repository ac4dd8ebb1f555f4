//! What a stack with packets of its own asks to be filled in, and what went in.

ghost use Rattle.std.specs.Prelude.{◌≡◌, ◌-◌, ◌^◌, true, false};

use crate::Token;
use qs_wire::StreamId;

/// With so many bytes of room a fill puts something in whenever anything that it was asked for may go. No control frame is longer than a
/// RESET_STREAM, with a byte for its type and eight for each of its three numbers (RFC 9000, section 19.4); and a STREAM frame with one
/// byte has 19 at most (section 19.8).
pub const MIN_FILL: usize = 25;

/// What is to be filled in. Control frames come first, in the order of a packet, since the peer may wait for credit; then data and FINs of
/// streams, lower streams first.
#[derive(Clone, Copy, Debug, PartialEq, Eq, Drop)]
pub struct Fill {
    pub items: bool,
    pub streams: bool,
    pub first: StreamId,
    pub alone: bool,
    /// So many bytes of streams at most; `NO_CAP` stands for as many as fit. A chunk is cut if it would pass that, and then no stream has
    /// another turn. With 0 no byte goes in, and a FIN only if all bytes of its stream went and no stream before it has any.
    pub most_bytes: usize,
}

/// As many bytes of streams as fit: a slice has fewer than that, so no flag is needed.
pub const NO_CAP: usize = usize::MAX;

impl Fill {
    /// All that is due, from stream 0 on.
    pub fn all() -> Fill
        ensures { result ≡ record { items = true; streams = true; first = 0; alone = false; most_bytes = 2 ^ 64 - 1 } }
    {
        Fill {
            items: true,
            streams: true,
            first: first_stream(),
            alone: false,
            most_bytes: NO_CAP,
        }
    }

    pub fn control() -> Fill
        ensures { result ≡ record { items = true; streams = false; first = 0; alone = false; most_bytes = 2 ^ 64 - 1 } }
    {
        Fill {
            items: true,
            streams: false,
            first: first_stream(),
            alone: false,
            most_bytes: NO_CAP,
        }
    }

    pub fn data() -> Fill
        ensures { result ≡ record { items = false; streams = true; first = 0; alone = false; most_bytes = 2 ^ 64 - 1 } }
    {
        Fill {
            items: false,
            streams: true,
            first: first_stream(),
            alone: false,
            most_bytes: NO_CAP,
        }
    }

    pub fn from(self, stream: StreamId) -> Fill
        ensures { result ≡ record self { first = stream; alone = false } }
    {
        Fill {
            items: self.items,
            streams: self.streams,
            first: stream,
            alone: false,
            most_bytes: self.most_bytes,
        }
    }

    pub fn only(self, stream: StreamId) -> Fill
        ensures { result ≡ record self { first = stream; alone = true } }
    {
        Fill {
            items: self.items,
            streams: self.streams,
            first: stream,
            alone: true,
            most_bytes: self.most_bytes,
        }
    }

    pub fn at_most(self, bytes: usize) -> Fill
        ensures { result ≡ record self { most_bytes = bytes } }
    {
        Fill {
            items: self.items,
            streams: self.streams,
            first: self.first,
            alone: self.alone,
            most_bytes: bytes,
        }
    }
}

/// What went into a slice: the token that names it, and how many bytes it has.
#[derive(Clone, Copy, Debug, PartialEq, Eq, Drop)]
pub struct Filled {
    pub token: Token,
    pub len: usize,
    /// The stream of the last STREAM frame, if there is one. For round-robin, go on behind it.
    pub last_stream: Option<StreamId>,
    /// Whether more of what was asked for is due and may go. What the cap holds back isn't counted: once that is used up, another call
    /// would put in control frames alone.
    pub more: bool,
}

fn first_stream() -> StreamId
    ensures { result ≡ 0 }
{
    match StreamId::new(0) {
        Some(stream) => stream,
        None => unreachable!(),
    }
}
