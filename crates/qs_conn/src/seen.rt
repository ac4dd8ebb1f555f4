//! What an endpoint reads of a frame.
ghost use Rattle.std.specs.Prelude.{◌≡◌, ◌<◌, true, false};
ghost use Rattle.qs_wire.specs.Layout.{view, number_of_type};
ghost use Rattle.qs_wire.specs.Grammar.{Fits, spelled};
ghost use Rattle.qs_machine.specs.Seen.{seen, asks_ack};
ghost use Rattle.qs_machine.specs.Alone.{is_ours};
ghost use Rattle.qs_conn.specs.Seen.{view_seen, SeenFits};

use SeenFrame::{Ack, Close, Control, Plain, Stream};
use qs_calls::MAX_VARINT;
use qs_send::Item;
use qs_streams::Place;
use qs_wire::{Dir, Frame};

const MAX_STREAMS: u64 = 1 << 60;

/// A frame by what an endpoint does with it. Each frame is told apart here, and nowhere else, so that what a new frame means is said once.
#[derive(Clone, Copy)]
pub(crate) enum SeenFrame<'a> {
    Ack {
        largest: u64,
        ranges: &'a [u8],
    },
    Stream {
        stream: Place,
        offset: u64,
        bytes: &'a [u8],
        fin: bool,
    },
    Control(Item),
    Close(u64),
    // It means nothing here, and may ask for an ACK.
    Plain {
        asks: bool,
    },
}

#[inline(always)]
pub(crate) fn seen<'a>(frame: &Frame<'a>) -> SeenFrame<'a>
    requires { Fits (view frame.now) }
    ensures value { view_seen result ≡ seen (view frame.now) }
    ensures fits { SeenFits result }
{
    match *frame {
        Frame::Padding => Plain { asks: false },
        Frame::Ping
        | Frame::Crypto { .. }
        | Frame::NewToken { .. }
        | Frame::NewConnectionId { .. }
        | Frame::RetireConnectionId { .. }
        | Frame::PathChallenge { .. }
        | Frame::PathResponse { .. }
        | Frame::HandshakeDone => Plain { asks: true },
        Frame::Ack {
            largest,
            ranges,
            ..
        } => Ack { largest, ranges },
        Frame::ResetStream {
            stream,
            code,
            final_size,
        } => Control(Item::ResetStream {
            stream,
            code,
            final_size,
        }),
        Frame::StopSending { stream, code } => Control(Item::StopSending { stream, code }),
        Frame::Stream {
            stream,
            offset,
            fin,
            bytes,
        } => Stream {
            stream: Place::of(stream),
            offset,
            bytes,
            fin,
        },
        Frame::MaxData { maximum } => Control(Item::MaxData { maximum }),
        Frame::MaxStreamData { stream, maximum } => Control(Item::MaxStreamData {
            stream,
            maximum,
        }),
        Frame::MaxStreams { dir, count } => Control(Item::MaxStreams { dir, count }),
        Frame::DataBlocked { limit } => Control(Item::DataBlocked { limit }),
        Frame::StreamDataBlocked { stream, limit } => Control(Item::StreamDataBlocked {
            stream,
            limit,
        }),
        Frame::StreamsBlocked { dir, count } => Control(Item::StreamsBlocked { dir, count }),
        Frame::ConnectionClose { code, .. } => Close(code),
        Frame::ApplicationClose { code, .. } => Close(code),
    }
}

pub(crate) fn asks_ack(seen: &SeenFrame<'_>) -> bool
    ensures { result ≡ asks_ack (view_seen seen.now) }
{
    match *seen {
        Ack { .. } | Close(_) => false,
        Stream { .. } | Control(_) => true,
        Plain { asks } => asks,
    }
}

/// Those an endpoint takes alone.
pub(crate) fn is_ours(frame: &Frame<'_>) -> bool
    ensures { result ≡ is_ours (seen (view frame.now)) }
{
    matches!(
        *frame,
        Frame::ResetStream { .. }
            | Frame::StopSending { .. }
            | Frame::Stream { .. }
            | Frame::MaxData { .. }
            | Frame::MaxStreamData { .. }
            | Frame::MaxStreams { .. }
            | Frame::DataBlocked { .. }
            | Frame::StreamDataBlocked { .. }
            | Frame::StreamsBlocked { .. }
    )
}

/// A payload can't hold others, but a caller that builds a frame can (RFC 9000, sections 16, 19.8, 19.11 and 19.14).
pub(crate) fn has_text(frame: &Frame<'_>) -> bool
    requires { is_ours (seen (view frame.now)) ≡ true }
    ensures yes { result ≡ true → Fits (view frame.now) }
    ensures no { result ≡ false → Fits (view frame.now) → ⊥ }
{
    match *frame {
        Frame::ResetStream {
            stream,
            code,
            final_size,
        } => { stream.value() <= MAX_VARINT && code <= MAX_VARINT && final_size <= MAX_VARINT }
        Frame::StopSending { stream, code } => stream.value() <= MAX_VARINT && code <= MAX_VARINT,
        Frame::Stream {
            stream,
            offset,
            bytes,
            ..
        } => {
            stream.value() <= MAX_VARINT
                && offset <= MAX_VARINT
                && bytes.len() as u64 <= MAX_VARINT - offset
        }
        Frame::MaxData { maximum } => maximum <= MAX_VARINT,
        Frame::MaxStreamData { stream, maximum } => {
            stream.value() <= MAX_VARINT && maximum <= MAX_VARINT
        }
        Frame::MaxStreams { count, .. } => count <= MAX_STREAMS,
        Frame::DataBlocked { limit } => limit <= MAX_VARINT,
        Frame::StreamDataBlocked { stream, limit } => {
            stream.value() <= MAX_VARINT && limit <= MAX_VARINT
        }
        Frame::StreamsBlocked { count, .. } => count <= MAX_STREAMS,
        _ => false,
    }
}

/// A frame that comes alone has no type of its own, and a close needs one: that of the canonical text, a STREAM with its length, and with
/// an offset above 0 (RFC 9000, section 12.4).
pub(crate) fn type_number(frame: &Frame<'_>) -> u64
    requires { is_ours (seen (view frame.now)) ≡ true }
    ensures value { result ≡ number_of_type (spelled (view frame.now)).type }
    ensures small { result < 64 }
{
    match *frame {
        Frame::ResetStream { .. } => 0x04,
        Frame::StopSending { .. } => 0x05,
        Frame::Stream { offset, fin, .. } => 0x0a + u64::from(offset > 0) * 4 + u64::from(fin),
        Frame::MaxData { .. } => 0x10,
        Frame::MaxStreamData { .. } => 0x11,
        Frame::MaxStreams { dir: Dir::Bidi, .. } => 0x12,
        Frame::MaxStreams { dir: Dir::Uni, .. } => 0x13,
        Frame::DataBlocked { .. } => 0x14,
        Frame::StreamDataBlocked { .. } => 0x15,
        Frame::StreamsBlocked { dir: Dir::Bidi, .. } => 0x16,
        Frame::StreamsBlocked { dir: Dir::Uni, .. } => 0x17,
        _ => 0,
    }
}
