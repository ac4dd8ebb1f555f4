//! The last stream of which a payload carries something.

ghost use Rattle.std.specs.Prelude.{◌≡◌, None};
ghost use Rattle.qs_wire.specs.Grammar.{frames_of};
ghost use Rattle.qs_wire.specs.Reading.{reading_of};
ghost use Rattle.qs_wire.specs.LastStream.{last_stream_of, stream_or};
ghost use Rattle.qs_wire.specs.Layout.{view};

use crate::frame::Frame;
use crate::frames::Frames;
use crate::stream_id::StreamId;

/// The stream of the last STREAM frame in a payload, up to its end or its first fault; `None` if there is none. For round-robin, the next
/// packet goes on behind it.
pub fn last_stream(payload: &[u8]) -> Option<StreamId>
    ensures { result ≡ last_stream_of None (frames_of (reading_of payload.now).left) }
{
    let mut frames = Frames::new(payload);
    let mut last = None;
    loop {
        match frames.next() {
            Ok(Some(placed)) => last = stream_or(last, &placed.frame),
            _ => return last,
        }
    }
}

fn stream_or(last: Option<StreamId>, frame: &Frame<'_>) -> Option<StreamId>
    ensures { result ≡ stream_or last (view frame.now) }
{
    match frame {
        Frame::Stream { stream, .. } => Some(*stream),
        _ => last,
    }
}
