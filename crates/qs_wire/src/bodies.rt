//! Reading the fields of each frame, and judging their values once the whole frame is there: a frame that is cut short is cut short,
//! whatever its numbers.

ghost use Rattle.std.specs.Prelude.{◌≡◌, ◌+◌, ◌^◌, length, nat_lt};
ghost use Rattle.qs_wire.specs.Layout.{view};
ghost use Rattle.qs_wire.specs.Reading.{Gives};
ghost use Rattle.qs_wire.specs.Bodies.{judged_body_at};

use crate::fault::FaultKind;
use crate::fields::{
    counted_at, counted_if, ecn_if, identifier_at, number_if, plain_at, ranges_at,
};
use crate::frame::Frame;
use crate::frame_type::FrameType;
use crate::stream_id::{Dir, StreamId};
use crate::varint::number_at;

#[tactic(auto, unfolding(crate::specs::Reading::body_at, crate::specs::Bodies::judged_body_at))]
fn ack_at(ecn: bool, bytes: &[u8]) -> Result<(Frame<'_>, &[u8]), FaultKind>
    ensures { Gives (λ x. (view x.0, x.1.now)) result (judged_body_at (FrameType.Ack ecn) bytes.now) }
{
    let (largest, rest) = number_at(bytes)?;
    let (delay, rest) = number_at(rest)?;
    let (ranges, falls_below_zero, rest) = ranges_at(largest, rest)?;
    let (ecn, rest) = ecn_if(ecn, rest)?;
    if falls_below_zero {
        return Err(FaultKind::BelowZero);
    }
    Ok((
        Frame::Ack {
            largest,
            delay,
            ranges,
            ecn,
        },
        rest,
    ))
}

#[tactic(auto, unfolding(crate::specs::Reading::body_at, crate::specs::Bodies::judged_body_at))]
fn reset_stream_at(bytes: &[u8]) -> Result<(Frame<'_>, &[u8]), FaultKind>
    ensures { Gives (λ x. (view x.0, x.1.now)) result (judged_body_at FrameType.ResetStream bytes.now) }
{
    let (stream, rest) = number_at(bytes)?;
    let (code, rest) = number_at(rest)?;
    let (final_size, rest) = number_at(rest)?;
    let stream = StreamId::of_varint(stream);
    Ok((
        Frame::ResetStream {
            stream,
            code,
            final_size,
        },
        rest,
    ))
}

#[tactic(auto, unfolding(crate::specs::Reading::body_at, crate::specs::Bodies::judged_body_at))]
fn stop_sending_at(bytes: &[u8]) -> Result<(Frame<'_>, &[u8]), FaultKind>
    ensures { Gives (λ x. (view x.0, x.1.now)) result (judged_body_at FrameType.StopSending bytes.now) }
{
    let (stream, rest) = number_at(bytes)?;
    let (code, rest) = number_at(rest)?;
    let stream = StreamId::of_varint(stream);
    Ok((Frame::StopSending { stream, code }, rest))
}

fn ends_in_range(offset: u64, bytes: &[u8]) -> bool
    ensures { result ≡ nat_lt (offset + length bytes.now) (2 ^ 62) }
{
    match offset.checked_add(bytes.len() as u64) {
        Some(end) => end < 1 << 62,
        None => false,
    }
}

#[tactic(auto, unfolding(crate::specs::Reading::body_at, crate::specs::Bodies::judged_body_at))]
fn crypto_at(bytes: &[u8]) -> Result<(Frame<'_>, &[u8]), FaultKind>
    ensures { Gives (λ x. (view x.0, x.1.now)) result (judged_body_at FrameType.Crypto bytes.now) }
{
    let (offset, rest) = number_at(bytes)?;
    let (bytes, rest) = counted_at(rest)?;
    if !ends_in_range(offset, bytes) {
        return Err(FaultKind::OffsetTooLarge);
    }
    Ok((Frame::Crypto { offset, bytes }, rest))
}

#[tactic(auto, unfolding(crate::specs::Reading::body_at, crate::specs::Bodies::judged_body_at))]
fn new_token_at(bytes: &[u8]) -> Result<(Frame<'_>, &[u8]), FaultKind>
    ensures { Gives (λ x. (view x.0, x.1.now)) result (judged_body_at FrameType.NewToken bytes.now) }
{
    let (bytes, rest) = counted_at(bytes)?;
    Ok((Frame::NewToken { bytes }, rest))
}

#[tactic(auto, unfolding(crate::specs::Reading::body_at, crate::specs::Bodies::judged_body_at))]
#[inline(always)]
pub(crate) fn stream_at(
    off: bool,
    len: bool,
    fin: bool,
    bytes: &[u8],
) -> Result<(Frame<'_>, &[u8]), FaultKind>
    ensures { Gives (λ x. (view x.0, x.1.now)) result (judged_body_at (FrameType.Stream off len fin) bytes.now) }
{
    let (stream, rest) = number_at(bytes)?;
    let (offset, rest) = number_if(off, rest)?;
    let (bytes, rest) = counted_if(len, rest)?;
    if !ends_in_range(offset, bytes) {
        return Err(FaultKind::OffsetTooLarge);
    }
    let stream = StreamId::of_varint(stream);
    Ok((
        Frame::Stream {
            stream,
            offset,
            fin,
            bytes,
        },
        rest,
    ))
}

#[tactic(auto, unfolding(crate::specs::Reading::body_at, crate::specs::Bodies::judged_body_at))]
fn max_data_at(bytes: &[u8]) -> Result<(Frame<'_>, &[u8]), FaultKind>
    ensures { Gives (λ x. (view x.0, x.1.now)) result (judged_body_at FrameType.MaxData bytes.now) }
{
    let (maximum, rest) = number_at(bytes)?;
    Ok((Frame::MaxData { maximum }, rest))
}

#[tactic(auto, unfolding(crate::specs::Reading::body_at, crate::specs::Bodies::judged_body_at))]
fn max_stream_data_at(bytes: &[u8]) -> Result<(Frame<'_>, &[u8]), FaultKind>
    ensures { Gives (λ x. (view x.0, x.1.now)) result (judged_body_at FrameType.MaxStreamData bytes.now) }
{
    let (stream, rest) = number_at(bytes)?;
    let (maximum, rest) = number_at(rest)?;
    let stream = StreamId::of_varint(stream);
    Ok((Frame::MaxStreamData { stream, maximum }, rest))
}

#[tactic(auto, unfolding(crate::specs::Reading::body_at, crate::specs::Bodies::judged_body_at))]
fn max_streams_at(dir: Dir, bytes: &[u8]) -> Result<(Frame<'_>, &[u8]), FaultKind>
    ensures { Gives (λ x. (view x.0, x.1.now)) result (judged_body_at (FrameType.MaxStreams dir) bytes.now) }
{
    let (count, rest) = number_at(bytes)?;
    if count > 1 << 60 {
        return Err(FaultKind::CountTooLarge);
    }
    Ok((Frame::MaxStreams { dir, count }, rest))
}

#[tactic(auto, unfolding(crate::specs::Reading::body_at, crate::specs::Bodies::judged_body_at))]
fn data_blocked_at(bytes: &[u8]) -> Result<(Frame<'_>, &[u8]), FaultKind>
    ensures { Gives (λ x. (view x.0, x.1.now)) result (judged_body_at FrameType.DataBlocked bytes.now) }
{
    let (limit, rest) = number_at(bytes)?;
    Ok((Frame::DataBlocked { limit }, rest))
}

#[tactic(auto, unfolding(crate::specs::Reading::body_at, crate::specs::Bodies::judged_body_at))]
fn stream_data_blocked_at(bytes: &[u8]) -> Result<(Frame<'_>, &[u8]), FaultKind>
    ensures { Gives (λ x. (view x.0, x.1.now)) result (judged_body_at FrameType.StreamDataBlocked bytes.now) }
{
    let (stream, rest) = number_at(bytes)?;
    let (limit, rest) = number_at(rest)?;
    let stream = StreamId::of_varint(stream);
    Ok((Frame::StreamDataBlocked { stream, limit }, rest))
}

#[tactic(auto, unfolding(crate::specs::Reading::body_at, crate::specs::Bodies::judged_body_at))]
fn streams_blocked_at(dir: Dir, bytes: &[u8]) -> Result<(Frame<'_>, &[u8]), FaultKind>
    ensures { Gives (λ x. (view x.0, x.1.now)) result (judged_body_at (FrameType.StreamsBlocked dir) bytes.now) }
{
    let (count, rest) = number_at(bytes)?;
    if count > 1 << 60 {
        return Err(FaultKind::CountTooLarge);
    }
    Ok((Frame::StreamsBlocked { dir, count }, rest))
}

#[tactic(auto, unfolding(crate::specs::Reading::body_at, crate::specs::Bodies::judged_body_at))]
fn new_connection_id_at(bytes: &[u8]) -> Result<(Frame<'_>, &[u8]), FaultKind>
    ensures { Gives (λ x. (view x.0, x.1.now)) result (judged_body_at FrameType.NewConnectionId bytes.now) }
{
    let (sequence, rest) = number_at(bytes)?;
    let (retire, rest) = number_at(rest)?;
    let (identifier, rest) = identifier_at(rest)?;
    let (reset_token, rest) = plain_at(16, rest)?;
    Ok((
        Frame::NewConnectionId {
            sequence,
            retire,
            identifier,
            reset_token,
        },
        rest,
    ))
}

#[tactic(auto, unfolding(crate::specs::Reading::body_at, crate::specs::Bodies::judged_body_at))]
fn retire_connection_id_at(bytes: &[u8]) -> Result<(Frame<'_>, &[u8]), FaultKind>
    ensures { Gives (λ x. (view x.0, x.1.now)) result (judged_body_at FrameType.RetireConnectionId bytes.now) }
{
    let (sequence, rest) = number_at(bytes)?;
    Ok((Frame::RetireConnectionId { sequence }, rest))
}

#[tactic(auto, unfolding(crate::specs::Reading::body_at, crate::specs::Bodies::judged_body_at))]
fn path_challenge_at(bytes: &[u8]) -> Result<(Frame<'_>, &[u8]), FaultKind>
    ensures { Gives (λ x. (view x.0, x.1.now)) result (judged_body_at FrameType.PathChallenge bytes.now) }
{
    let (bytes, rest) = plain_at(8, bytes)?;
    Ok((Frame::PathChallenge { bytes }, rest))
}

#[tactic(auto, unfolding(crate::specs::Reading::body_at, crate::specs::Bodies::judged_body_at))]
fn path_response_at(bytes: &[u8]) -> Result<(Frame<'_>, &[u8]), FaultKind>
    ensures { Gives (λ x. (view x.0, x.1.now)) result (judged_body_at FrameType.PathResponse bytes.now) }
{
    let (bytes, rest) = plain_at(8, bytes)?;
    Ok((Frame::PathResponse { bytes }, rest))
}

#[tactic(auto, unfolding(crate::specs::Reading::body_at, crate::specs::Bodies::judged_body_at))]
fn connection_close_at(bytes: &[u8]) -> Result<(Frame<'_>, &[u8]), FaultKind>
    ensures { Gives (λ x. (view x.0, x.1.now)) result (judged_body_at FrameType.ConnectionClose bytes.now) }
{
    let (code, rest) = number_at(bytes)?;
    let (frame_type, rest) = number_at(rest)?;
    let (reason, rest) = counted_at(rest)?;
    Ok((
        Frame::ConnectionClose {
            code,
            frame_type,
            reason,
        },
        rest,
    ))
}

#[tactic(auto, unfolding(crate::specs::Reading::body_at, crate::specs::Bodies::judged_body_at))]
fn application_close_at(bytes: &[u8]) -> Result<(Frame<'_>, &[u8]), FaultKind>
    ensures { Gives (λ x. (view x.0, x.1.now)) result (judged_body_at FrameType.ApplicationClose bytes.now) }
{
    let (code, rest) = number_at(bytes)?;
    let (reason, rest) = counted_at(rest)?;
    Ok((Frame::ApplicationClose { code, reason }, rest))
}

/// Its values break nothing.
pub(crate) fn body_at(frame_type: FrameType, bytes: &[u8]) -> Result<(Frame<'_>, &[u8]), FaultKind>
    ensures { Gives (λ x. (view x.0, x.1.now)) result (judged_body_at frame_type bytes.now) }
{
    match frame_type {
        FrameType::Padding => Ok((Frame::Padding, bytes)),
        FrameType::Ping => Ok((Frame::Ping, bytes)),
        FrameType::Ack { ecn } => ack_at(ecn, bytes),
        FrameType::ResetStream => reset_stream_at(bytes),
        FrameType::StopSending => stop_sending_at(bytes),
        FrameType::Crypto => crypto_at(bytes),
        FrameType::NewToken => new_token_at(bytes),
        FrameType::Stream { off, len, fin } => stream_at(off, len, fin, bytes),
        FrameType::MaxData => max_data_at(bytes),
        FrameType::MaxStreamData => max_stream_data_at(bytes),
        FrameType::MaxStreams { dir } => max_streams_at(dir, bytes),
        FrameType::DataBlocked => data_blocked_at(bytes),
        FrameType::StreamDataBlocked => stream_data_blocked_at(bytes),
        FrameType::StreamsBlocked { dir } => streams_blocked_at(dir, bytes),
        FrameType::NewConnectionId => new_connection_id_at(bytes),
        FrameType::RetireConnectionId => retire_connection_id_at(bytes),
        FrameType::PathChallenge => path_challenge_at(bytes),
        FrameType::PathResponse => path_response_at(bytes),
        FrameType::ConnectionClose => connection_close_at(bytes),
        FrameType::ApplicationClose => application_close_at(bytes),
        FrameType::HandshakeDone => Ok((Frame::HandshakeDone, bytes)),
    }
}
