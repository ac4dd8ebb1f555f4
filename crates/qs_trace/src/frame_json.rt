ghost use Rattle.std.specs.Prelude.{◌≡◌, ◌++◌, ◌^◌, ◌<◌, OnOk};
ghost use Rattle.std.specs.String.{string_bytes};
ghost use Rattle.qs_wire.specs.Grammar.{Fits};
ghost use Rattle.qs_wire.specs.Layout.{view, stream};
ghost use Rattle.qs_trace.specs.FrameJson.{naming_frame, acked_json, ranges_json, ecn_json, close_members, reason_member, delay_member, fault_members, sequence_members, id_members, frame_name, stream_members, credit_members, other_members, frame_json, payload_json};

use crate::words::{
    dir_name, flag_name, push_bytes, push_empty, push_name, push_number, push_quoted, push_word,
};
use qs_wire::{AckRanges, EcnCounts, Frame, Frames};
use std::alloc::{AllocError, Global};

/// Appends the frames of a payload, parted by commas, up to its fault where it has one.
pub fn push_payload(alloc: Global, text: &mut String, payload: &[u8]) -> Result<(), AllocError>
    ensures { OnOk result (string_bytes text.new ≡ string_bytes text.old ++ payload_json payload.now) }
{
    let mut frames = Frames::new(payload);
    let Ok(Some(first)) = frames.next() else {
        return Ok(());
    };
    push_frame(alloc, text, &first.frame)?;
    loop {
        match frames.next() {
            Ok(Some(placed)) => {
                text.push_str(",")?;
                push_frame(alloc, text, &placed.frame)?;
            }
            Ok(None) => return Ok(()),
            Err(_) => return Ok(()),
        }
    }
}

fn push_frame(alloc: Global, text: &mut String, frame: &Frame) -> Result<(), AllocError>
    requires { Fits (view frame.now) }
    ensures { OnOk result (string_bytes text.new ≡ string_bytes text.old ++ frame_json (view frame.now)) }
{
    push_frame_name(text, frame_name(frame))?;
    push_stream_members(text, frame)?;
    push_credit_members(text, frame)?;
    push_other_members(alloc, text, frame)?;
    text.push_str("}")
}

#[tactic(auto, unfolding(crate::specs::FrameJson::naming_frame))]
fn push_frame_name(text: &mut String, name: &str) -> Result<(), AllocError>
    ensures { OnOk result (string_bytes text.new ≡ string_bytes text.old ++ naming_frame name.now) }
{
    text.push_str("{")?;
    push_quoted(text, "frame_type")?;
    text.push_str(":")?;
    push_quoted(text, name)
}

fn frame_name(frame: &Frame) -> &'static str
    ensures { result.now ≡ frame_name (view frame.now) }
{
    match frame {
        Frame::Padding => "padding",
        Frame::Ping => "ping",
        Frame::Ack { .. } => "ack",
        Frame::ResetStream { .. } => "reset_stream",
        Frame::StopSending { .. } => "stop_sending",
        Frame::Crypto { .. } => "crypto",
        Frame::NewToken { .. } => "new_token",
        Frame::Stream { .. } => "stream",
        Frame::MaxData { .. } => "max_data",
        Frame::MaxStreamData { .. } => "max_stream_data",
        Frame::MaxStreams { .. } => "max_streams",
        Frame::DataBlocked { .. } => "data_blocked",
        Frame::StreamDataBlocked { .. } => "stream_data_blocked",
        Frame::StreamsBlocked { .. } => "streams_blocked",
        Frame::NewConnectionId { .. } => "new_connection_id",
        Frame::RetireConnectionId { .. } => "retire_connection_id",
        Frame::PathChallenge { .. } => "path_challenge",
        Frame::PathResponse { .. } => "path_response",
        Frame::ConnectionClose { .. } | Frame::ApplicationClose { .. } => "connection_close",
        Frame::HandshakeDone => "handshake_done",
    }
}

/// Of data the count: viewers want no bytes, and traces stay small.
fn push_stream_members(text: &mut String, frame: &Frame) -> Result<(), AllocError>
    requires { Fits (view frame.now) }
    ensures { OnOk result (string_bytes text.new ≡ string_bytes text.old ++ stream_members (view frame.now)) }
{
    match *frame {
        Frame::Ack {
            largest,
            delay,
            ranges,
            ecn,
        } => {
            push_delay(text, delay)?;
            push_acked(text, AckRanges::new(largest, ranges))?;
            push_ecn(text, ecn)
        }
        Frame::ResetStream {
            stream,
            code,
            final_size,
        } => {
            push_number(text, "stream_id", stream.value())?;
            push_number(text, "error_code", code)?;
            push_number(text, "final_size", final_size)
        }
        Frame::StopSending { stream, code } => {
            push_number(text, "stream_id", stream.value())?;
            push_number(text, "error_code", code)
        }
        Frame::Stream {
            stream,
            offset,
            fin,
            bytes,
        } => push_data(text, stream.value(), offset, fin, bytes),
        _ => Ok(()),
    }
}

/// In microseconds nobody knows it here: it is the number in the frame, under a name of its own.
#[tactic(auto, unfolding(crate::specs::FrameJson::delay_member))]
fn push_delay(text: &mut String, delay: u64) -> Result<(), AllocError>
    ensures { OnOk result (string_bytes text.new ≡ string_bytes text.old ++ delay_member delay) }
{
    push_number(text, "gotsavena:delay_field", delay)
}

fn push_credit_members(text: &mut String, frame: &Frame) -> Result<(), AllocError>
    ensures { OnOk result (string_bytes text.new ≡ string_bytes text.old ++ credit_members (view frame.now)) }
{
    match *frame {
        Frame::MaxData { maximum } => push_number(text, "maximum", maximum),
        Frame::MaxStreamData { stream, maximum } => {
            push_number(text, "stream_id", stream.value())?;
            push_number(text, "maximum", maximum)
        }
        Frame::MaxStreams { dir, count } => {
            push_word(text, "stream_type", dir_name(dir))?;
            push_number(text, "maximum", count)
        }
        Frame::DataBlocked { limit } => push_number(text, "limit", limit),
        Frame::StreamDataBlocked { stream, limit } => {
            push_number(text, "stream_id", stream.value())?;
            push_number(text, "limit", limit)
        }
        Frame::StreamsBlocked { dir, count } => {
            push_word(text, "stream_type", dir_name(dir))?;
            push_number(text, "limit", count)
        }
        _ => Ok(()),
    }
}

fn push_data(
    text: &mut String,
    id: u64,
    offset: u64,
    fin: bool,
    bytes: &[u8],
) -> Result<(), AllocError>
    ensures { OnOk result (string_bytes text.new ≡ string_bytes text.old ++ stream_members (stream id offset fin bytes.now)) }
{
    push_number(text, "stream_id", id)?;
    push_number(text, "offset", offset)?;
    push_number(text, "length", bytes.len() as u64)?;
    push_name(text, "fin")?;
    text.push_str(flag_name(fin))
}

#[tactic(auto, unfolding(crate::specs::FrameJson::acked_json))]
fn push_acked(text: &mut String, ranges: AckRanges) -> Result<(), AllocError>
    ensures { OnOk result (string_bytes text.new ≡ string_bytes text.old ++ acked_json ranges.entry) }
{
    push_name(text, "acked_ranges")?;
    text.push_str("[")?;
    push_ranges(text, ranges)?;
    text.push_str("]")
}

fn push_other_members(alloc: Global, text: &mut String, frame: &Frame) -> Result<(), AllocError>
    ensures { OnOk result (string_bytes text.new ≡ string_bytes text.old ++ other_members (view frame.now)) }
{
    match *frame {
        Frame::Crypto { offset, bytes } => {
            push_number(text, "offset", offset)?;
            push_number(text, "length", bytes.len() as u64)
        }
        Frame::NewToken { .. } => push_empty(text, "token"),
        Frame::NewConnectionId {
            sequence,
            retire,
            identifier,
            reset_token,
        } => {
            push_sequence(text, sequence, retire)?;
            push_ids(alloc, text, identifier, reset_token)
        }
        Frame::RetireConnectionId { sequence } => push_number(text, "sequence_number", sequence),
        Frame::PathChallenge { bytes } => push_bytes(alloc, text, "data", bytes),
        Frame::PathResponse { bytes } => push_bytes(alloc, text, "data", bytes),
        Frame::ConnectionClose {
            code,
            frame_type,
            reason,
        } => {
            push_close(text, "transport", code)?;
            push_fault(alloc, text, frame_type, reason)
        }
        Frame::ApplicationClose { code, reason } => {
            push_close(text, "application", code)?;
            push_reason(alloc, text, reason)
        }
        _ => Ok(()),
    }
}

fn push_close(text: &mut String, space: &str, code: u64) -> Result<(), AllocError>
    ensures { OnOk result (string_bytes text.new ≡ string_bytes text.old ++ close_members space.now code) }
{
    push_word(text, "error_space", space)?;
    push_number(text, "error_code", code)
}

fn push_reason(alloc: Global, text: &mut String, reason: &[u8]) -> Result<(), AllocError>
    ensures { OnOk result (string_bytes text.new ≡ string_bytes text.old ++ reason_member reason.now) }
{
    push_bytes(alloc, text, "reason_bytes", reason)
}

fn push_fault(
    alloc: Global,
    text: &mut String,
    frame_type: u64,
    reason: &[u8],
) -> Result<(), AllocError>
    ensures { OnOk result (string_bytes text.new ≡ string_bytes text.old ++ fault_members frame_type reason.now) }
{
    push_number(text, "trigger_frame_type", frame_type)?;
    push_reason(alloc, text, reason)
}

fn push_sequence(text: &mut String, sequence: u64, retire: u64) -> Result<(), AllocError>
    ensures { OnOk result (string_bytes text.new ≡ string_bytes text.old ++ sequence_members sequence retire) }
{
    push_number(text, "sequence_number", sequence)?;
    push_number(text, "retire_prior_to", retire)
}

fn push_ids(
    alloc: Global,
    text: &mut String,
    identifier: &[u8],
    token: &[u8],
) -> Result<(), AllocError>
    ensures { OnOk result (string_bytes text.new ≡ string_bytes text.old ++ id_members identifier.now token.now) }
{
    push_bytes(alloc, text, "connection_id", identifier)?;
    push_bytes(alloc, text, "stateless_reset_token", token)
}

fn push_ecn(text: &mut String, ecn: Option<EcnCounts>) -> Result<(), AllocError>
    ensures { OnOk result (string_bytes text.new ≡ string_bytes text.old ++ ecn_json ecn) }
{
    let Some(counts) = ecn else {
        return Ok(());
    };
    push_number(text, "ect0", counts.ect0)?;
    push_number(text, "ect1", counts.ect1)?;
    push_number(text, "ce", counts.ce)
}

fn push_ranges(text: &mut String, ranges: AckRanges) -> Result<(), AllocError>
    ensures { OnOk result (string_bytes text.new ≡ string_bytes text.old ++ ranges_json ranges.entry) }
{
    let mut ranges = ranges;
    let Some((smallest, largest)) = ranges.next() else {
        return Ok(());
    };
    write!(text, "[{smallest},{largest}]")?;
    while let Some((smallest, largest)) = ranges.next() {
        write!(text, ",[{smallest},{largest}]")?;
    }
    Ok(())
}
