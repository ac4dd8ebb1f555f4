//! A frame as a line of text.

ghost use Rattle.std.specs.Prelude.{◌≡◌, ◌++◌, OnOk};
ghost use Rattle.std.specs.String.{string_bytes};
ghost use Rattle.qs_wire.specs.Grammar.{Fits};
ghost use Rattle.qs_wire.specs.Layout.{view};
ghost use Rattle.qs_text.specs.FrameText.{fault_line, name_of, frame_text};

use crate::fields::{fields_of, push_fields};
use crate::words::push_code;
use qs_wire::{Frame, WireFault};
use std::alloc::{AllocError, Global};

fn name_of(frame: &Frame) -> &'static str
    ensures { result.now ≡ name_of (view frame.now) }
{
    match frame {
        Frame::Padding => "PADDING",
        Frame::Ping => "PING",
        Frame::Ack { .. } => "ACK",
        Frame::ResetStream { .. } => "RESET_STREAM",
        Frame::StopSending { .. } => "STOP_SENDING",
        Frame::Crypto { .. } => "CRYPTO",
        Frame::NewToken { .. } => "NEW_TOKEN",
        Frame::Stream { .. } => "STREAM",
        Frame::MaxData { .. } => "MAX_DATA",
        Frame::MaxStreamData { .. } => "MAX_STREAM_DATA",
        Frame::MaxStreams { .. } => "MAX_STREAMS",
        Frame::DataBlocked { .. } => "DATA_BLOCKED",
        Frame::StreamDataBlocked { .. } => "STREAM_DATA_BLOCKED",
        Frame::StreamsBlocked { .. } => "STREAMS_BLOCKED",
        Frame::NewConnectionId { .. } => "NEW_CONNECTION_ID",
        Frame::RetireConnectionId { .. } => "RETIRE_CONNECTION_ID",
        Frame::PathChallenge { .. } => "PATH_CHALLENGE",
        Frame::PathResponse { .. } => "PATH_RESPONSE",
        Frame::ConnectionClose { .. } => "CONNECTION_CLOSE",
        Frame::ApplicationClose { .. } => "APPLICATION_CLOSE",
        Frame::HandshakeDone => "HANDSHAKE_DONE",
    }
}

/// Appends what a frame is and holds.
pub fn push_frame(alloc: Global, text: &mut String, frame: &Frame) -> Result<(), AllocError>
    requires { Fits (view frame.now) }
    ensures { OnOk result (string_bytes text.new ≡ string_bytes text.old ++ frame_text (view frame.now)) }
{
    text.push_str(name_of(frame))?;
    let fields = fields_of(frame);
    push_fields(alloc, text, &fields)
}

/// Appends the line of a fault.
pub fn push_fault(text: &mut String, fault: WireFault) -> Result<(), AllocError>
    ensures { OnOk result (string_bytes text.new ≡ string_bytes text.old ++ fault_line fault) }
{
    let kind = fault.kind.number();
    let place = fault.place;
    write!(text, "fault {kind} place {place} code ")?;
    push_code(text, fault.code)?;
    text.push_str(" type ")?;
    push_code(text, fault.frame_type)?;
    text.push_str("\n")
}
