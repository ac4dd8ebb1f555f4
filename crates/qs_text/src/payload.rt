//! The frames of a payload, a line for each.

ghost use Rattle.std.specs.Prelude.{◌≡◌, ◌++◌, OnOk, IfOk, is_some};
ghost use Rattle.std.specs.String.{string_bytes};
ghost use Rattle.qs_wire.specs.Reading.{reading_of, view_placed};
ghost use Rattle.qs_wire.specs.Grammar.{canonical, canonical_all, frames_of, Fits};
ghost use Rattle.qs_wire.specs.Layout.{view};
ghost use Rattle.qs_text.specs.FrameText.{line_of, lines_of, payload_text};

use crate::frame_text::{push_fault, push_frame};
use crate::words::push_hex;
use qs_wire::{Frame, Frames, Full, Placed, WireFault, put};
use std::alloc::{AllocError, Global};

/// The text of a payload, and whether it has a fault.
pub fn payload_text(alloc: Global, payload: &[u8]) -> Result<(String, bool), AllocError>
    ensures text { IfOk result (λ shown. string_bytes shown.0 ≡ payload_text payload.now) }
    ensures fault { IfOk result (λ shown. shown.1 ≡ is_some (reading_of payload.now).fault) }
{
    let mut text = String::new(alloc);
    let mut canonical = Vec::new(alloc);
    let fault = push_frames(alloc, &mut text, &mut canonical, payload)?;
    match fault {
        Some(fault) => push_fault(&mut text, fault)?,
        None => {
            text.push_str("canonical ")?;
            push_hex(alloc, &mut text, &canonical)?;
            text.push_str("\n")?;
        }
    }
    Ok((text, fault.is_some()))
}

/// Both at once, so that the payload is read once.
fn push_frames(
    alloc: Global,
    text: &mut String,
    canonical: &mut Vec<u8>,
    payload: &[u8],
) -> Result<Option<WireFault>, AllocError>
    ensures lines { OnOk result (string_bytes text.new ≡ string_bytes text.old ++ lines_of (reading_of payload.now).left) }
    ensures canonical { OnOk result (canonical.new.items ≡ canonical.old.items ++ canonical_all (frames_of (reading_of payload.now).left)) }
    ensures fault { IfOk result (λ fault. fault ≡ (reading_of payload.now).fault) }
{
    let mut frames = Frames::new(payload);
    let mut room = Vec::new(alloc);
    loop {
        match frames.next() {
            Ok(Some(placed)) => {
                push_line(alloc, text, &placed)?;
                push_canonical(canonical, &mut room, &placed.frame)?;
            }
            Ok(None) => return Ok(None),
            Err(fault) => return Ok(Some(fault)),
        }
    }
}

fn push_line(alloc: Global, text: &mut String, placed: &Placed) -> Result<(), AllocError>
    requires { Fits (view placed.now.frame) }
    ensures { OnOk result (string_bytes text.new ≡ string_bytes text.old ++ line_of (view_placed placed.now)) }
{
    let place = placed.place;
    write!(text, "{place} ")?;
    push_frame(alloc, text, &placed.frame)?;
    text.push_str("\n")
}

/// It is put together in `room`, which serves all frames and grows only if it has to.
fn push_canonical(bytes: &mut Vec<u8>, room: &mut Vec<u8>, frame: &Frame) -> Result<(), AllocError>
    requires { Fits (view frame.now) }
    ensures { OnOk result (bytes.new.items ≡ bytes.old.items ++ canonical (view frame.now)) }
{
    loop {
        match put(frame, room) {
            Ok(len) => return bytes.extend_from_slice(&room[..len]),
            Err(Full) => {
                let more = room.len() / 2 + 64;
                room.resize(room.len() + more, 0)?;
            }
        }
    }
}
