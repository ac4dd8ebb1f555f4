//! Reading the frame that begins the bytes.

ghost use Rattle.std.specs.Prelude.{◌≡◌, ℕ, ◌^◌, ◌<◌, ◌≤◌, List, ◌∷◌, Ok, IfOk, IfErr, IfSome, IfNone};
ghost use Rattle.qs_wire.specs.Layout.{view};
ghost use Rattle.qs_wire.specs.Reading.{Gives, number_of_type_at, frame_at};
ghost use Rattle.qs_wire.specs.Bodies.{IsRead, NoStreamAt};

use crate::bodies::{body_at, stream_at};
use crate::fault::FaultKind;
use crate::frame::Frame;
use crate::frame_type::FrameType;
use crate::varint::{read_varint, varint_len};

/// A fault lacks its place, which only the caller knows.
#[derive(Clone, Copy)]
pub(crate) struct Broken {
    pub(crate) kind: FaultKind,
    pub(crate) frame_type: u64,
}

#[tactic(auto, unfolding(crate::specs::Reading::number_of_type_at, crate::specs::Varint::varint_at, crate::specs::Varint::short_len))]
#[inline(always)]
fn short_type_at(bytes: &[u8]) -> Option<(u64, &[u8])>
    ensures gives { IfSome result (λ x. number_of_type_at bytes.now ≡ Ok (x.0, x.1.now)) }
    ensures typed { IfSome result (λ x. x.0 < 2 ^ 62) }
    ensures longer { IfNone result ((b : ℕ) (bs : List ℕ) → bytes.now ≡ b ∷ bs → 64 ≤ b) }
{
    match bytes.split_first() {
        // One byte has no shorter spelling.
        Some((&first, rest)) if first < 0x40 => Some((u64::from(first), rest)),
        _ => None,
    }
}

fn type_at(bytes: &[u8]) -> Result<(u64, &[u8]), Broken>
    ensures gives { Gives (λ x. (x.0, x.1.now)) result (number_of_type_at bytes.now) }
    ensures typed { IfOk result (λ x. x.0 < 2 ^ 62) }
    ensures broken { IfErr result (λ broken. broken.frame_type < 2 ^ 62) }
{
    match short_type_at(bytes) {
        Some(short) => Ok(short),
        None => long_type_at(bytes),
    }
}

/// Apart, since types of more than one byte are rare: they are always a fault here.
#[tactic(auto, unfolding(crate::specs::Reading::number_of_type_at))]
fn long_type_at(bytes: &[u8]) -> Result<(u64, &[u8]), Broken>
    ensures gives { Gives (λ x. (x.0, x.1.now)) result (number_of_type_at bytes.now) }
    ensures typed { IfOk result (λ x. x.0 < 2 ^ 62) }
    ensures broken { IfErr result (λ broken. broken.frame_type < 2 ^ 62) }
{
    let Some((frame_type, len)) = read_varint(bytes) else {
        return Err(Broken {
            kind: FaultKind::Truncated,
            frame_type: 0,
        });
    };
    if len != varint_len(frame_type) {
        return Err(Broken {
            kind: FaultKind::LongType,
            frame_type,
        });
    }
    Ok((frame_type, &bytes[len..]))
}

#[tactic(auto, unfolding(crate::specs::Reading::frame_at))]
pub(crate) fn frame_at(bytes: &[u8]) -> Result<(u64, Frame<'_>, &[u8]), Broken>
    ensures gives { Gives (λ x. (x.0, view x.1, x.2.now)) result (frame_at bytes.now) }
    ensures read { IfOk result (λ x. IsRead bytes.now x.0 (view x.1) x.2.now) }
    ensures broken { IfErr result (λ broken. broken.frame_type < 2 ^ 62) }
{
    let (frame_type, rest) = type_at(bytes)?;
    let Some(known) = FrameType::of(frame_type) else {
        return Err(Broken {
            kind: FaultKind::UnknownType,
            frame_type,
        });
    };
    match body_at(known, rest) {
        Ok((frame, rest)) => Ok((frame_type, frame, rest)),
        Err(kind) => Err(Broken { kind, frame_type }),
    }
}

/// The same, if it is a STREAM frame without a fault.
#[inline(always)]
pub(crate) fn stream_frame_at(bytes: &[u8]) -> Option<(u64, Frame<'_>, &[u8])>
    ensures other { IfNone result (NoStreamAt bytes.now) }
    ensures read { IfSome result (λ x. IsRead bytes.now x.0 (view x.1) x.2.now) }
{
    let (frame_type, rest) = short_type_at(bytes)?;
    let Some(FrameType::Stream { off, len, fin }) = FrameType::of(frame_type) else {
        return None;
    };
    match stream_at(off, len, fin, rest) {
        Ok((frame, rest)) => Some((frame_type, frame, rest)),
        Err(_kind) => None,
    }
}
