//! The frames of a payload, one after the other.

ghost use Rattle.std.specs.Prelude.{◌≡◌, ℕ, ◌<◌, ◌^◌, List, Ok, Some, MatchOption, IfOk, IfErr, IfSome, IfNone};
ghost use Rattle.qs_wire.specs.Layout.{FrameValue, view};
ghost use Rattle.qs_wire.specs.Grammar.{PlacedText, PayloadText, FaultyText, frames_of, Fits};
ghost use Rattle.qs_wire.specs.Reading.{Next, NoStreamNext, reading_of, fault_at};

use crate::fault::{FaultKind, WireFault};
use crate::frame::Placed;
use crate::reading::{Broken, frame_at, stream_frame_at};
use std::marker::Model;

/// Gives the frames of a payload in order. It ends at the payload's end, or at the first fault.
#[derive(Debug, Drop)]
pub struct Frames<'a> {
    place: usize,
    rest: &'a [u8],
}

// Clauses see the frames that are left, and the fault that follows them.
impl<'a> Model for Frames<'a> {
    ghost use Rattle.std.specs.Prelude.{◌+◌, ◌^◌, ◌<◌, length};
    ghost use Rattle.qs_wire.specs.Reading.{Reading, reading_from};

    ghost Value = { Reading };

    ghost view = { λ f. reading_from f.place f.rest.now };

    ghost invariant = { λ f. f.place + length f.rest.now < 2 ^ 64 };
}

fn fault_at(place: usize, broken: Broken) -> WireFault
    requires { broken.frame_type < 2 ^ 62 }
    ensures exact { result ≡ fault_at place broken }
    ensures small { (result.code < 2 ^ 62) × (result.frame_type < 2 ^ 62) }
{
    WireFault {
        kind: broken.kind,
        place,
        code: broken.kind.code(),
        frame_type: broken.frame_type,
    }
}

impl<'a> Frames<'a> {
    /// The frames of the payload.
    pub fn new(payload: &'a [u8]) -> Frames<'a>
        // Without a fault, the payload is the text of the frames, each at its place; else the frames stand
        // in it up to the fault, which is the one that stands there.
        ensures found { MatchOption result.fault (PlacedText result.left payload.now) (λ fault. FaultyText result.left fault payload.now) }
        // A text of frames is read as those frames.
        ensures only { (frames : List FrameValue) → PayloadText frames payload.now
            → (frames_of result.left ≡ frames) × (result.fault ≡ None) }
        ensures exact { result ≡ reading_of payload.now }
    {
        Frames {
            place: 0,
            rest: payload,
        }
    }

    /// The next frame, if it is a STREAM frame without a fault: most are, and this way to them is short. Else `None`, and nothing changes.
    #[inline(always)]
    pub fn next_stream(&mut self) -> Option<Placed<'a>>
        ensures step { IfSome result (λ placed. Next self.old (Ok (Some placed)) self.new) }
        ensures fits { IfSome result (λ placed. Fits (view placed.frame)) }
        ensures typed { IfSome result (λ placed. placed.frame_type < 2 ^ 62) }
        ensures same { IfNone result (self.new ≡ self.old) }
        ensures other { IfNone result (NoStreamNext self.old) }
    {
        let place = self.place;
        match stream_frame_at(self.rest) {
            Some((frame_type, frame, rest)) => {
                self.place += self.rest.len() - rest.len();
                self.rest = rest;
                Some(Placed {
                    place,
                    frame,
                    frame_type,
                })
            }
            None => None,
        }
    }

    /// The next frame, `None` after the last, or the fault that stands in place of a frame. After a
    /// fault it gives that fault again, and after the end `None`.
    pub fn next(&mut self) -> Result<Option<Placed<'a>>, WireFault>
        ensures step { Next self.old result self.new }
        // A frame that was read can be written.
        ensures fits { IfOk result (λ next. IfSome next (λ placed. Fits (view placed.frame))) }
        // A frame's type and what a fault tells have a spelling.
        ensures typed { IfOk result (λ next. IfSome next (λ placed. placed.frame_type < 2 ^ 62)) }
        ensures told { IfErr result (λ fault. (fault.code < 2 ^ 62) × (fault.frame_type < 2 ^ 62)) }
    {
        let place = self.place;
        if self.rest.is_empty() {
            if place > 0 {
                return Ok(None);
            }
            return Err(fault_at(
                place,
                Broken {
                    kind: FaultKind::Empty,
                    frame_type: 0,
                },
            ));
        }
        match frame_at(self.rest) {
            Ok((frame_type, frame, rest)) => {
                self.place += self.rest.len() - rest.len();
                self.rest = rest;
                Ok(Some(Placed {
                    place,
                    frame,
                    frame_type,
                }))
            }
            Err(broken) => Err(fault_at(place, broken)),
        }
    }
}
