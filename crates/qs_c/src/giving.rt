//! Frames of one packet are passed in.
ghost use Rattle.std.specs.Prelude.{◌≡◌, ◌+◌, true, length, map, IfSome};
ghost use Rattle.qs_wire.specs.Layout.{view};
ghost use Rattle.qs_c.specs.Statuses.{Called, Tested, Invalid};
ghost use Rattle.qs_c.specs.Giving.{given_in, are_given, TakesAll};

use crate::answers::{INVALID, NO_MEMORY, of_taken};
use crate::frame::GvFrame;
use crate::handle::Handle;
use crate::puts::{frame_of, is_known};
use crate::thing::Thing;
use qs_wire::{Frame, StreamId};
use std::alloc::Global;

#[repr(C)]
#[derive(Clone, Copy, Drop)]
pub struct GvGiven<'a> {
    pub frame: GvFrame,
    pub bytes: &'a [u8],
}

/// Limits move once. It takes memory for the frames, since those of C are other structs.
#[unsafe(no_mangle)]
pub extern "C" fn gvp_take_frames(
    alloc: Global,
    end: &mut Handle,
    frames: &[GvGiven<'_>],
    taken: &mut u32,
) -> u32
    ensures { Called end.old.cell.value end.new.cell.value (are_given frames.now) (Invalid result taken.old taken.new) (λ e f. TakesAll frames.now e f result taken.old taken.new) }
{
    let Some(mut thing) = end.take(alloc) else {
        return INVALID;
    };
    let status = thing.take_frames(alloc, frames, taken);
    end.put(thing);
    status
}

impl Thing {
    pub(crate) fn take_frames(
        &mut self,
        alloc: Global,
        frames: &[GvGiven<'_>],
        taken: &mut u32,
    ) -> u32
        ensures { Tested (are_given frames.now) self.old self.new (Invalid result taken.old taken.new) (TakesAll frames.now self.old self.new result taken.old taken.new) }
    {
        if !are_given(frames) {
            return INVALID;
        }
        let Some(given) = given_in(alloc, frames) else {
            return NO_MEMORY;
        };
        of_taken(self.end.take_frames(&given), taken)
    }
}

/// Before any takes effect, so that `Invalid` changes nothing.
fn are_given(frames: &[GvGiven<'_>]) -> bool
    ensures { result ≡ are_given frames.now }
{
    for given in frames {
        if !is_known(&given.frame) || StreamId::new(given.frame.stream).is_none() {
            return false;
        }
    }
    true
}

fn given_in<'a>(alloc: Global, frames: &[GvGiven<'a>]) -> Option<Vec<Frame<'a>>>
    requires { are_given frames.now ≡ true }
    ensures { IfSome result (λ v. map view v.items ≡ map given_in frames.now) }
{
    let Ok(mut all) = Vec::with_capacity(alloc, frames.len()) else {
        return None;
    };
    for given in frames {
        let Some(frame) = frame_of(&given.frame, given.bytes, &given.bytes[..0]) else {
            return None;
        };
        if all.push(frame).is_err() {
            return None;
        }
    }
    Some(all)
}
