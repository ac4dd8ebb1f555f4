//! The calls of C for a stack with packets of its own: it passes frames in, and has pending ones filled in.
ghost use Rattle.std.specs.Prelude.{◌≡◌, [], length, Option, Result};
ghost use Rattle.qs_calls.specs.declared.filling.Filled.{Filled};
ghost use Rattle.qs_calls.specs.declared.making.MakeFault.{MakeFault};
ghost use Rattle.qs_calls.specs.declared.token.Taken.{Taken};
ghost use Rattle.qs_calls.specs.declared.token.TakeFault.{TakeFault};
ghost use Rattle.qs_machine.specs.Alone.{TakeFrameStep};
ghost use Rattle.qs_machine.specs.Filling.{FillStep};
ghost use Rattle.qs_machine.specs.InOrder.{NoItemStarves};
ghost use Rattle.qs_conn.specs.Written.{filled_text, KeepsBehind};
ghost use Rattle.qs_c.specs.Statuses.{Called, Tested, Invalid, is_small, taken_told, filled_told};
ghost use Rattle.qs_c.specs.Structs.{request_in};
ghost use Rattle.qs_c.specs.Frames.{frame_in, is_frame};

use crate::answers::{INVALID, of_filled, of_taken};
use crate::frame::GvFrame;
use crate::handle::Handle;
use crate::puts::{frame_of, is_known};
use crate::structs::{GvFilled, GvRequest};
use crate::thing::Thing;
use qs_calls::Fill;
use qs_wire::StreamId;
use std::alloc::Global;

/// The token of a NEW_CONNECTION_ID isn't asked for: that frame is the stack's own.
#[unsafe(no_mangle)]
pub extern "C" fn gvp_take_frame(
    alloc: Global,
    end: &mut Handle,
    frame: &GvFrame,
    bytes: &[u8],
    taken: &mut u32,
) -> u32
    ensures { Called end.old.cell.value end.new.cell.value (is_frame frame.now) (Invalid result taken.old taken.new) (λ e f. (a : Result Taken TakeFault) × ((result, taken.new) ≡ taken_told a taken.old) × TakeFrameStep e (frame_in frame.now bytes.now []) a f) }
{
    let Some(mut thing) = end.take(alloc) else {
        return INVALID;
    };
    let status = thing.take_frame(frame, bytes, taken);
    end.put(thing);
    status
}

#[unsafe(no_mangle)]
pub extern "C" fn gvp_fill(
    alloc: Global,
    end: &mut Handle,
    want: &GvRequest,
    out: &mut [u8],
    filled: &mut GvFilled,
) -> u32
    ensures { Called end.old.cell.value end.new.cell.value (is_small want.now.first) (Invalid result filled.old filled.new × (out.new ≡ out.old)) (λ e f. (a : Result (Option Filled) MakeFault) × ((result, filled.new) ≡ filled_told a filled.old) × FillStep e (request_in want.now) (length out.old) a (filled_text a out.new) f × NoItemStarves (request_in want.now) e a f × KeepsBehind a out.old out.new) }
{
    let Some(mut thing) = end.take(alloc) else {
        return INVALID;
    };
    let status = thing.fill(want, out, filled);
    end.put(thing);
    status
}

impl Thing {
    pub(crate) fn take_frame(&mut self, frame: &GvFrame, bytes: &[u8], taken: &mut u32) -> u32
        ensures { Tested (is_frame frame.now) self.old self.new (Invalid result taken.old taken.new) ((a : Result Taken TakeFault) × ((result, taken.new) ≡ taken_told a taken.old) × TakeFrameStep self.old (frame_in frame.now bytes.now []) a self.new) }
    {
        if !is_known(frame) || StreamId::new(frame.stream).is_none() {
            return INVALID;
        }
        let Some(given) = frame_of(frame, bytes, &[]) else {
            return INVALID;
        };
        of_taken(self.end.take_frame(&given), taken)
    }

    pub(crate) fn fill(&mut self, want: &GvRequest, out: &mut [u8], filled: &mut GvFilled) -> u32
        ensures { Tested (is_small want.now.first) self.old self.new (Invalid result filled.old filled.new × (out.new ≡ out.old)) ((a : Result (Option Filled) MakeFault) × ((result, filled.new) ≡ filled_told a filled.old) × FillStep self.old (request_in want.now) (length out.old) a (filled_text a out.new) self.new × NoItemStarves (request_in want.now) self.old a self.new × KeepsBehind a out.old out.new) }
    {
        let Some(first) = StreamId::new(want.first) else {
            return INVALID;
        };
        let wanted = Fill {
            items: want.items,
            streams: want.streams,
            first,
            alone: want.alone,
            most_bytes: want.most_bytes,
        };
        of_filled(self.end.fill(out, &wanted), filled)
    }
}
