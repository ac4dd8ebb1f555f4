//! The next bytes are lent where they are.
ghost use Rattle.std.specs.Prelude.{◌≡◌, Result, MatchBool};
ghost use Rattle.qs_recv.specs.declared.half.Peek.{Peek};
ghost use Rattle.qs_calls.specs.declared.uses.UseFault.{UseFault};
ghost use Rattle.qs_machine.specs.Asking.{IsPeeked};
ghost use Rattle.qs_c.specs.Statuses.{Looked, Invalid, is_small};
ghost use Rattle.qs_c.specs.Peeking.{peek_told};

use crate::answers::{INVALID, of_peek};
use crate::handle::Handle;
use crate::thing::Thing;
use qs_wire::StreamId;

#[repr(C)]
#[derive(Clone, Copy, Drop)]
pub struct GvPieces<'a> {
    pub front: &'a [u8],
    pub back: &'a [u8],
}

/// The pieces are lent as long as the handle is: the rules on borrows say so, and no promise beside them. The price is a `&mut` for a call
/// that changes nothing.
#[unsafe(no_mangle)]
pub extern "C" fn gvp_peek<'a>(
    end: &'a mut Handle,
    stream: u64,
    code: &mut u64,
    pieces: &mut GvPieces<'a>,
) -> u32
    ensures { Looked end.old.cell.value (is_small stream) (Invalid result code.old code.new × (pieces.new ≡ pieces.old)) (λ e. (a : Result Peek UseFault) × ((result, code.new, pieces.new) ≡ peek_told a code.old pieces.old) × IsPeeked e stream a) }
{
    let Some(thing) = end.held() else {
        return INVALID;
    };
    thing.peek(stream, code, pieces)
}

impl Thing {
    pub(crate) fn peek<'a>(&'a self, stream: u64, code: &mut u64, pieces: &mut GvPieces<'a>) -> u32
        ensures { MatchBool (is_small stream) ((a : Result Peek UseFault) × ((result, code.new, pieces.new) ≡ peek_told a code.old pieces.old) × IsPeeked self.now stream a) (Invalid result code.old code.new × (pieces.new ≡ pieces.old)) }
    {
        let Some(id) = StreamId::new(stream) else {
            return INVALID;
        };
        of_peek(self.end.peek(id), code, pieces)
    }
}
