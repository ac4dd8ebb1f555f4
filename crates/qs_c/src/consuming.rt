//! Bytes are taken without a copy.
ghost use Rattle.std.specs.Prelude.{◌≡◌, Result};
ghost use Rattle.qs_calls.specs.declared.reading.Consumed.{Consumed};
ghost use Rattle.qs_calls.specs.declared.uses.UseFault.{UseFault};
ghost use Rattle.qs_machine.specs.Owner.{ConsumeStep};
ghost use Rattle.qs_c.specs.Statuses.{Called, Tested, Invalid, is_small, consumed_told};

use crate::answers::{INVALID, of_consumed};
use crate::handle::Handle;
use crate::thing::Thing;
use qs_wire::StreamId;
use std::alloc::Global;

#[unsafe(no_mangle)]
pub extern "C" fn gvp_consume(
    alloc: Global,
    end: &mut Handle,
    stream: u64,
    most: usize,
    number: &mut u64,
    at_end: &mut bool,
) -> u32
    ensures { Called end.old.cell.value end.new.cell.value (is_small stream) (Invalid result number.old number.new × (at_end.new ≡ at_end.old)) (λ e f. (a : Result Consumed UseFault) × ((result, number.new, at_end.new) ≡ consumed_told a number.old at_end.old) × ConsumeStep e stream most a f) }
{
    let Some(mut thing) = end.take(alloc) else {
        return INVALID;
    };
    let status = thing.consume(stream, most, number, at_end);
    end.put(thing);
    status
}

impl Thing {
    pub(crate) fn consume(
        &mut self,
        stream: u64,
        most: usize,
        number: &mut u64,
        at_end: &mut bool,
    ) -> u32
        ensures { Tested (is_small stream) self.old self.new (Invalid result number.old number.new × (at_end.new ≡ at_end.old)) ((a : Result Consumed UseFault) × ((result, number.new, at_end.new) ≡ consumed_told a number.old at_end.old) × ConsumeStep self.old stream most a self.new) }
    {
        let Some(id) = StreamId::new(stream) else {
            return INVALID;
        };
        of_consumed(self.end.consume(id, most), number, at_end)
    }
}
