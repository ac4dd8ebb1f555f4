//! The calls of C for what is counted over all streams: what waits to be sent, what is kept, and what was consumed.
ghost use Rattle.std.specs.Prelude.{◌≡◌, ◌-◌, ◌^◌, true, min, MatchBool};
ghost use Rattle.qs_machine.specs.Asking.{all_unsent, all_kept, taken};
ghost use Rattle.qs_machine.specs.Credit.{all_taken};
ghost use Rattle.qs_c.specs.Statuses.{Asked, Invalid, found, is_small};

use crate::answers::{INVALID, OK, of_number};
use crate::handle::Handle;
use crate::thing::Thing;
use qs_wire::StreamId;
use std::alloc::Global;

#[unsafe(no_mangle)]
pub extern "C" fn gvp_unsent_sum(alloc: Global, end: &mut Handle, count: &mut u64) -> u32
    ensures { Asked end.old.cell.value end.new.cell.value true (Invalid result count.old count.new) (λ e. (result ≡ 0) × (count.new ≡ min (all_unsent e) (2 ^ 64 - 1))) }
{
    let Some(thing) = end.take(alloc) else {
        return INVALID;
    };
    let status = thing.unsent_sum(count);
    end.put(thing);
    status
}

#[unsafe(no_mangle)]
pub extern "C" fn gvp_kept_sum(alloc: Global, end: &mut Handle, count: &mut u64) -> u32
    ensures { Asked end.old.cell.value end.new.cell.value true (Invalid result count.old count.new) (λ e. (result ≡ 0) × (count.new ≡ min (all_kept e) (2 ^ 64 - 1))) }
{
    let Some(thing) = end.take(alloc) else {
        return INVALID;
    };
    let status = thing.kept_sum(count);
    end.put(thing);
    status
}

#[unsafe(no_mangle)]
pub extern "C" fn gvp_taken_on(alloc: Global, end: &mut Handle, stream: u64, count: &mut u64) -> u32
    ensures { Asked end.old.cell.value end.new.cell.value (is_small stream) (Invalid result count.old count.new) (λ e. (result, count.new) ≡ found (taken e stream) count.old) }
{
    let Some(thing) = end.take(alloc) else {
        return INVALID;
    };
    let status = thing.taken(stream, count);
    end.put(thing);
    status
}

#[unsafe(no_mangle)]
pub extern "C" fn gvp_taken_sum(alloc: Global, end: &mut Handle, count: &mut u64) -> u32
    ensures { Asked end.old.cell.value end.new.cell.value true (Invalid result count.old count.new) (λ e. (result ≡ 0) × (count.new ≡ all_taken e)) }
{
    let Some(thing) = end.take(alloc) else {
        return INVALID;
    };
    let status = thing.taken_sum(count);
    end.put(thing);
    status
}

impl Thing {
    pub(crate) fn unsent_sum(&self, count: &mut u64) -> u32
        ensures { (result ≡ 0) × (count.new ≡ min (all_unsent self.now) (2 ^ 64 - 1)) }
    {
        *count = self.end.unsent_sum();
        OK
    }

    pub(crate) fn kept_sum(&self, count: &mut u64) -> u32
        ensures { (result ≡ 0) × (count.new ≡ min (all_kept self.now) (2 ^ 64 - 1)) }
    {
        *count = self.end.kept_sum();
        OK
    }

    pub(crate) fn taken(&self, stream: u64, count: &mut u64) -> u32
        ensures { MatchBool (is_small stream) ((result, count.new) ≡ found (taken self.now stream) count.old) (Invalid result count.old count.new) }
    {
        let Some(id) = StreamId::new(stream) else {
            return INVALID;
        };
        of_number(self.end.taken(id), count)
    }

    pub(crate) fn taken_sum(&self, count: &mut u64) -> u32
        ensures { (result ≡ 0) × (count.new ≡ all_taken self.now) }
    {
        *count = self.end.taken_sum();
        OK
    }
}
