//! A payload is processed, and C gets the packets that it newly acknowledges.
ghost use Rattle.std.specs.Prelude.{◌≡◌, ◌≤◌, ◌↔◌, IsTrue, length};
ghost use Rattle.std.specs.FinMap as fmap;
ghost use Rattle.qs_c.specs.Statuses.{Called, Tested, Invalid, is_small};
ghost use Rattle.qs_c.specs.Telling.{LieWithin, NotesOne, TellingOut, TellingStep};

use crate::answers::{FULL, INVALID, of_received};
use crate::handle::Handle;
use crate::structs::GvClosing;
use crate::thing::Thing;
use qs_conn::Told;
use std::alloc::Global;

const LIMIT: u64 = 1 << 62;

/// Notes numbers in a slice that C lends, as long as it has room: a callback into C in the middle of a call could call the endpoint.
#[derive(Drop)]
pub(crate) struct Notes<'a> {
    room: &'a mut [u64],
    count: usize,
}

impl Told for Notes<'_> {
    ghost tells = { λ old number new. NotesOne old number new };

    fn tell(&mut self, number: u64) {
        if self.count < self.room.len() {
            self.room[self.count] = number;
            self.count += 1;
        }
    }
}

/// As `gvp_receive`, and writes the numbers of the packets that the payload newly acknowledges. If `told` hasn't a place for each number
/// from the lowest outstanding to the highest, nothing changes: a number that finds no place would be lost.
#[unsafe(no_mangle)]
pub extern "C" fn gvp_receive_with_acks(
    alloc: Global,
    end: &mut Handle,
    number: u64,
    payload: &[u8],
    closing: &mut GvClosing,
    told: &mut [u64],
    count: &mut usize,
) -> u32
    ensures { Called end.old.cell.value end.new.cell.value (is_small number) (Invalid {A = TellingOut} result (record { closing = closing.old; numbers = told.old; count = count.old }) (record { closing = closing.new; numbers = told.new; count = count.new })) (λ e f. TellingStep number payload.now e f result (record { closing = closing.old; numbers = told.old; count = count.old }) (record { closing = closing.new; numbers = told.new; count = count.new })) }
{
    let Some(mut thing) = end.take(alloc) else {
        return INVALID;
    };
    let status = thing.receive_with_acks(number, payload, closing, told, count);
    end.put(thing);
    status
}

impl Thing {
    pub(crate) fn receive_with_acks(
        &mut self,
        number: u64,
        payload: &[u8],
        closing: &mut GvClosing,
        told: &mut [u64],
        count: &mut usize,
    ) -> u32
        ensures { Tested (is_small number) self.old self.new (Invalid {A = TellingOut} result (record { closing = closing.old; numbers = told.old; count = count.old }) (record { closing = closing.new; numbers = told.new; count = count.new })) (TellingStep number payload.now self.old self.new result (record { closing = closing.old; numbers = told.old; count = count.old }) (record { closing = closing.new; numbers = told.new; count = count.new })) }
    {
        if number >= LIMIT {
            return INVALID;
        }
        if !self.lie_within(told.len()) {
            return FULL;
        }
        let mut notes = Notes {
            room: told,
            count: 0,
        };
        let answer = self.end.receive_with_acks(number, payload, &mut notes);
        *count = notes.count;
        of_received(answer, closing)
    }

    #[tactic(auto, using(crate::proofs::Noting::none_fit))]
    fn lie_within(&self, room: usize) -> bool
        ensures exact { IsTrue result ↔ LieWithin self.now.outstanding room }
        ensures few { IsTrue result → length (fmap.keys self.now.outstanding) ≤ room }
    {
        let Some(least) = self.end.next_outstanding(0) else {
            return true;
        };
        match least.checked_add(room as u64) {
            Some(past) => self.end.next_outstanding(past).is_none(),
            None => false,
        }
    }
}
