ghost use Rattle.std.specs.Prelude.{◌≡◌, ◌⊎◌, ◌+◌, ◌-◌, ◌≤◌, ◌<◌, ◌^◌, ◌++◌, ◌∷◌, [], ℕ, length, map, take, slice_get, slice_index_or, slice_set, is_some, false, None, Some, IfSome, IfNone, OnOk, OnErr};
ghost use Rattle.qs_ranges.specs.Numbers.{MAX_VARINT};
ghost use Rattle.qs_recv.specs.Lane.{MAX_WINDOW, RecvLane, new_lane, raise, raise_answer};
ghost use Rattle.qs_recv.specs.Lawful.{IsLawful};
ghost use Rattle.qs_machine.specs.Tables.{widened};
ghost use Rattle.qs_machine.specs.Sums.{changed, tally_of, tally_on, IsPaid, EachLawful};
ghost use Rattle.qs_conn.specs.Rooms.{IsRoom, IsSumOf};
ghost use Rattle.qs_conn.specs.RecvEdits.{AreSettled, OnceInto, OnceTakesInto, LeavesCalm, wrapped, with_parts};
ghost use Rattle.qs_conn.specs.Edits.{IsEdited};
ghost use Rattle.qs_conn.specs.RecvTasks.{has_one};
ghost use Rattle.qs_conn.specs.Due.{StayMarkedOf};
ghost use Rattle.qs_conn.specs.Marks.{is_marked};

use crate::held::{Holds, sum_held};
use crate::marks::Marks;
use crate::recv_marks::{RecvMarks, RecvTask};
use qs_machine::Tally;
use qs_ranges::NoMemory;
use qs_recv::{RecvHalf, RingAssembly, Share};
use qs_streams::{Boards, Task};
use qs_wire::StreamId;
use std::alloc::Global;
use std::marker::Model;

pub(crate) type Half = RecvHalf<RingAssembly>;

/// A vector of records of 24 bytes: a half is found by one look, and one more at its box. A table of slots, as sending halves have it,
/// would cost a half that stores bytes a third look at each call.
#[derive(Drop)]
pub(crate) struct RecvLanes {
    alloc: Global,
    halves: Vec<Half>,
    // Modulo 2^64: whoever asks for the sums knows that they fit.
    tally: Tally,
    // No limit rises as a call ends but of those that are marked.
    rising: Marks,
    news: RecvMarks,
}

impl Model for RecvLanes {
    ghost use Rattle.std.specs.Prelude.{List};
    ghost use Rattle.std.specs.Coded.{coded_list};
    ghost use Rattle.qs_recv.specs.Lane.{RecvLane};
    ghost use Rattle.qs_recv.specs.Codes.{lane_code};
    ghost use Rattle.qs_conn.specs.RecvEdits.{AreKept};

    ghost Value = { List RecvLane };

    ghost coded = { coded_list lane_code };

    ghost view = { λ l. l.halves.items };

    ghost invariant = { λ l. AreKept l.halves.items l.tally l.rising l.news };
}

impl RecvLanes {
    pub(crate) fn new(alloc: Global) -> Self
        ensures { result ≡ [] }
    {
        RecvLanes {
            alloc,
            halves: Vec::new(alloc),
            tally: Tally {
                spent: 0,
                taken: 0,
                stored: 0,
                noted: 0,
            },
            rising: Marks::new(alloc),
            news: RecvMarks::new(alloc),
        }
    }

    pub(crate) fn len(&self) -> usize
        ensures value { result ≡ length self.now }
        ensures small { result ≤ 2 ^ 60 }
    {
        self.halves.len()
    }

    #[inline(always)]
    pub(crate) fn half(&self, index: usize) -> Option<&Half>
        ensures found { IfSome result (λ half. slice_get self.now index ≡ Some half.now) }
        ensures none { IfNone result (slice_get self.now index ≡ None) }
    {
        self.halves.get(index)
    }

    /// The sums over all lanes, modulo 2^64.
    #[inline(always)]
    pub(crate) fn tally(&self) -> Tally
        ensures value { result ≡ wrapped (tally_on self.now) }
        ensures lawful { EachLawful self.now }
    {
        self.tally
    }

    pub(crate) fn open_to(
        &mut self,
        window: u64,
        share: Share,
        count: usize,
    ) -> Result<(), NoMemory>
        requires some { 1 ≤ window }
        requires small { window ≤ MAX_WINDOW }
        requires few { count ≤ 2 ^ 60 }
        ensures ok { OnOk result (self.new ≡ widened self.old count (λ i. new_lane window share)) }
        ensures err { OnErr result (self.new ≡ self.old) }
    {
        let before = self.len();
        for _index in before..count {
            if let Err(refused) = self.open_next(window, share) {
                self.close_to(before);
                return Err(refused);
            }
        }
        Ok(())
    }

    // Marks come first: room for more of them than there are halves changes nothing. A half begins with none.
    #[tactic(auto, using(crate::proofs::LaneEdits::wider, crate::proofs::Marked::wider_same))]
    fn open_next(&mut self, window: u64, share: Share) -> Result<(), NoMemory>
        requires some { 1 ≤ window }
        requires small { window ≤ MAX_WINDOW }
        requires few { length self.old < 2 ^ 60 }
        ensures ok { OnOk result (self.new ≡ self.old ++ (new_lane window share ∷ [])) }
        ensures err { OnErr result (self.new ≡ self.old) }
    {
        let index = self.halves.len();
        self.rising.make_room(index)?;
        self.news.make_room(index)?;
        let fresh: Half = RecvHalf::new(self.alloc, window, share)?;
        self.halves.push(fresh)?;
        Ok(())
    }

    pub(crate) fn close_to(&mut self, count: usize)
        requires { tally_on (take count self.old) ≡ tally_on self.old }
        ensures { self.new ≡ take count self.old }
    {
        self.halves.truncate(count);
        self.news.clear_from(count);
    }

    /// Changes an open lane: the one way in. The sums and the marks follow. Memory that the change fills is handed through.
    #[inline]
    pub(crate) fn edit<R, F: FnOnce(&mut Half, &mut [u8]) -> R>(
        &mut self,
        index: usize,
        into: &mut [u8],
        f: F,
    ) -> R
        requires there { index < length self.old }
        requires callable { OnceTakesInto F.FnOnce f (slice_index_or self.old index (new_lane 0 Share.Half)) into.old }
        requires calm { LeavesCalm F.FnOnce f (slice_index_or self.old index (new_lane 0 Share.Half)) into.old }
        ensures { IsEdited (OnceInto F.FnOnce f into.old into.new) (slice_index_or self.old index (new_lane 0 Share.Half)) self.old index result self.new }
    {
        let half = &mut self.halves[index];
        let was = measure(half);
        let answer = f(half, into);
        let is = measure(half);
        self.news.look(index, half);
        self.tally = moved(self.tally, was, is);
        mark_rise(&mut self.rising, index, half, was.taken, is.taken);
        answer
    }

    /// A stream whose limit rises is marked: the new one is in no packet yet.
    #[inline]
    pub(crate) fn raise_all(&mut self, stream_type: usize, limits: &mut Boards)
        requires { stream_type < 4 }
        ensures after { self.new ≡ map raise self.old }
        ensures marked { StayMarkedOf stream_type self.old self.new limits.old limits.new }
    {
        if !self.rising.may_have() {
            return;
        }
        raise_marked(&mut self.halves, &mut self.rising, stream_type, limits);
    }

    /// The marks of the lanes that have such an answer for their owner.
    #[inline(always)]
    pub(crate) fn marks(&self, task: RecvTask) -> &Marks
        ensures { (i : ℕ) → is_marked result.now i ≡ has_one task (slice_get self.now i) }
    {
        self.news.marks(task)
    }
}

impl Holds for Half {
    ghost IsHeld = { IsRoom };

    #[tactic(auto, using(crate::proofs::Tasks::half_least))]
    fn held(&self) -> u64 {
        RecvHalf::held(self).bytes
    }
}

impl Holds for RecvLanes {
    ghost IsHeld = { IsSumOf IsRoom };

    fn held(&self) -> u64 {
        sum_held(&self.halves)
    }
}

#[inline(always)]
fn measure(half: &Half) -> Tally
    ensures value { result ≡ tally_of half.now }
    ensures small { result.spent ≤ MAX_VARINT }
    ensures lawful { IsLawful half.now }
    ensures paid { IsPaid result }
{
    let sizes = half.sizes();
    Tally {
        spent: sizes.spent,
        taken: sizes.taken,
        stored: sizes.stored,
        noted: sizes.noted,
    }
}

// Mostly no more is taken of the lane, and its limit stays.
#[inline(always)]
fn mark_rise(rising: &mut Marks, index: usize, half: &Half, was: u64, is: u64)
    ensures { ((was ≡ is) × (rising.new ≡ rising.old)) ⊎ (rising.new ≡ slice_set rising.old index (is_some (raise_answer half.now))) }
{
    if was != is {
        rising.set(index, half.rises());
    }
}

// The sums once a lane's part became another, modulo 2^64.
fn moved(total: Tally, was: Tally, is: Tally) -> Tally
    ensures { result ≡ with_parts total was is }
{
    Tally {
        spent: total.spent.wrapping_sub(was.spent).wrapping_add(is.spent),
        taken: total.taken.wrapping_sub(was.taken).wrapping_add(is.taken),
        stored: total
            .stored
            .wrapping_sub(was.stored)
            .wrapping_add(is.stored),
        noted: total.noted.wrapping_sub(was.noted).wrapping_add(is.noted),
    }
}

// Apart, so that a call after which no limit rises pays for one look.
#[inline(never)]
fn raise_marked(halves: &mut Vec<Half>, rising: &mut Marks, stream_type: usize, limits: &mut Boards)
    requires stream_type { stream_type < 4 }
    requires few { length halves.old.items ≤ 2 ^ 60 }
    requires settled { AreSettled rising.old halves.old.items }
    ensures after { halves.new.items ≡ map raise halves.old.items }
    ensures room { length rising.new ≡ length rising.old }
    ensures settled { AreSettled rising.new halves.new.items }
    ensures marked { StayMarkedOf stream_type halves.old.items halves.new.items limits.old limits.new }
{
    while let Some(index) = rising.next(0) {
        rising.set(index, false);
        if index < halves.len() {
            raise_at(halves, index, stream_type, limits);
        }
    }
}

#[tactic(auto, using(crate::proofs::LaneEdits::changed_at))]
fn raise_at(halves: &mut Vec<Half>, index: usize, stream_type: usize, limits: &mut Boards)
    requires there { index < length halves.old.items }
    requires stream_type { stream_type < 4 }
    requires few { length halves.old.items ≤ 2 ^ 60 }
    ensures after { halves.new.items ≡ changed halves.old.items index raise (slice_get halves.old.items index) }
    ensures len { length halves.new.items ≡ length halves.old.items }
    ensures marked { StayMarkedOf stream_type halves.old.items halves.new.items limits.old limits.new }
{
    let half = &mut halves[index];
    if let Some(_limit) = half.raise() {
        let stream = StreamId::new((index * 4 + stream_type) as u64).unwrap();
        limits.set(Task::LimitDue, stream, true);
    }
}
