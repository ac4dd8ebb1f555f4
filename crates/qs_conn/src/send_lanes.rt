ghost use Rattle.std.specs.Prelude.{◌≡◌, ◌+◌, ◌++◌, ◌∷◌, ◌-◌, ◌*◌, ◌≤◌, ◌<◌, ◌^◌, [], true, length, take, slice_get, slice_index_or, slice_set, unwrap_or, ℕ, false, None, Some, OnOk, OnErr, IfOk, IfErr, IfSome};
ghost use Rattle.std.specs.List.{sum_by};
ghost use Rattle.qs_ranges.specs.Numbers.{MAX_VARINT};
ghost use Rattle.qs_send.specs.Lane.{Sending, new_sending};
ghost use Rattle.qs_send.specs.Sound.{IsLawful};
ghost use Rattle.qs_machine.specs.Tables.{widened};
ghost use Rattle.qs_machine.specs.Sums.{changed, no_sending};
ghost use Rattle.qs_machine.specs.Asking.{kept_on};
ghost use Rattle.qs_conn.specs.Rooms.{IsBuffer, IsSumOf};
ghost use Rattle.std.specs.Fn.{FnOnceTakesAtMut, FnOnceReturnsAtMut};
ghost use Rattle.qs_send.specs.Halves.{IsOver, half_at};
ghost use Rattle.qs_conn.specs.Edits.{IsEdited, LeavesStill, MaySet, OrStays, after_set};
ghost use Rattle.qs_conn.specs.Promised.{promised_on};
ghost use Rattle.qs_conn.specs.Marks.{is_marked, one_has};
ghost use Rattle.qs_conn.specs.Tasks.{AreMarksOf, Stays, counted, has, marks_of};

use crate::held::Holds;
use crate::marks::Marks;
use crate::send_marks::{Moves, SendMarks, Task};
use qs_ranges::NoMemory;
use qs_send::{SendHalf, SendHalves, SendView};
use qs_wire::StreamId;
use std::alloc::Global;
use std::marker::Model;

/// What is set of a half, whether it is over or not.
#[derive(Clone, Copy, Drop)]
pub(crate) enum Setting {
    Limit(u64),
    Buffer(u32),
    /// A packet tells that the stream's limit holds bytes back.
    Blocked,
}

// What a half counts for in the two sums.
#[derive(Clone, Copy, Drop)]
struct Sizes {
    promised: u128,
    kept: u128,
}

#[derive(Drop)]
pub(crate) struct SendLanes {
    alloc: Global,
    halves: SendHalves,
    // Sums are kept, since a walk over all halves at each call would cost with their count; of 2^60 halves none is a u64.
    promised: u128,
    kept: u128,
    // The marks tell which halves have a task.
    marks: SendMarks,
}

impl Model for SendLanes {
    ghost use Rattle.std.specs.Prelude.{◌≤◌, ◌^◌, List, length};
    ghost use Rattle.std.specs.Coded.{coded_list};
    ghost use Rattle.qs_send.specs.Lane.{Sending};
    ghost use Rattle.qs_send.specs.Codes.{sending_code};
    ghost use Rattle.qs_conn.specs.Tasks.{AreAllMarked};
    ghost use Rattle.qs_conn.specs.Promised.{AreSums};

    ghost Value = { List Sending };

    ghost coded = { coded_list sending_code };

    ghost view = { λ l. l.halves };

    ghost invariant = { λ l. (length l.halves ≤ 2 ^ 60) × AreAllMarked l.halves l.marks × AreSums l.halves l.promised l.kept };
}

impl SendLanes {
    pub(crate) fn new(alloc: Global, stream_type: u64) -> Self
        requires { stream_type < 4 }
        ensures { result ≡ [] }
    {
        SendLanes {
            alloc,
            halves: SendHalves::new(alloc, stream_type),
            promised: 0,
            kept: 0,
            marks: SendMarks::new(alloc),
        }
    }

    #[inline(always)]
    pub(crate) fn len(&self) -> usize
        ensures value { result ≡ length self.now }
        ensures small { result ≤ 2 ^ 60 }
    {
        self.halves.len()
    }

    #[tactic(auto, using(crate::proofs::Tasks::promised_of, crate::proofs::Tasks::sum_few))]
    pub(crate) fn promised(&self) -> u128
        ensures value { result ≡ sum_by (λ s. promised_on s.lane) self.now }
        ensures small { result ≤ 2 ^ 122 }
    {
        self.promised
    }

    #[tactic(auto, using(crate::proofs::Tasks::kept_of, crate::proofs::Tasks::sum_few))]
    pub(crate) fn kept(&self) -> u128
        ensures value { result ≡ sum_by (λ s. kept_on s.lane) self.now }
        ensures small { result ≤ 2 ^ 122 }
    {
        self.kept
    }

    /// What holds of an open half. It does nothing: a caller learns the clause.
    #[inline(always)]
    pub(crate) fn learn_lawful(&self, index: usize)
        requires { index < length self.now }
        ensures { IsLawful (slice_index_or self.now index no_sending) }
    {
        let _half = self.halves.at(index);
    }

    #[inline(always)]
    pub(crate) fn get(&self, index: usize) -> SendView<'_>
        requires { index < length self.now }
        ensures { result ≡ slice_index_or self.now index no_sending }
    {
        self.halves.at(index)
    }

    pub(crate) fn open_to(
        &mut self,
        stream_type: u64,
        limit: u64,
        buffer: u32,
        count: usize,
    ) -> Result<(), NoMemory>
        requires stream_type { stream_type < 4 }
        requires limit { limit ≤ MAX_VARINT }
        requires count { count ≤ 2 ^ 60 }
        ensures ok { OnOk result (self.new ≡ widened self.old count (λ i. new_sending (i * 4 + stream_type) limit buffer)) }
        ensures err { OnErr result (self.new ≡ self.old) }
    {
        let before = self.len();
        for _index in before..count {
            if let Err(refused) = self.open_next(stream_type, limit, buffer) {
                self.close_to(before);
                return Err(refused);
            }
        }
        Ok(())
    }

    // Marks come first: room for more of them than there are halves changes nothing.
    #[inline(always)]
    #[tactic(auto, using(crate::proofs::Tasks::all_wider, crate::proofs::Tasks::none_next))]
    fn open_next(&mut self, stream_type: u64, limit: u64, buffer: u32) -> Result<(), NoMemory>
        requires stream_type { stream_type < 4 }
        requires limit { limit ≤ MAX_VARINT }
        requires few { length self.old < 2 ^ 60 }
        ensures ok { OnOk result (self.new ≡ self.old ++ (new_sending (length self.old * 4 + stream_type) limit buffer ∷ [])) }
        ensures err { OnErr result (self.new ≡ self.old) }
    {
        let index = self.halves.len();
        self.marks.make_room(index)?;
        let id = StreamId::new(index as u64 * 4 + stream_type).unwrap();
        self.halves
            .push(SendHalf::new(self.alloc, id, limit, buffer))?;
        self.marks.begin(index, limit, buffer);
        Ok(())
    }

    pub(crate) fn close_to(&mut self, count: usize)
        requires unwritten { sum_by (λ s. promised_on s.lane) (take count self.old) ≡ sum_by (λ s. promised_on s.lane) self.old }
        requires unkept { sum_by (λ s. kept_on s.lane) (take count self.old) ≡ sum_by (λ s. kept_on s.lane) self.old }
        ensures { self.new ≡ take count self.old }
    {
        self.halves.truncate(count);
        self.marks.clear_from(count);
    }

    /// Changes a half: the one way in. The sums and the marks follow. One that is over stays as it is, and what is given is the answer.
    #[inline(always)]
    pub(crate) fn edit<R: Drop, F: FnOnce(&mut SendHalf) -> R>(
        &mut self,
        index: usize,
        over: R,
        moves: Moves,
        change: F,
    ) -> R
        requires there { index < length self.old }
        requires callable { FnOnceTakesAtMut F.FnOnce change (half_at self.old index) }
        requires stays { LeavesStill F.FnOnce change moves (half_at self.old index) }
        ensures { IsEdited (OrStays (FnOnceReturnsAtMut F.FnOnce change) over) (half_at self.old index) self.old index result self.new }
    {
        let Some(half) = self.halves.full_mut(index) else {
            return over;
        };
        half.learn_lawful();
        let was = measure(half, moves);
        let answer = change(half);
        let is = measure(half, moves);
        self.promised = self.promised - was.promised + is.promised;
        self.kept = self.kept - was.kept + is.kept;
        self.marks.look(index, half, moves);
        answer
    }

    /// Sets a value of a half, also of one that is over.
    #[tactic(auto, using(crate::proofs::LaneEdits::changed_is, crate::proofs::LaneEdits::put_over, crate::proofs::LaneEdits::set_over))]
    pub(crate) fn set(&mut self, index: usize, setting: Setting)
        requires there { index < length self.old }
        requires small { MaySet setting }
        ensures { self.new ≡ changed self.old index (after_set setting) (slice_get self.old index) }
    {
        set_in(&mut self.halves, index, setting);
        look_at(&self.halves, &mut self.marks, index);
    }

    /// One that is over takes few bytes from here on. No clause sees it.
    pub(crate) fn settle(&mut self, index: usize)
        requires { index < length self.old }
        ensures { self.new ≡ self.old }
    {
        self.halves.settle(index);
    }

    /// The marks of the halves that have a task.
    #[inline(always)]
    pub(crate) fn marks(&self, task: Task) -> &Marks
        ensures { (i : ℕ) → is_marked result.now i ≡ one_has (has task) (slice_get self.now i) }
    {
        self.marks.of(task)
    }
}

impl Holds for SendLanes {
    ghost IsHeld = { IsSumOf (λ s. IsBuffer s.lane) };

    #[tactic(auto, using(crate::proofs::Tasks::sum_none, crate::proofs::Tasks::sum_more))]
    fn held(&self) -> u64 {
        let mut held: u64 = 0;
        for index in 0..self.halves.len() {
            let half = self.halves.at(index);
            held = held.saturating_add(half.held().bytes);
        }
        held
    }
}

// What a half counts for in the sums. Where a change moves neither, nothing is looked at.
#[inline(always)]
fn measure(half: &SendHalf, moves: Moves) -> Sizes
    ensures promised { result.promised ≡ counted moves (promised_on half.now.lane) }
    ensures kept { result.kept ≡ counted moves (kept_on half.now.lane) }
    ensures few_promised { result.promised ≤ MAX_VARINT }
    ensures few_kept { result.kept ≤ MAX_VARINT }
{
    if matches!(moves, Moves::Sent | Moves::End) {
        return Sizes {
            promised: 0,
            kept: 0,
        };
    }
    Sizes {
        promised: promised(half),
        kept: kept(half),
    }
}

fn promised(half: &SendHalf) -> u128
    ensures value { result ≡ promised_on half.now.lane }
    ensures small { result ≤ MAX_VARINT }
{
    half.learn_lawful();
    if let Some(_code) = half.reset_code() {
        return half.sent_end() as u128;
    }
    half.written() as u128
}

fn kept(half: &SendHalf) -> u128
    ensures value { result ≡ kept_on half.now.lane }
    ensures small { result ≤ MAX_VARINT }
{
    half.learn_lawful();
    half.kept_len() as u128
}

// Looks again at a half that was put, where it isn't over.
fn look_at(halves: &SendHalves, marks: &mut SendMarks, index: usize)
    requires there { index < length halves.now }
    requires over { IsOver (half_at halves.now index) → AreMarksOf marks.old index (half_at halves.now index) }
    ensures { (t : Task) → marks_of marks.new t ≡ slice_set (marks_of marks.old t) index (has t (half_at halves.now index)) }
{
    if let Some(half) = halves.full(index) {
        marks.look(index, half, Moves::All);
    }
}

fn set_in(halves: &mut SendHalves, index: usize, setting: Setting)
    requires there { index < length halves.old }
    requires small { MaySet setting }
    ensures { halves.new ≡ slice_set halves.old index (after_set setting (half_at halves.old index)) }
{
    match setting {
        Setting::Limit(limit) => halves.allow(index, limit),
        Setting::Buffer(size) => halves.set_buffer(index, size),
        Setting::Blocked => halves.note_blocked(index),
    }
}
