ghost use Rattle.std.specs.Prelude.{◌≡◌, ◌+◌, ◌≤◌, ◌<◌, ◌^◌, ◌/◌, ◌%◌, ◌++◌, ℕ, length, drop, take, is_some, option_map, true, false, Some, None, OnOk, OnErr, IsOk, IfSome, IfNone, ◌-◌};
ghost use Rattle.qs_ranges.specs.Numbers.{MAX_VARINT};
ghost use Rattle.qs_recv.specs.Lane.{RecvLane, new_lane, check_stream, check_reset, check_bytes, highest, taken, take_stream, take_reset, read_answer, bytes_read, after_read, raise, stop, stop_and_discard, MAX_WINDOW, set_window};
ghost use Rattle.qs_machine.specs.Tables.{no_streams, table, with_table, lookup, updated, open_to, each, total, type_of};
ghost use Rattle.qs_machine.specs.Memory.{HasNews};
ghost use Rattle.qs_machine.specs.Reports.{recv_report};
ghost use Rattle.qs_machine.specs.Verdicts.{or_new};
ghost use Rattle.qs_machine.specs.Sums.{tally_on};
ghost use Rattle.qs_conn.specs.Ended.{recv_over};
ghost use Rattle.qs_conn.specs.Rooms.{IsRoom, IsSumOf, lists};
ghost use Rattle.qs_conn.specs.Layers.{limit_to_tell, stop_to_tell};
ghost use Rattle.qs_machine.specs.News.{IsLeast, IsHeld};
ghost use Rattle.qs_conn.specs.Marks.{is_marked, IsUntold, IsUntoldOf};
ghost use Rattle.qs_conn.specs.Due.{StayMarked};
ghost use Rattle.qs_conn.specs.RecvEdits.{OnceInto, OnceTakesInto, LeavesCalm, IsTallyOf, added};
ghost use Rattle.qs_conn.specs.Edits.{IsEditedIn};
ghost use Rattle.qs_conn.specs.RecvTasks.{HasOne, HasNone, has_one};

use crate::held::sum_held;
use crate::marks::Marks;
use crate::recv_lanes::{Half, RecvLanes};
use crate::recv_marks::RecvTask;
use crate::told_streams::ToldStreams;
use qs_calls::RecvReport;
use qs_machine::Tally;
use qs_ranges::NoMemory;
use qs_recv::{Read, RecvState, Share};
use qs_streams::{Boards, Place, index_of, least_stream, type_of};
use qs_wire::StreamId;
use std::alloc::Global;
use std::marker::Model;

/// Apart from the sending halves: a frame with data changes these alone, and a packet in the making reads them.
#[derive(Drop)]
pub(crate) struct RecvTables {
    // In the order of the two lowest bits of a stream's number.
    types: [RecvLanes; 4],
}

impl Model for RecvTables {
    ghost use Rattle.std.specs.Prelude.{◌≡◌, length};
    ghost use Rattle.qs_recv.specs.Lane.{RecvLane};
    ghost use Rattle.qs_machine.specs.Tables.{Tables};
    ghost use Rattle.qs_recv.specs.Codes.{lane_code};
    ghost use Rattle.qs_machine.specs.EndCodes.{tables_code};
    ghost use Rattle.qs_machine.specs.Sums.{tables_of};

    ghost Value = { Tables RecvLane };

    ghost coded = { tables_code lane_code };

    ghost view = { λ t. tables_of t.types };

    ghost invariant = { λ t. length t.types ≡ 4 };
}

impl RecvTables {
    pub(crate) fn new(alloc: Global) -> Self
        ensures { result ≡ no_streams }
    {
        RecvTables {
            types: [
                RecvLanes::new(alloc),
                RecvLanes::new(alloc),
                RecvLanes::new(alloc),
                RecvLanes::new(alloc),
            ],
        }
    }

    pub(crate) fn is_open(&self, stream: StreamId) -> bool
        ensures { result ≡ is_some (lookup self.now stream) }
    {
        self.half(Place::of(stream)).is_some()
    }

    #[tactic(auto, using(qs_machine::proofs::TableEdits::lookup_is))]
    pub(crate) fn half(&self, stream: Place) -> Option<&Half>
        ensures found { IfSome result (λ half. lookup self.now stream ≡ Some half.now) }
        ensures none { IfNone result (lookup self.now stream ≡ None) }
    {
        let lanes = &self.types[stream.stream_type];
        lanes.half(stream.index)
    }

    #[tactic(auto, using(qs_machine::proofs::TableEdits::table_at))]
    pub(crate) fn count_of(&self, stream_type: usize) -> usize
        requires { stream_type < 4 }
        ensures value { result ≡ length (table self.now stream_type) }
        ensures small { result ≤ 2 ^ 60 }
    {
        let lanes = &self.types[stream_type];
        lanes.len()
    }

    #[tactic(auto, using(qs_machine::proofs::TableEdits::table_is))]
    pub(crate) fn close_to(&mut self, stream: StreamId, count: usize)
        requires { let lanes = table self.old (type_of stream) in tally_on (take count lanes) ≡ tally_on lanes }
        ensures { self.new ≡ with_table self.old (type_of stream) (take count (table self.old (type_of stream))) }
    {
        let lanes = &mut self.types[type_of(stream)];
        lanes.close_to(count);
    }

    pub(crate) fn open_to(
        &mut self,
        window: u64,
        share: Share,
        stream: StreamId,
    ) -> Result<(), NoMemory>
        requires some { 1 ≤ window }
        requires small { window ≤ MAX_WINDOW }
        ensures ok { OnOk result (self.new ≡ open_to self.old stream (λ m. new_lane window share)) }
        ensures err { OnErr result (self.new ≡ self.old) }
    {
        let lanes = &mut self.types[type_of(stream)];
        lanes.open_to(window, share, index_of(stream) + 1)
    }

    /// Changes the receiving half of an open stream: the one way in. Memory that the change fills is handed through.
    #[inline]
    #[tactic(auto, using(qs_machine::proofs::TableEdits::open_there, qs_machine::proofs::TableEdits::lane_is))]
    fn edit<R, F: FnOnce(&mut Half, &mut [u8]) -> R>(
        &mut self,
        stream: Place,
        into: &mut [u8],
        f: F,
    ) -> R
        requires open { is_some (lookup self.old stream) ≡ true }
        requires callable { OnceTakesInto F.FnOnce f (or_new (lookup self.old stream) 0 Share.Half) into.old }
        requires calm { LeavesCalm F.FnOnce f (or_new (lookup self.old stream) 0 Share.Half) into.old }
        ensures { IsEditedIn (OnceInto F.FnOnce f into.old into.new) (or_new (lookup self.old stream) 0 Share.Half) self.old stream result self.new }
    {
        let lanes = &mut self.types[stream.stream_type];
        lanes.edit(stream.index, into, f)
    }

    pub(crate) fn take_stream(
        &mut self,
        stream: Place,
        offset: u64,
        bytes: &[u8],
        fin: bool,
    ) -> Result<(), NoMemory>
        requires open { is_some (lookup self.old stream) ≡ true }
        requires in_range { offset + length bytes.now ≤ MAX_VARINT }
        requires passed { IsOk (check_stream (or_new (lookup self.old stream) 0 Share.Half) offset (length bytes.now) fin) }
        requires unchanged { IsOk (check_bytes (or_new (lookup self.old stream) 0 Share.Half) offset bytes.now) }
        ensures ok { OnOk result (self.new ≡ updated self.old stream (λ l. take_stream l offset bytes.now fin) (lookup self.old stream)) }
        ensures err { OnErr result (self.new ≡ self.old) }
        ensures news { OnErr result (HasNews (or_new (lookup self.old stream) 0 Share.Half) offset (length bytes.now)) }
    {
        match self.edit(stream, &mut [], |half, _into| {
            half.take_stream(offset, bytes, fin)
        }) {
            Ok(()) => Ok(()),
            Err(_refused) => Err(NoMemory),
        }
    }

    pub(crate) fn take_reset(&mut self, stream: StreamId, code: u64, size: u64)
        requires open { is_some (lookup self.old stream) ≡ true }
        requires in_range { size ≤ MAX_VARINT }
        requires passed { IsOk (check_reset (or_new (lookup self.old stream) 0 Share.Half) size) }
        ensures { self.new ≡ updated self.old stream (λ l. take_reset l code size) (lookup self.old stream) }
    {
        self.edit(Place::of(stream), &mut [], |half, _into| {
            half.take_reset(code, size)
        })
    }

    pub(crate) fn may_tell(&self, stream: StreamId) -> bool
        requires { is_some (lookup self.now stream) ≡ true }
        ensures { result ≡ false → (t : RecvTask) → HasNone t (or_new (lookup self.now stream) 0 Share.Half) }
    {
        let stream_type = type_of(stream);
        let index = index_of(stream);
        let readable = self.marks(RecvTask::Readable, stream_type);
        let ended = self.marks(RecvTask::Ended, stream_type);
        readable.has(index) || ended.has(index)
    }

    pub(crate) fn read(&mut self, stream: StreamId, into: &mut [u8]) -> Read
        requires open { is_some (lookup self.old stream) ≡ true }
        ensures answer { result ≡ read_answer (or_new (lookup self.old stream) 0 Share.Half) (length into.old) }
        ensures bytes { let bytes = bytes_read (or_new (lookup self.old stream) 0 Share.Half) (length into.old) in into.new ≡ bytes ++ drop (length bytes) into.old }
        ensures after { self.new ≡ updated self.old stream (λ l. after_read l (length into.old)) (lookup self.old stream) }
    {
        self.edit(Place::of(stream), into, |half, into| half.read(into))
    }

    pub(crate) fn skip(&mut self, stream: StreamId, most: usize) -> Read
        requires open { is_some (lookup self.old stream) ≡ true }
        ensures answer { result ≡ read_answer (or_new (lookup self.old stream) 0 Share.Half) most }
        ensures after { self.new ≡ updated self.old stream (λ l. after_read l most) (lookup self.old stream) }
    {
        self.edit(Place::of(stream), &mut [], |half, _into| half.skip(most))
    }

    pub(crate) fn stop(&mut self, stream: StreamId, code: u64)
        requires open { is_some (lookup self.old stream) ≡ true }
        requires fits { code ≤ MAX_VARINT }
        ensures { self.new ≡ updated self.old stream (λ l. stop l code) (lookup self.old stream) }
    {
        self.edit(Place::of(stream), &mut [], |half, _into| half.stop(code))
    }

    pub(crate) fn stop_and_discard(&mut self, stream: StreamId, code: u64)
        requires open { is_some (lookup self.old stream) ≡ true }
        requires fits { code ≤ MAX_VARINT }
        ensures { self.new ≡ updated self.old stream (λ l. stop_and_discard l code) (lookup self.old stream) }
    {
        self.edit(Place::of(stream), &mut [], |half, _into| {
            half.stop_and_discard(code)
        })
    }

    #[tactic(auto, using(crate::proofs::LaneEdits::calm_window))]
    pub(crate) fn set_window(&mut self, stream: StreamId, window: u64)
        requires open { is_some (lookup self.old stream) ≡ true }
        requires some { 1 ≤ window }
        requires small { window ≤ MAX_WINDOW }
        ensures { self.new ≡ updated self.old stream (λ l. set_window l window) (lookup self.old stream) }
    {
        self.edit(Place::of(stream), &mut [], |half, _into| {
            half.set_window(window)
        })
    }

    pub(crate) fn has_ended(&self, stream: StreamId) -> bool
        ensures { result ≡ recv_over (lookup self.now stream) }
    {
        match self.half(Place::of(stream)) {
            Some(half) => half.has_ended(),
            None => false,
        }
    }

    /// No type has more streams than have a number. It does nothing: a caller learns the clause.
    pub(crate) fn learn_few(&self)
        ensures { (k : ℕ) → k < 4 → length (table self.now k) ≤ 2 ^ 60 }
    {
        let _client_bidi = self.types[0].len();
        let _server_bidi = self.types[1].len();
        let _client_uni = self.types[2].len();
        let _server_uni = self.types[3].len();
    }

    pub(crate) fn report(&self, stream: StreamId) -> Option<RecvReport>
        ensures { result ≡ option_map recv_report (lookup self.now stream) }
    {
        let half = self.half(Place::of(stream))?;
        Some(RecvReport {
            state: half.state(),
            read_count: half.read_count(),
            highest: half.sizes().spent,
            limit: half.limit(),
            final_size: half.final_size(),
            reset_code: half.reset_code(),
            stop_code: half.stop_code(),
        })
    }

    pub(crate) fn limit_of(&self, stream: StreamId) -> Option<u64>
        ensures { result ≡ option_map (λ l. l.limit) (lookup self.now stream) }
    {
        let half = self.half(Place::of(stream))?;
        Some(half.limit())
    }

    /// Once a final size is known nobody needs a limit.
    pub(crate) fn limit_to_tell(&self, stream: StreamId) -> Option<u64>
        ensures value { result ≡ limit_to_tell (lookup self.now stream) }
        ensures small { IfSome result (λ limit. limit ≤ MAX_VARINT) }
    {
        let half = self.half(Place::of(stream))?;
        match half.final_size() {
            Some(_known) => None,
            None => Some(half.limit()),
        }
    }

    /// Only while bytes may still come (RFC 9000, section 3.5).
    pub(crate) fn stop_to_tell(&self, stream: StreamId) -> Option<u64>
        ensures value { result ≡ stop_to_tell (lookup self.now stream) }
        ensures small { IfSome result (λ code. code ≤ MAX_VARINT) }
    {
        let half = self.half(Place::of(stream))?;
        match half.state() {
            RecvState::Recv | RecvState::SizeKnown => half.stop_code(),
            _ => None,
        }
    }

    pub(crate) fn next_with(&self, task: RecvTask, from: u64) -> Option<StreamId>
        requires { from ≤ 2 ^ 62 }
        ensures { IsLeast (IsHeld (HasOne task) self.now) from result }
    {
        least_stream(
            self.marks(task, 0).next_stream(0, from),
            self.marks(task, 1).next_stream(1, from),
            self.marks(task, 2).next_stream(2, from),
            self.marks(task, 3).next_stream(3, from),
        )
    }

    #[inline(always)]
    #[tactic(auto, using(crate::proofs::Marked::kinds_four))]
    pub(crate) fn next_untold(&self, task: RecvTask, told: &ToldStreams) -> Option<StreamId>
        ensures { IsLeast (IsUntold (IsHeld (HasOne task) self.now) told.now) 0 result }
    {
        least_stream(
            self.next_untold_of(task, 0, told),
            self.next_untold_of(task, 1, told),
            self.next_untold_of(task, 2, told),
            self.next_untold_of(task, 3, told),
        )
    }

    #[inline(always)]
    fn next_untold_of(&self, task: RecvTask, stream_type: usize, told: &ToldStreams) -> Option<u64>
        requires { stream_type < 4 }
        ensures least { IsLeast (IsUntoldOf (IsHeld (HasOne task) self.now) told.now stream_type) 0 result }
        ensures small { IfSome result (λ n. n < 2 ^ 62) }
    {
        let marks = self.marks(task, stream_type);
        marks.next_untold(marks, told.of_type(stream_type), stream_type, 0)
    }

    /// The marks of the streams of a type, by index, whose receiving half has such an answer for its owner.
    #[inline(always)]
    pub(crate) fn marks(&self, task: RecvTask, stream_type: usize) -> &Marks
        requires { stream_type < 4 }
        ensures { (n : ℕ) → type_of n ≡ stream_type → is_marked result.now (n / 4) ≡ has_one task (lookup self.now n) }
    {
        let lanes = &self.types[stream_type];
        lanes.marks(task)
    }

    pub(crate) fn tally(&self) -> Tally
        requires { total highest self.now < 2 ^ 62 }
        ensures { IsTallyOf self.now result }
    {
        sum(
            self.types[0].tally(),
            self.types[1].tally(),
            self.types[2].tally(),
            self.types[3].tally(),
        )
    }

    #[tactic(auto, using(crate::proofs::Tasks::lists_are))]
    pub(crate) fn held(&self) -> u64
        ensures { IsSumOf (IsSumOf IsRoom) (lists self.now) result }
    {
        sum_held(&self.types)
    }

    pub(crate) fn raise_all(&mut self, limits: &mut Boards)
        ensures after { self.new ≡ each raise self.old }
        ensures marked { StayMarked self.old self.new limits.old limits.new }
    {
        self.types[0].raise_all(0, limits);
        self.types[1].raise_all(1, limits);
        self.types[2].raise_all(2, limits);
        self.types[3].raise_all(3, limits);
    }
}

// The sum of four, modulo 2^64.
fn sum(a: Tally, b: Tally, c: Tally, d: Tally) -> Tally
    ensures { result ≡ added a b c d }
{
    Tally {
        spent: wrapping_sum(a.spent, b.spent, c.spent, d.spent),
        taken: wrapping_sum(a.taken, b.taken, c.taken, d.taken),
        stored: wrapping_sum(a.stored, b.stored, c.stored, d.stored),
        noted: wrapping_sum(a.noted, b.noted, c.noted, d.noted),
    }
}

#[inline(always)]
fn wrapping_sum(a: u64, b: u64, c: u64, d: u64) -> u64
    ensures { result ≡ (a + b + c + d) % 2 ^ 64 }
{
    a.wrapping_add(b).wrapping_add(c).wrapping_add(d)
}
