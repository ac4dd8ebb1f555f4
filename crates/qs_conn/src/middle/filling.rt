//! A packet is filled with what is due.
ghost use Rattle.std.specs.Prelude.{◌≡◌, ◌+◌, ◌≤◌, ◌<◌, ◌↔◌, ◌^◌, ℕ, IsTrue, Bool, true, false, Some, is_some, length, take, IfSome};
ghost use Rattle.std.specs.FinSet as set;
ghost use Rattle.qs_ranges.specs.Numbers.{run_starts};
ghost use Rattle.qs_send.specs.declared.piece.Piece.{Piece};
ghost use Rattle.qs_machine.specs.Tables.{lookup};
ghost use Rattle.qs_machine.specs.Due.{StreamGoes};
ghost use Rattle.qs_machine.specs.Outgoing.{IsBlockedAt, sent_sum};
ghost use Rattle.qs_conn.specs.Due.{IsMarkedAt, IsNotedBlock, marks_of};
ghost use Rattle.qs_machine.specs.Ends.{End};
ghost use Rattle.qs_machine.specs.Filling.{IsAsked};
ghost use Rattle.qs_conn.specs.declared.filling.Wish.{Wish};
ghost use Rattle.qs_conn.specs.Middle.{IsCore, IsFilling, FillsOn, HasMemory, HoldsAtMost, IsSortAt, IsStill, StayIdle, own_items, own_of, end_of};
ghost use Rattle.qs_conn.specs.Filling.{slot_at, slot_place, slot_past, kind_first, kind_past, no_slot, all_items, sort_place, Stage, Flow, PackedBy, IsAckLeft, InPacket, turn_at, start_of, way_end, IsOnWay};
ghost use Rattle.qs_conn.specs.Marks.{IsBefore, IsIdle};
ghost use Rattle.qs_conn.specs.Tasks.{IsOpen, going_task};

use super::Core;
use crate::due::{Kind, STREAM_PLACES, Slot, Sort, sort_at};
use crate::filling::{
    Course, LEAST_STREAM_FRAME, Packet, Wish, cut_to, full_at, put_ack_if, put_chunk, put_item,
};
use crate::outbox::Outbox;
use crate::own_told::OWN_ITEMS;
use crate::send_marks::Task as SendTask;
use qs_ranges::{RangeSet, lowest_bit};
use qs_streams::{Boards, Task};
use qs_wire::{Dir, StreamId};

impl Core {
    /// From the first byte on, with what is asked for: the ACK, control frames, and data (RFC 9000, sections 4, 13.2 and 13.3).
    pub(crate) fn fill(&mut self, done: &RangeSet, wish: &Wish, out: &mut [u8]) -> Course
        requires filling { IsFilling self.old out.old 0 }
        requires memory { HasMemory self.old (length out.old) 0 6 }
        requires delay { wish.now.delay < 2 ^ 62 }
        requires acks { wish.now.ack_due ≡ true → 0 < set.len (run_starts done.now) }
        requires few { set.len (run_starts done.now) ≤ 32 }
        requires space { wish.now.ack_due ≡ true → 26 ≤ length out.old }
        requires together { wish.now.ack_due ≡ true → wish.now.want.items ≡ true }
        ensures packed { (old : End) (left : Bool) → end_of self.old old ≡ old → old.done ≡ done.now → IsAckLeft wish.now.ack_due old.ack_due left → ((x : Piece) → InPacket old x → ⊥)
            → PackedBy wish.now.want.first wish.now (length out.old) old (take result.len out.new) (end_of self.new (record old { ack_due = left })) result.quota result.is_full }
        ensures filled { FillsOn self.old out.old 0 self.new out.new result.len 6 }
    {
        let len = put_ack_if(done, wish, out);
        let start = Packet {
            len,
            is_full: false,
        };
        let packet = self.put_items(wish, out, start);
        self.put_streams(wish, out, packet)
    }

    /// Each takes two bytes or more; and if nothing of a stream is due, there are the connection's own items alone, so that little memory
    /// is asked for.
    pub(crate) fn most_pieces(&self, room: usize) -> usize
        requires { IsCore self.now }
        ensures { HoldsAtMost self.now room result }
    {
        if self.is_still() { OWN_ITEMS } else { room / 2 }
    }

    // It looks at how many marks there are, and at no half.
    #[inline(always)]
    fn is_still(&self) -> bool
        requires { IsCore self.now }
        ensures { result ≡ true → IsStill self.now }
    {
        if self.outbox.may_have(SendTask::Bytes) {
            return false;
        }
        self.due.some() & STREAM_PLACES == 0
    }

    #[tactic(auto, using(crate::proofs::Cores::fills_same))]
    #[inline(always)]
    fn put_items(&mut self, wish: &Wish, out: &mut [u8], packet: Packet) -> Packet
        requires filling { IsFilling self.old out.old packet.len }
        requires memory { HasMemory self.old (length out.old) packet.len 6 }
        ensures stage { (room : ℕ) (old e : End) → wish.now.want.items ≡ true → room ≡ length out.old
            → Stage wish.now room old (take packet.len out.old) (end_of self.old e) packet.is_full no_slot
            → Stage wish.now room old (take result.len out.new) (end_of self.new e) result.is_full all_items }
        ensures passed { wish.now.want.items ≡ false → (self.new ≡ self.old) × (out.new ≡ out.old) × (result ≡ packet) }
        ensures filled { FillsOn self.old out.old packet.len self.new out.new result.len 6 }
    {
        if !wish.want.items {
            return packet;
        }
        let places = self.places();
        let mut packet = packet;
        let mut from = 0;
        while let Some(place) = lowest_bit(places, from) {
            packet = self.put_sort(sort_at(place), out, packet);
            if packet.is_full {
                return packet;
            }
            from = place + 1;
        }
        packet
    }

    #[inline(always)]
    fn put_sort(&mut self, sort: Sort, out: &mut [u8], packet: Packet) -> Packet
        requires at { IsSortAt (sort_place sort) sort }
        requires filling { IsFilling self.old out.old packet.len }
        requires memory { HasMemory self.old (length out.old) packet.len (own_of sort) }
        ensures stage { (wish : Wish) (room : ℕ) (old e : End) → room ≡ length out.old
            → Stage wish room old (take packet.len out.old) (end_of self.old e) packet.is_full (sort_place sort, 0)
            → Stage wish room old (take result.len out.new) (end_of self.new e) result.is_full (sort_place sort + 1, 0) }
        ensures filled { FillsOn self.old out.old packet.len self.new out.new result.len (own_of sort) }
        ensures still { StayIdle self.old self.new }
    {
        match sort {
            Sort::Own(slot) => self.put_slot(slot, out, packet),
            Sort::Streams(kind) => self.put_marked(kind, out, packet),
        }
    }

    // Lower stream numbers first.
    #[tactic(auto, using(crate::proofs::Cores::fills_same))]
    #[inline(never)]
    fn put_marked(&mut self, kind: Kind, out: &mut [u8], packet: Packet) -> Packet
        requires filling { IsFilling self.old out.old packet.len }
        requires memory { HasMemory self.old (length out.old) packet.len 0 }
        ensures stage { (wish : Wish) (room : ℕ) (old e : End) → room ≡ length out.old
            → Stage wish room old (take packet.len out.old) (end_of self.old e) packet.is_full (kind_first kind)
            → Stage wish room old (take result.len out.new) (end_of self.new e) result.is_full (kind_past kind) }
        ensures filled { FillsOn self.old out.old packet.len self.new out.new result.len 0 }
        ensures still { StayIdle self.old self.new }
    {
        if packet.is_full {
            return packet;
        }
        let mut packet = packet;
        let mut from = 0;
        while let Some(stream) = self.next_marked(kind, from) {
            packet = self.put_slot(kind.at(stream), out, packet);
            if packet.is_full {
                return packet;
            }
            self.due.set(kind.task(), stream, false);
            from = stream.value() + 1;
        }
        packet
    }

    pub(super) fn next_marked(&self, kind: Kind, from: u64) -> Option<StreamId>
        requires core { IsCore self.now }
        requires from { from ≤ 2 ^ 62 }
        ensures found { IfSome result (λ n. (from ≤ n) × (marks_of kind self.now.due n ≡ true)) }
        ensures idle { (n : ℕ) (e : End) → from ≤ n → IsBefore n result → IsIdle (end_of self.now e) (slot_at kind n) }
    {
        self.due.next(kind.task(), from)
    }

    #[tactic(auto, using(crate::proofs::Cores::fills_same))]
    #[inline(always)]
    fn put_slot(&mut self, slot: Slot, out: &mut [u8], packet: Packet) -> Packet
        requires marked { IsMarkedAt self.old.due slot }
        requires filling { IsFilling self.old out.old packet.len }
        requires memory { HasMemory self.old (length out.old) packet.len (own_items slot) }
        ensures stage { (wish : Wish) (room : ℕ) (old e : End) → room ≡ length out.old
            → Stage wish room old (take packet.len out.old) (end_of self.old e) packet.is_full (slot_place slot)
            → Stage wish room old (take result.len out.new) (end_of self.new e) result.is_full (slot_past slot) }
        ensures filled { FillsOn self.old out.old packet.len self.new out.new result.len (own_items slot) }
        ensures idle { result.is_full ≡ false → (e : End) → IsIdle (end_of self.new e) slot }
        ensures still { StayIdle self.old self.new }
    {
        let Some(item) = self.due_in(slot) else {
            return packet;
        };
        if packet.is_full {
            return packet;
        }
        let packet = put_item(&mut self.outbox, &item, out, packet);
        self.note_put(&item, packet.is_full);
        packet
    }

    // From the stream that the caller names on and then around, so that it can go by turns.
    #[tactic(auto, using(crate::proofs::Cores::fills_same))]
    #[inline(always)]
    fn put_streams(&mut self, wish: &Wish, out: &mut [u8], packet: Packet) -> Course
        requires filling { IsFilling self.old out.old packet.len }
        requires memory { HasMemory self.old (length out.old) packet.len 0 }
        ensures packed { (room : ℕ) (old e : End) → room ≡ length out.old
            → Flow wish.now room old (take packet.len out.old) (end_of self.old e) wish.now.want.most_bytes packet.is_full (turn_at false wish.now.want.first wish.now.want.first)
            → PackedBy wish.now.want.first wish.now room old (take result.len out.new) (end_of self.new e) result.quota result.is_full }
        ensures filled { FillsOn self.old out.old packet.len self.new out.new result.len 0 }
    {
        let packet = Course {
            len: packet.len,
            quota: wish.want.most_bytes,
            is_full: packet.is_full,
        };
        if !wish.want.streams {
            return packet;
        }
        if wish.want.alone {
            return self.put_open(wish.want.first, out, packet);
        }
        let packet = self.put_way(wish.want.first, false, out, packet);
        // Below the lowest stream there is no other.
        if wish.want.first.value() == 0 {
            return packet;
        }
        self.put_way(wish.want.first, true, out, packet)
    }

    #[tactic(auto, using(crate::proofs::Cores::fills_same))]
    #[inline(always)]
    fn put_way(&mut self, first: StreamId, around: bool, out: &mut [u8], packet: Course) -> Course
        requires filling { IsFilling self.old out.old packet.len }
        requires memory { HasMemory self.old (length out.old) packet.len 0 }
        ensures flow { (wish : Wish) (room : ℕ) (old e : End) → ((n : ℕ) → IsAsked wish.want n) → room ≡ length out.old
            → Flow wish room old (take packet.len out.old) (end_of self.old e) packet.quota packet.is_full (turn_at around first (start_of around first))
            → Flow wish room old (take result.len out.new) (end_of self.new e) result.quota result.is_full (way_end around first) }
        ensures filled { FillsOn self.old out.old packet.len self.new out.new result.len 0 }
    {
        if packet.is_full {
            return packet;
        }
        let mut packet = packet;
        let mut from = way_start(around, first);
        while let Some(stream) = self.next_going(from) {
            if !is_on_way(around, first, stream) {
                return packet;
            }
            packet = self.put_chunks(stream, out, packet);
            if packet.is_full {
                return packet;
            }
            from = stream.value() + 1;
        }
        packet
    }

    #[inline(always)]
    pub(super) fn next_going(&self, from: u64) -> Option<StreamId>
        requires core { IsCore self.now }
        requires from { from ≤ 2 ^ 62 }
        ensures from { IfSome result (λ n. from ≤ n) }
        ensures open { IfSome result (IsOpen self.now.outbox.sends) }
        ensures goes { (e : End) → IfSome result (StreamGoes (end_of self.now e)) }
        ensures none { (n : ℕ) (e : End) → from ≤ n → IsBefore n result → StreamGoes (end_of self.now e) n → ⊥ }
    {
        self.outbox.next_marked(self.going_task(), from)
    }

    /// While the connection's credit is used up, only bytes that were sent before may go (RFC 9000, section 4.1): streams with new ones are
    /// passed over by their marks.
    #[inline(always)]
    pub(super) fn going_task(&self) -> SendTask
        ensures { result ≡ going_task (sent_sum self.now.outbox.sends) self.now.limits.known_data }
    {
        if self.outbox.sent_sum() < self.limits.known_data {
            return SendTask::Bytes;
        }
        SendTask::Again
    }

    #[tactic(auto, using(crate::proofs::Cores::fills_same, crate::proofs::Flows::flow_none))]
    #[inline(always)]
    fn put_open(&mut self, stream: StreamId, out: &mut [u8], packet: Course) -> Course
        requires filling { IsFilling self.old out.old packet.len }
        requires memory { HasMemory self.old (length out.old) packet.len 0 }
        ensures flow { (around : Bool) (first : ℕ) (wish : Wish) (room : ℕ) (old e : End) → IsAsked wish.want stream → room ≡ length out.old → IsOnWay around first stream
            → Flow wish room old (take packet.len out.old) (end_of self.old e) packet.quota packet.is_full (turn_at around first stream)
            → Flow wish room old (take result.len out.new) (end_of self.new e) result.quota result.is_full (turn_at around first (stream + 1)) }
        ensures filled { FillsOn self.old out.old packet.len self.new out.new result.len 0 }
    {
        if self.outbox.is_open(stream) {
            return self.put_chunks(stream, out, packet);
        }
        packet
    }

    // One for each run of due offsets: a chunk is a run, and what lies between was acknowledged or is in flight.
    #[tactic(auto, using(crate::proofs::Cores::fills_same))]
    fn put_chunks(&mut self, stream: StreamId, out: &mut [u8], packet: Course) -> Course
        requires filling { IsFilling self.old out.old packet.len }
        requires memory { HasMemory self.old (length out.old) packet.len 0 }
        requires open { is_some (lookup self.old.outbox.sends stream) ≡ true }
        ensures flow { (around : Bool) (first : ℕ) (wish : Wish) (room : ℕ) (old e : End) → IsAsked wish.want stream → room ≡ length out.old → IsOnWay around first stream
            → Flow wish room old (take packet.len out.old) (end_of self.old e) packet.quota packet.is_full (turn_at around first stream)
            → Flow wish room old (take result.len out.new) (end_of self.new e) result.quota result.is_full (turn_at around first (stream + 1)) }
        ensures filled { FillsOn self.old out.old packet.len self.new out.new result.len 0 }
    {
        if packet.is_full {
            return packet;
        }
        let mut len = packet.len;
        let mut quota = packet.quota;
        let mut fresh = self.limits.known_data - self.outbox.sent_sum();
        while let Some(chunk) = self.outbox.next_chunk(stream, out.len() - len, fresh) {
            if chunk.len > quota {
                if quota == 0 {
                    return full_at(len, 0);
                }
                let part = cut_to(chunk, quota);
                let cut = put_chunk(&mut self.outbox, stream, part, out, len);
                look_unless_free(&mut self.due, &self.outbox, stream, cut.is_free);
                return full_at(cut.len, 0);
            }
            let put = put_chunk(&mut self.outbox, stream, chunk, out, len);
            len = put.len;
            quota -= chunk.len;
            look_unless_free(&mut self.due, &self.outbox, stream, put.is_free);
            if out.len() - len < LEAST_STREAM_FRAME {
                return full_at(len, quota);
            }
            if put.is_done {
                return Course {
                    len,
                    quota,
                    is_full: false,
                };
            }
            fresh = self.limits.known_data - self.outbox.sent_sum();
        }
        let is_full = self.outbox.is_held_by_room(stream, out.len() - len, fresh);
        Course {
            len,
            quota,
            is_full,
        }
    }
}

// Unless the chunk itself showed that no limit holds the stream back, or that it did before.
#[inline(always)]
fn look_unless_free(due: &mut Boards, outbox: &Outbox, stream: StreamId, is_free: bool)
    ensures free { is_free ≡ true → due.new ≡ due.old }
    ensures noted { is_free ≡ false → IsNotedBlock (IsBlockedAt (lookup outbox.now.sends stream)) stream due.old due.new }
{
    if is_free {
        return;
    }
    if outbox.blocked_at(stream).is_some() {
        due.set(Task::BlockDue, stream, true);
    }
}

#[inline(always)]
fn way_start(around: bool, first: StreamId) -> u64
    ensures value { result ≡ start_of around first }
    ensures small { result ≤ 2 ^ 62 }
{
    if around { 0 } else { first.value() }
}

#[inline(always)]
fn is_on_way(around: bool, first: StreamId, stream: StreamId) -> bool
    ensures { IsTrue result ↔ IsOnWay around first stream }
{
    if around {
        return stream.value() < first.value();
    }
    stream.value() >= first.value()
}
