//! An assembly that keeps what arrived in one ring, whatever the order, and what lies far past it in pages.
ghost use Rattle.std.specs.Prelude.{◌≡◌, ◌==◌, if◌then◌else◌, ℕ, ◌+◌, ◌-◌, ◌*◌, ◌<◌, ◌≤◌, ◌^◌, ◌⊎◌, max, length, true, false, IsTrue, ◌↔◌, OnOk, OnErr, IfOk};
ghost use Rattle.std.specs.FinSet as set;
ghost use Rattle.qs_ranges.specs.Numbers.{ContainsRange, EndsBefore, MAX_VARINT, MissesRange, covers, numbers};
ghost use Rattle.qs_recv.specs.Assembled.{put};
ghost use Rattle.qs_recv.specs.Bytes.{take_exactly};
ghost use Rattle.qs_recv.specs.Pages.{AreWhole, IsFilledApart, has_page, is_used, page_byte};
ghost use Rattle.qs_recv.specs.Room.{least_room};
ghost use Rattle.qs_recv.specs.Ring.{AreFilled, AreKept, IsFilled, IsMoved, IsNextGap, IsNextRun, IsReach, IsSizeFor, StayWritten, StayWrittenTo, byte_of, missing_count};
ghost use Rattle.qs_recv.specs.Lane.{MAX_WINDOW};

use crate::assembly::{Assembly, Peeking, Skipping};
use crate::pages::{PAGE, Pages};
use crate::ring::Ring;
use qs_ranges::{NoMemory, RangeSet};
use std::alloc::Global;
use std::marker::Model;

// One small message fits, and a stream that is only opened has no ring at all.
const LEAST_SIZE: u64 = 64;

// Up to here an empty ring stays until the stream's end was read, so that a steady flow takes no memory anew. Above it is given back: one
// that stayed would let a peer hold memory for bytes that were read.
const IDLE_SIZE: u64 = 4096;

// Below one stored byte in so many a ring would be nearly empty, and pages take less.
const THIN: u64 = 64;

/// A ring beside the set of every received offset. As bytes come that lie past it, it grows to reach them: to a power of two, and never
/// past the window, so one byte takes no whole window. If its offsets can't be noted then, it shrinks again, so that a refusal leaves what
/// was held.
///
/// As bytes are read and it is larger than 4,096 bytes and than three times what it has to reach, it shrinks in place, to half more at
/// least. A ring that followed each read and each frame could be made to move for a byte. This one can't: after it grew at least a sixth of
/// its bytes is read before it shrinks, after it shrank at least a third is free, and all its shrinking between two growths moves no more
/// bytes than it has. Once all was read, what comes next begins at its front: so it rarely goes around the end.
///
/// Bytes that begin a page or more past the ring's end, and would leave most of it empty, go to pages. As others come before them the ring
/// grows over all pages that follow without a gap, and these move into it. So a put pays one comparison where there are no pages, and a
/// read nothing.
///
/// A put searches the set once for each gap that it fills, and not at all for bytes past all that arrived; it copies the bytes of each gap,
/// and notes the offsets by one insert. A take is one search and one copy.
#[derive(Drop)]
pub struct RingAssembly {
    alloc: Global,
    ring: Ring,
    apart: Pages,
    received: RangeSet,
    read_count: u64,
    // Pages begin here: a put of bytes below it, which is nearly each, looks no further.
    near: u64,
    // Bytes at or past it are new without a search, as most are.
    end: u64,
    stored: u64,
    window: u64,
    discarding: bool,
}

impl Model for RingAssembly {
    ghost use Rattle.std.specs.Prelude.{ℕ, ◌+◌, ◌*◌, length};
    ghost use Rattle.std.specs.Coded.{coded×, coded_ℕ};
    ghost use Rattle.qs_recv.specs.Assembled.{Assembled};
    ghost use Rattle.qs_recv.specs.Codes.{assembled_code};
    ghost use Rattle.std.specs.BTreeMap.{btree_map_len};
    ghost use Rattle.qs_recv.specs.Ring.{byte_of, stored_in_ring, CameWritten, IsRing, IsSized};

    // The sizes aren't what an assembly holds, but what its memory is counted by.
    ghost Value = { Assembled × (ℕ × ℕ) };

    ghost coded = { coded× assembled_code (coded× coded_ℕ coded_ℕ) };

    ghost view = { λ a. (record { stored = stored_in_ring a.received (byte_of a.ring.0 a.near a.apart.pages) a.window a.read_count a.discarding; received = a.received; read_count = a.read_count; widest = a.window; discarding = a.discarding }, (length a.ring.0 + btree_map_len a.apart.pages * 2048, a.near)) };

    ghost invariant = { λ a. IsRing (byte_of a.ring.0 a.near a.apart.pages) a.received a.window a.read_count a.stored a.discarding × IsSized a.ring.0 a.apart.pages a.received a.read_count a.near a.end a.window a.discarding × CameWritten a.ring a.received a.read_count a.near a.discarding };
}

impl Assembly for RingAssembly {
    ghost holds = { λ a. a.0 };

    ghost size = { λ a. a.1.0 };

    ghost least = { least_room };

    fn new(alloc: Global, window: u64) -> Self {
        RingAssembly {
            alloc,
            ring: Ring::none(alloc),
            apart: Pages::none(alloc),
            received: RangeSet::new(alloc),
            read_count: 0,
            near: 0,
            end: 0,
            stored: 0,
            window,
            discarding: false,
        }
    }

    fn at_rest(alloc: Global, window: u64, read_count: u64, end: u64, discarding: bool) -> Self {
        RingAssembly {
            alloc,
            ring: Ring::none(alloc),
            apart: Pages::none(alloc),
            received: RangeSet::below(alloc, end),
            read_count,
            near: read_count,
            end,
            stored: 0,
            window,
            discarding,
        }
    }

    fn put(&mut self, offset: u64, bytes: &[u8]) -> Result<(), NoMemory>
        requires in_range { offset + length bytes.now ≤ MAX_VARINT }
        requires in_window { self.old.0.discarding ≡ false → offset + length bytes.now ≤ self.old.0.read_count + self.old.0.widest }
        ensures ok { OnOk result (self.new.0 ≡ put self.old.0 offset bytes.now) }
        ensures err { OnErr result (self.new.0 ≡ self.old.0) }

        // Memory is taken only for bytes of which one is new, and while bytes are discarded only if no offset at or beside it was received.
        ensures news { OnErr result (covers self.old.0.received offset (offset + length bytes.now) ≡ false) }
        ensures apart { OnErr result (self.old.0.discarding ≡ true
            → MissesRange self.old.0.received (offset - 1) (offset + length bytes.now + 1)) }

        // Memory changes only for a byte that is new and stored.
        ensures still { (self.new.1.0 ≡ self.old.1.0) ⊎ ((self.old.0.discarding ≡ false)
            × (covers self.old.0.received offset (offset + length bytes.now) ≡ false)) }
    {
        let end = offset + bytes.len() as u64;
        if offset == end {
            return Ok(());
        }
        if self.discarding {
            return self.received.insert(offset, end);
        }
        let start = offset.max(self.read_count);
        let (first, stop) = first_gap(&self.received, self.end, start, end);
        if first >= end {
            return Ok(());
        }
        if !self.apart.is_empty() || (self.ring.len() as u64) < end - self.read_count {
            return self.put_beyond(first, stop, offset, bytes);
        }
        let count = store(
            &mut self.ring,
            &mut self.received,
            first,
            stop,
            offset,
            bytes,
        )?;
        self.stored += count;
        self.near = self.near.max(end);
        self.end = self.end.max(end);
        Ok(())
    }

    #[tactic(auto, using(crate::proofs::RingLaws::empty_front, crate::proofs::RingTurned::came_still))]
    fn take(&mut self, into: &mut [u8]) -> usize {
        if self.discarding {
            return 0;
        }
        let next = self.received.first_missing(self.read_count);
        let count = (next - self.read_count).min(into.len() as u64) as usize;
        self.ring.copy_out(self.read_count, &mut into[..count]);
        self.pass(count as u64);
        count
    }

    #[tactic(auto, using(std::proofs::lemmas::Bool::both_ways, crate::proofs::RingApart::sized_none, crate::proofs::RingLaws::thrown_away, crate::proofs::RingTurned::came_off))]
    fn discard(&mut self) {
        self.ring = Ring::none(self.alloc);
        self.apart = Pages::none(self.alloc);
        self.stored = 0;
        self.discarding = true;
    }

    fn widen(&mut self, window: u64) {
        self.window = self.window.max(window);
    }

    #[tactic(auto, using(crate::proofs::RingApart::emptied_view))]
    fn give_back(&mut self) {
        if self.stored == 0 {
            self.ring = Ring::none(self.alloc);
        }
    }

    fn same(&self, offset: u64, bytes: &[u8]) -> bool {
        if self.discarding {
            return true;
        }
        let start = offset.max(self.read_count);
        if self.end <= start {
            return true;
        }
        is_kept(
            &self.ring,
            &self.apart,
            self.near,
            &self.received,
            start,
            offset,
            bytes,
        )
    }

    #[inline(always)]
    fn stored(&self) -> u64 {
        self.stored
    }

    fn held(&self) -> u64 {
        self.ring.len() as u64 + self.apart.count() * PAGE
    }

    #[inline(always)]
    fn received(&self) -> &RangeSet {
        &self.received
    }
}

impl RingAssembly {
    // The usual put stays small without it. The first missing offsets are those from `first` on and below `stop`.
    #[inline(never)]
    fn put_beyond(
        &mut self,
        first: u64,
        stop: u64,
        offset: u64,
        bytes: &[u8],
    ) -> Result<(), NoMemory>
        requires in_range { offset + length bytes.now ≤ MAX_VARINT }
        requires in_window { offset + length bytes.now ≤ self.old.0.read_count + self.old.0.widest }
        requires on { self.old.0.discarding ≡ false }
        requires gap { IsNextGap self.old.0.received (max offset self.old.0.read_count) (offset + length bytes.now) first stop }
        requires some { first < offset + length bytes.now }
        ensures ok { OnOk result (self.new.0 ≡ put self.old.0 offset bytes.now) }
        ensures err { OnErr result (self.new.0 ≡ self.old.0) }
    {
        let end = offset + bytes.len() as u64;
        let few = (end - self.read_count) / THIN;
        if self.near + PAGE <= first && self.stored < few && end - first < few {
            return self.put_apart(first, stop, offset, bytes);
        }
        self.draw(end)?;
        let from = self.read_count;
        let kept = self.near - from;
        let size = self.size_to_reach(end - from);
        reach(
            self.alloc,
            &mut self.ring,
            front_of(kept, first, from),
            kept,
            end - from,
            size,
        )?;
        match store(
            &mut self.ring,
            &mut self.received,
            first,
            stop,
            offset,
            bytes,
        ) {
            Ok(count) => {
                self.stored += count;
                self.near = self.near.max(end);
                self.end = self.end.max(end);
                Ok(())
            }
            Err(refused) => {
                shed(self.alloc, &mut self.ring, from, kept, self.window);
                Err(refused)
            }
        }
    }

    // A ring that went because it was large begins with as many bytes as one may keep: in a steady flow it soon has more.
    fn size_to_reach(&self, span: u64) -> u64
        requires { span ≤ self.now.0.widest }
        ensures reaches { span ≤ result }
        ensures within { result ≤ self.now.0.widest }
        ensures bound { result ≤ max 4096 (2 * span) }
    {
        let size = size_for(span, self.window);
        if self.ring.len() > 0 || self.read_count == 0 {
            return size;
        }
        size.max(IDLE_SIZE.min(self.window))
    }

    // The pages are taken first: if one is refused, nothing was written.
    fn put_apart(
        &mut self,
        first: u64,
        stop: u64,
        offset: u64,
        bytes: &[u8],
    ) -> Result<(), NoMemory>
        requires in_range { offset + length bytes.now ≤ MAX_VARINT }
        requires in_window { offset + length bytes.now ≤ self.old.0.read_count + self.old.0.widest }
        requires on { self.old.0.discarding ≡ false }
        requires gap { IsNextGap self.old.0.received (max offset self.old.0.read_count) (offset + length bytes.now) first stop }
        requires some { first < offset + length bytes.now }
        requires far { self.old.1.1 + 2048 ≤ first }
        ensures ok { OnOk result (self.new.0 ≡ put self.old.0 offset bytes.now) }
        ensures err { OnErr result (self.new.0 ≡ self.old.0) }
    {
        let end = offset + bytes.len() as u64;
        match store_apart(
            self.alloc,
            &mut self.apart,
            &mut self.received,
            first,
            stop,
            offset,
            bytes,
        ) {
            Ok(count) => {
                self.stored += count;
                self.end = self.end.max(end);
                Ok(())
            }
            Err(refused) => {
                self.apart.give_back(self.end, end);
                Err(refused)
            }
        }
    }

    // Before new bytes are stored, so that each byte moves once, and what is next to be read always stands in the ring.
    fn draw(&mut self, end: u64) -> Result<(), NoMemory>
        requires in_range { end ≤ MAX_VARINT }
        requires in_window { end ≤ self.old.0.read_count + self.old.0.widest }
        requires on { self.old.0.discarding ≡ false }
        ensures same { self.new.0 ≡ self.old.0 }
        ensures near { OnOk result ((q : ℕ) → self.new.1.1 ≤ q → set.contains self.new.0.received q ≡ true → end ≤ self.new.1.1) }
    {
        if self.apart.is_empty() {
            return Ok(());
        }
        let from = self.read_count;
        let near = self.near;
        let next = self.apart.gap_past(near.max(end), self.end);
        let size = size_for(next - from, self.window);
        reach(
            self.alloc,
            &mut self.ring,
            from,
            near - from,
            next - from,
            size,
        )?;
        self.apart.move_into(&mut self.ring, near, next);
        self.near = next;
        Ok(())
    }

    #[inline(always)]
    fn pass(&mut self, count: u64)
        requires on { self.old.0.discarding ≡ false }
        requires came { ContainsRange self.old.0.received self.old.0.read_count (self.old.0.read_count + count) }
        ensures { self.new.0 ≡ take_exactly self.old.0 count }
    {
        self.read_count += count;
        self.stored -= count;
        let span = self.near - self.read_count;
        shed(
            self.alloc,
            &mut self.ring,
            self.read_count,
            span,
            self.window,
        );
    }
}

impl Skipping for RingAssembly {
    #[tactic(auto, using(crate::proofs::RingLaws::take_done, crate::proofs::RingLaws::came_next, crate::proofs::RingLaws::empty_front))]
    fn skip(&mut self, most: usize) -> usize {
        if self.discarding {
            return 0;
        }
        let next = self.received.first_missing(self.read_count);
        let count = (next - self.read_count).min(most as u64) as usize;
        self.pass(count as u64);
        count
    }
}

impl Peeking for RingAssembly {
    #[tactic(auto, using(crate::proofs::RingApart::next_least, crate::proofs::RingApart::next_near, crate::proofs::RingLaws::came_next), unfolding(crate::specs::Assembled::front))]
    fn front(&self) -> (&[u8], &[u8]) {
        if self.discarding {
            return (&[], &[]);
        }
        let next = self.received.first_missing(self.read_count);
        let count = (next - self.read_count) as usize;
        if count == 0 {
            return (&[], &[]);
        }
        self.ring.front(self.read_count, count)
    }
}

// A power of two, so that the place of an offset is its low bits.
fn size_for(span: u64, window: u64) -> u64
    requires small { window ≤ MAX_WINDOW }
    requires fits { span ≤ window }
    ensures { IsSizeFor span window result }
{
    let power = span.next_power_of_two();
    let least = power.max(LEAST_SIZE);
    least.min(window)
}

// An empty ring begins with the first byte that comes, so that none before it is filled.
#[inline(always)]
fn front_of(kept: u64, first: u64, from: u64) -> u64
    ensures { result ≡ (if kept == 0 then first else from) }
{
    if kept == 0 { first } else { from }
}

fn reach(
    alloc: Global,
    ring: &mut Ring,
    from: u64,
    kept: u64,
    span: u64,
    size: u64,
) -> Result<(), NoMemory>
    requires small { size ≤ MAX_WINDOW }
    requires from_fits { from ≤ 2 ^ 62 }
    requires had { kept ≤ length ring.old.0 }
    requires fits { span ≤ size }
    ensures ok { OnOk result (IsReach from kept span size ring.old.0 ring.new.0) }
    ensures there { StayWrittenTo from (from + kept) ring.old ring.new }
    ensures short { OnErr result (length ring.old.0 < span) }
    ensures err { OnErr result (ring.new ≡ ring.old) }
{
    if span <= ring.len() as u64 {
        return Ok(());
    }
    ring.widen(alloc, from, kept as usize, size as usize)
}

// All was read: a small ring stays, and the next bytes begin at its front.
#[inline(always)]
fn clear(alloc: Global, ring: &mut Ring, from: u64)
    requires { from ≤ 2 ^ 62 }
    ensures bound { length ring.new.0 ≤ 4096 }
    ensures fewer { length ring.new.0 ≤ length ring.old.0 }
{
    if ring.len() as u64 <= IDLE_SIZE {
        ring.begin_at(from);
        return;
    }
    *ring = Ring::none(alloc);
}

// All of it if nothing is stored. Else, if it is larger than three times the span of what is, to the least power of two that is half more
// than that span: so that growing and shrinking don't take turns.
#[inline(always)]
fn shed(alloc: Global, ring: &mut Ring, from: u64, span: u64, window: u64)
    requires small { window ≤ MAX_WINDOW }
    requires from_fits { from ≤ 2 ^ 62 }
    requires within { length ring.old.0 ≤ window }
    requires reaches { span ≤ length ring.old.0 }
    ensures bound { length ring.new.0 ≤ max 4096 (3 * span) }
    ensures fewer { length ring.new.0 ≤ length ring.old.0 }
    ensures reaches { span ≤ length ring.new.0 }
    ensures moved { IsMoved from span ring.old.0 ring.new.0 }
    ensures there { StayWrittenTo from (from + span) ring.old ring.new }
{
    let len = ring.len() as u64;
    if span == 0 {
        clear(alloc, ring, from);
        return;
    }
    if len <= IDLE_SIZE.max(3 * span) {
        return;
    }
    let size = size_for(span + span / 2, window);
    ring.narrow(from, span as usize, size as usize);
}

// New bytes are written before their offsets are noted: a refusal then leaves the set as it was, and nobody sees the bytes.
#[inline(always)]
fn store(
    ring: &mut Ring,
    received: &mut RangeSet,
    first: u64,
    stop: u64,
    offset: u64,
    bytes: &[u8],
) -> Result<u64, NoMemory>
    requires in_range { offset + length bytes.now ≤ MAX_VARINT }
    requires missing { MissesRange received.old first stop }
    requires begins { offset ≤ first }
    requires some { first < stop }
    requires ends { stop ≤ offset + length bytes.now }
    requires fits { offset + length bytes.now ≤ first + length ring.old.0 }
    ensures same_len { length ring.new.0 ≡ length ring.old.0 }
    ensures filled { IsFilled received.old first (offset + length bytes.now) offset bytes.now ring.old.0 ring.new.0 }
    ensures kept { StayWritten ring.old ring.new }
    ensures there { AreFilled received.old first (offset + length bytes.now) ring.new }
    ensures count { IfOk result (λ n. n ≡ missing_count received.old first (offset + length bytes.now - first)) }
    ensures noted { OnOk result (received.new ≡ set.union received.old (numbers offset (offset + length bytes.now))) }
    ensures err { OnErr result (received.new ≡ received.old) }
    ensures apart { OnErr result (MissesRange received.old (offset - 1) (offset + length bytes.now + 1)) }
{
    let end = offset + bytes.len() as u64;
    let count = fill_gaps(ring, received, first, stop, offset, bytes);
    received.insert(offset, end)?;
    Ok(count)
}

#[inline(always)]
#[tactic(auto, using(crate::proofs::RingLaws::missing_all, crate::proofs::RingLaws::missing_zero, crate::proofs::RingTurned::filled_none, crate::proofs::RingTurned::filled_more))]
fn fill_gaps(
    ring: &mut Ring,
    received: &RangeSet,
    first: u64,
    stop: u64,
    offset: u64,
    bytes: &[u8],
) -> u64
    requires in_range { offset + length bytes.now ≤ MAX_VARINT }
    requires missing { MissesRange received.now first stop }
    requires begins { offset ≤ first }
    requires some { first < stop }
    requires ends { stop ≤ offset + length bytes.now }
    requires fits { offset + length bytes.now ≤ first + length ring.old.0 }
    ensures same_len { length ring.new.0 ≡ length ring.old.0 }
    ensures count { result ≡ missing_count received.now first (offset + length bytes.now - first) }
    ensures filled { IsFilled received.now first (offset + length bytes.now) offset bytes.now ring.old.0 ring.new.0 }
    ensures kept { StayWritten ring.old ring.new }
    ensures there { AreFilled received.now first (offset + length bytes.now) ring.new }
{
    let end = offset + bytes.len() as u64;
    if stop == end {
        ring.write(
            first,
            &bytes[(first - offset) as usize..(stop - offset) as usize],
        );
        return end - first;
    }
    let mut at = first;
    let mut to = stop;
    let mut count = 0;
    while at < end {
        ring.write(at, &bytes[(at - offset) as usize..(to - offset) as usize]);
        count += to - at;
        let (next, after) = next_gap(received, to, end);
        at = next;
        to = after;
    }
    count
}

// If memory is refused, pages that were taken may stay: they hold nothing that counts as received.
fn store_apart(
    alloc: Global,
    apart: &mut Pages,
    received: &mut RangeSet,
    first: u64,
    stop: u64,
    offset: u64,
    bytes: &[u8],
) -> Result<u64, NoMemory>
    requires in_range { offset + length bytes.now ≤ MAX_VARINT }
    requires whole { AreWhole apart.old.pages }
    requires missing { MissesRange received.old first stop }
    requires begins { offset ≤ first }
    requires some { first < stop }
    requires ends { stop ≤ offset + length bytes.now }
    ensures whole { AreWhole apart.new.pages }
    ensures stay { (n : ℕ) → is_used apart.old.pages n ≡ true → is_used apart.new.pages n ≡ true }
    ensures only { (n : ℕ) → is_used apart.new.pages n ≡ true
        → (is_used apart.old.pages n ≡ true) ⊎ ((first < n * 2048 + 2048) × (n * 2048 < offset + length bytes.now)) }
    ensures made { OnOk result ((q : ℕ) → first ≤ q → q < offset + length bytes.now → has_page apart.new.pages q ≡ true) }
    ensures filled { OnOk result (IsFilledApart received.old first (offset + length bytes.now) offset bytes.now apart.old.pages apart.new.pages) }
    ensures seen { (q : ℕ) → set.contains received.old q ≡ true → page_byte apart.new.pages q ≡ page_byte apart.old.pages q }
    ensures count { IfOk result (λ n. n ≡ missing_count received.old first (offset + length bytes.now - first)) }
    ensures noted { OnOk result (received.new ≡ set.union received.old (numbers offset (offset + length bytes.now))) }
    ensures err { OnErr result (received.new ≡ received.old) }
{
    let end = offset + bytes.len() as u64;
    apart.make(alloc, first, end)?;
    let count = fill_apart(apart, received, first, stop, offset, bytes);
    received.insert(offset, end)?;
    Ok(count)
}

fn fill_apart(
    apart: &mut Pages,
    received: &RangeSet,
    first: u64,
    stop: u64,
    offset: u64,
    bytes: &[u8],
) -> u64
    requires in_range { offset + length bytes.now ≤ MAX_VARINT }
    requires whole { AreWhole apart.old.pages }
    requires had { (q : ℕ) → first ≤ q → q < offset + length bytes.now → has_page apart.old.pages q ≡ true }
    requires missing { MissesRange received.now first stop }
    requires begins { offset ≤ first }
    requires some { first < stop }
    requires ends { stop ≤ offset + length bytes.now }
    ensures whole { AreWhole apart.new.pages }
    ensures stay { (n : ℕ) → is_used apart.new.pages n ≡ is_used apart.old.pages n }
    ensures count { result ≡ missing_count received.now first (offset + length bytes.now - first) }
    ensures filled { IsFilledApart received.now first (offset + length bytes.now) offset bytes.now apart.old.pages apart.new.pages }
{
    let end = offset + bytes.len() as u64;
    let mut at = first;
    let mut to = stop;
    let mut count = 0;
    while at < end {
        apart.write(at, &bytes[(at - offset) as usize..(to - offset) as usize]);
        count += to - at;
        let (next, after) = next_gap(received, to, end);
        at = next;
        to = after;
    }
    count
}

// If there are none, the first is no less than the end.
fn next_gap(received: &RangeSet, at: u64, end: u64) -> (u64, u64)
    ensures { IsNextGap received.now at end result.0 result.1 }
{
    if at >= end {
        return (at, at);
    }
    match received.first_gap(at, end) {
        Some((from, to)) => (from, to),
        None => (end, end),
    }
}

// Without a search past all that arrived, where most bytes go.
fn first_gap(received: &RangeSet, last: u64, at: u64, end: u64) -> (u64, u64)
    requires { EndsBefore received.now last }
    ensures { IsNextGap received.now at end result.0 result.1 }
{
    if last <= at && at < end {
        return (at, end);
    }
    next_gap(received, at, end)
}

fn next_run(received: &RangeSet, at: u64, end: u64) -> (u64, u64)
    requires { at < end }
    ensures { IsNextRun received.now at end result.0 result.1 }
{
    match received.run_from(at) {
        Some((start, after)) if start < end => (start, after.min(end)),
        _ => (end, end),
    }
}

fn is_gap(received: &RangeSet, start: u64, end: u64) -> bool
    ensures { result ≡ true → (q : ℕ) → start ≤ q → q < end → set.contains received.now q ≡ false }
{
    match received.run_from(start) {
        Some((first, _)) => end <= first,
        None => true,
    }
}

#[inline(never)]
fn is_kept(
    ring: &Ring,
    apart: &Pages,
    near: u64,
    received: &RangeSet,
    start: u64,
    offset: u64,
    bytes: &[u8],
) -> bool
    requires in_range { offset + length bytes.now ≤ MAX_VARINT }
    requires begins { offset ≤ start }
    requires whole { AreWhole apart.now.pages }
    requires missing { set.contains received.now near ≡ false }
    requires fits { near ≤ start + length ring.now.0 }
    requires had { (q : ℕ) → near ≤ q → set.contains received.now q ≡ true → has_page apart.now.pages q ≡ true }
    ensures { IsTrue result ↔ AreKept received.now (byte_of ring.now.0 near apart.now.pages) start offset bytes.now }
{
    let end = offset + bytes.len() as u64;
    // Mostly they fill a gap, as those do that come in reverse.
    if is_gap(received, start, end) {
        return true;
    }
    let mut at = start;
    while at < end {
        let (from, to) = next_run(received, at, end);
        let run = &bytes[(from - offset) as usize..(to - offset) as usize];
        let there = if from < near {
            ring.are_at(from, run)
        } else {
            apart.are_at(from, run)
        };
        if !there {
            return false;
        }
        at = to;
    }
    true
}
