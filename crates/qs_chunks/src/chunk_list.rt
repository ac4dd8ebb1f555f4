//! Chunks in order, with the memory of one that was read kept for the next.
ghost use Rattle.std.specs.Prelude.{◌≡◌, if◌then◌else◌, ℕ, ◌+◌, ◌-◌, ◌^◌, ◌≤◌, ◌<◌, ◌∷◌, ◌++◌, [], length, take, drop, insert, remove, min, IfOk, IfSome, IfNone, OnOk, OnErr, IsTrue, ◌↔◌};
ghost use Rattle.std.specs.FinMap as map;
ghost use Rattle.qs_ranges.specs.Numbers.{MAX_VARINT, is_within};
ghost use Rattle.qs_recv.specs.Assembled.{same};
ghost use Rattle.qs_recv.specs.Bytes.{byte_at};
ghost use Rattle.qs_chunks.specs.Chunks.{Piece, IsOrdered, IsSpot, IsStored, between, end_of_piece, first_bytes, first_offset, or_else, piece_at, pieces_end, stored_in, total, with_longer, with_shorter, without_first};

use crate::chunk::Chunk;
use qs_ranges::NoMemory;
use std::alloc::Global;
use std::collections::VecDeque;
use std::marker::Model;
use std::mem;

/// One buffer that is free, so that a chunk that is read gives its memory to the next.
#[derive(Drop)]
pub(crate) struct ChunkList {
    alloc: Global,
    chunks: VecDeque<Chunk>,
    spare: Vec<u8>,
}

impl Model for ChunkList {
    ghost use Rattle.std.specs.Prelude.{List};
    ghost use Rattle.std.specs.Coded.{coded_list};
    ghost use Rattle.qs_chunks.specs.Chunks.{Piece, piece_code};

    ghost Value = { List Piece };

    ghost coded = { coded_list piece_code };

    ghost view = { λ l. l.chunks.items };
}

/// A range of offsets from `from` on and below `to`. The chunks at places from `first` on and before `after` lie within it and hold `held`
/// bytes. If it joins, the chunk before them ends at `from`, and grows instead of a new one.
#[derive(Clone, Copy)]
pub(crate) struct Spot {
    pub(crate) first: usize,
    pub(crate) after: usize,
    pub(crate) from: u64,
    pub(crate) to: u64,
    pub(crate) held: u64,
    pub(crate) joins: bool,
}

impl ChunkList {
    pub(crate) fn new(alloc: Global) -> Self
        ensures { result ≡ [] }
    {
        ChunkList {
            alloc,
            chunks: VecDeque::new(alloc),
            spare: Vec::new(alloc),
        }
    }

    /// A range of offsets of those from `start` on and below `end`: all outside of it are stored, and one in it isn't.
    pub(crate) fn find_spot(&self, start: u64, end: u64) -> Option<Spot>
        requires { IsOrdered 0 self.now }
        ensures found { IfSome result (λ spot. IsSpot self.now start end spot.first spot.after spot.from spot.to) }
        ensures held { IfSome result (λ spot. spot.held ≡ total (between self.now spot.first spot.after)) }
        ensures some { IfSome result (λ spot. spot.held < spot.to - spot.from) }
        ensures joins { IfSome result (λ spot. IsTrue spot.joins
            → (0 < spot.first) × (end_of_piece (piece_at self.now (spot.first - 1)) ≡ spot.from)) }
        ensures none { IfNone result (IsStored self.now start end) }
    {
        let first = self.place_past(start);
        let left_end = self.end_before(first);
        let from = start.max(left_end);
        if from >= end {
            return None;
        }
        let (after, held) = self.inner(first, end);
        let to = self.next_begin(after).min(end);
        if to.saturating_sub(from) <= held {
            return None;
        }
        Some(Spot {
            first,
            after,
            from,
            to,
            held,
            joins: left_end == from && first > 0,
        })
    }

    fn len(&self) -> usize
        ensures { result ≡ length self.now }
    {
        self.chunks.len()
    }

    fn chunk(&self, place: usize) -> &Chunk
        requires { place < length self.now }
        ensures { result.now ≡ piece_at self.now place }
    {
        &self.chunks[place]
    }

    // All of them begin there for bytes in order, so the last is looked at first.
    fn place_past(&self, start: u64) -> usize
        requires { IsOrdered 0 self.now }
        ensures within { result ≤ length self.now }
        ensures before { 0 < result → (piece_at self.now (result - 1)).offset ≤ start }
        ensures behind { result < length self.now → start < (piece_at self.now result).offset }
    {
        match self.chunks.back() {
            Some(last) if last.offset() > start => {
                self.chunks.partition_point(|chunk| chunk.offset() <= start)
            }
            _ => self.len(),
        }
    }

    fn end_before(&self, place: usize) -> u64
        requires { place ≤ length self.now }
        ensures none { place ≡ 0 → result ≡ 0 }
        ensures end { 0 < place → result ≡ end_of_piece (piece_at self.now (place - 1)) }
    {
        if place > 0 {
            self.chunk(place - 1).end()
        } else {
            0
        }
    }

    fn next_begin(&self, place: usize) -> u64
        ensures none { length self.now ≤ place → result ≡ 2 ^ 64 - 1 }
        ensures begin { place < length self.now → result ≡ (piece_at self.now place).offset }
    {
        match self.chunks.get(place) {
            Some(chunk) => chunk.offset(),
            None => u64::MAX,
        }
    }

    // The place after the last of the chunks from `first` on that end at `end` or below it, and how many bytes they hold.
    fn inner(&self, first: usize, end: u64) -> (usize, u64)
        requires ordered { IsOrdered 0 self.now }
        requires in_bounds { first ≤ length self.now }
        ensures ordered { first ≤ result.0 }
        ensures in_bounds { result.0 ≤ length self.now }
        ensures last { first < result.0 → end_of_piece (piece_at self.now (result.0 - 1)) ≤ end }
        ensures next { result.0 < length self.now → end < end_of_piece (piece_at self.now result.0) }
        ensures held { result.1 ≡ total (between self.now first result.0) }
    {
        let mut after = first;
        let mut held = 0;
        while after < self.len() && self.chunk(after).end() <= end {
            held += self.chunk(after).len() as u64;
            after += 1;
        }
        (after, held)
    }

    pub(crate) fn agree(&self, offset: u64, bytes: &[u8]) -> bool
        requires ordered { IsOrdered 0 self.now }
        requires in_range { offset + length bytes.now ≤ MAX_VARINT }
        ensures { result ≡ same (stored_in self.now) offset bytes.now }
    {
        let end = offset + bytes.len() as u64;
        let mut next = self.place_past(offset).saturating_sub(1);
        while next < self.len() && self.chunk(next).offset() < end {
            if !self.chunk(next).agrees(offset, bytes) {
                return false;
            }
            next += 1;
        }
        true
    }

    /// The bytes that come, from the offset `from` on, with those of the chunks between in their places.
    pub(crate) fn patched(&self, spot: Spot, bytes: &[u8]) -> Result<Vec<u8>, NoMemory>
        requires in_bounds { (spot.first ≤ spot.after) × (spot.after ≤ length self.now) }
        requires inner { IsOrdered spot.from (between self.now spot.first spot.after) }
        requires inner_ends { pieces_end spot.from (between self.now spot.first spot.after) ≤ spot.from + length bytes.now }
        ensures same_len { IfOk result (λ new. length new.items ≡ length bytes.now) }
        ensures patched { IfOk result (λ new. (q : ℕ) → byte_at spot.from new.items q
            ≡ or_else (map.get (stored_in (between self.now spot.first spot.after)) q) (byte_at spot.from bytes.now q)) }
    {
        let mut new = bytes.to_vec(self.alloc)?;
        let mut place = spot.first;
        while place < spot.after {
            patch(&mut new, spot.from, self.chunk(place));
            place += 1;
        }
        Ok(new)
    }

    pub(crate) fn extend(&mut self, spot: Spot, bytes: &[u8]) -> Result<(), NoMemory>
        requires place { (0 < spot.first) × (spot.first ≤ length self.old) }
        requires in_range { end_of_piece (piece_at self.old (spot.first - 1)) + length bytes.now ≤ MAX_VARINT }
        ensures ok { OnOk result (self.new ≡ with_longer self.old (spot.first - 1) bytes.now) }
        ensures err { OnErr result (self.new ≡ self.old) }
    {
        self.chunks[spot.first - 1].append(bytes)
    }

    pub(crate) fn shorten(&mut self, spot: Spot, count: usize)
        requires place { (0 < spot.first) × (spot.first ≤ length self.old) }
        requires some { count ≤ length (piece_at self.old (spot.first - 1)).bytes }
        ensures { self.new ≡ with_shorter self.old (spot.first - 1) count }
    {
        self.chunks[spot.first - 1].truncate(count);
    }

    pub(crate) fn insert(&mut self, spot: Spot, bytes: &[u8]) -> Result<(), NoMemory>
        requires place { spot.first ≤ length self.old }
        requires in_range { spot.from + length bytes.now ≤ MAX_VARINT }
        ensures ok { OnOk result (self.new ≡ insert self.old spot.first (record { offset = spot.from; bytes = bytes.now })) }
        ensures err { OnErr result (self.new ≡ self.old) }
    {
        let buffer = mem::replace(&mut self.spare, Vec::new(self.alloc));
        let chunk = Chunk::new(buffer, spot.from, bytes)?;
        self.chunks.insert(spot.first, chunk)?;
        Ok(())
    }

    pub(crate) fn remove(&mut self, place: usize)
        requires { place < length self.old }
        ensures { self.new ≡ remove self.old place }
    {
        drop(self.chunks.remove(place));
    }

    pub(crate) fn clear_behind(&mut self, place: usize, count: usize)
        requires { place + count < length self.old }
        ensures { self.new ≡ take (place + 1) self.old ++ drop (place + 1 + count) self.old }
    {
        if count > 0 {
            let first = place + 1;
            self.chunks.drain(first..first + count);
        }
    }

    pub(crate) fn take_front(&mut self, into: &mut [u8]) -> usize
        requires { 0 < length self.old }
        ensures count { result ≡ min (length (first_bytes self.old)) (length into.old) }
        ensures bytes { into.new ≡ take result (first_bytes self.old) ++ drop result into.old }
        ensures rest { self.new ≡ without_first self.old result }
    {
        let first = &mut self.chunks[0];
        let len = first.len();
        let count = len.min(into.len());
        first.copy_front(&mut into[..count]);
        if count < len {
            first.skip(count);
        } else if let Some(first) = self.chunks.pop_front() {
            self.spare = first.into_buffer();
        }
        count
    }

    pub(crate) fn begins_at(&self, offset: u64) -> bool
        ensures { IsTrue result ↔ ((0 < length self.now) × (first_offset self.now ≡ offset)) }
    {
        matches!(self.chunks.front(), Some(first) if first.offset() == offset)
    }

    pub(crate) fn clear_all(&mut self)
        ensures { self.new ≡ [] }
    {
        self.chunks = VecDeque::new(self.alloc);
        self.spare = Vec::new(self.alloc);
    }
}

fn patch(bytes: &mut [u8], from: u64, chunk: &Chunk)
    requires begins { from ≤ chunk.now.offset }
    requires ends { end_of_piece chunk.now ≤ from + length bytes.old }
    ensures same_len { length bytes.new ≡ length bytes.old }
    ensures patched { (q : ℕ) → byte_at from bytes.new q
        ≡ (if is_within chunk.now.offset (end_of_piece chunk.now) q then byte_at chunk.now.offset chunk.now.bytes q else byte_at from bytes.old q) }
{
    let at = (chunk.offset() - from) as usize;
    let end = at + chunk.len();
    chunk.copy_front(&mut bytes[at..end]);
}
