//! An assembly that keeps what came in chunks, each with its own bytes.
ghost use Rattle.std.specs.Prelude.{◌≡◌, ℕ, ◌+◌, ◌-◌, ◌<◌, ◌≤◌, ◌^◌, ◌++◌, length, take, drop, true, IsTrue, OnOk, OnErr, None};
ghost use Rattle.std.specs.FinMap as map;
ghost use Rattle.std.specs.FinSet as set;
ghost use Rattle.qs_ranges.specs.Numbers.{MAX_VARINT, MissesRange, numbers};
ghost use Rattle.qs_recv.specs.Assembled.{Assembled, nothing_yet, put, take_front, front, front_of, discard};
ghost use Rattle.qs_recv.specs.Bytes.{take_exactly};
ghost use Rattle.qs_chunks.specs.Chunks.{IsOrdered, IsPlaced, between, end_of_piece, piece_at, pieces_end, with_spot};

use crate::chunk_list::{ChunkList, Spot};
use qs_ranges::{NoMemory, RangeSet};
use qs_recv::Assembly;
use std::alloc::Global;
use std::marker::Model;

/// Chunks in order that lie apart, beside the set of every received offset. It takes memory by what is stored, and one chunk for each gap;
/// it stands beside the ring to show that the laws of an assembly are enough.
#[derive(Drop)]
pub struct ChunkAssembly {
    chunks: ChunkList,
    received: RangeSet,
    read_count: u64,
    stored: u64,
    window: u64,
    discarding: bool,
}

impl Model for ChunkAssembly {
    ghost use Rattle.qs_recv.specs.Assembled.{Assembled};
    ghost use Rattle.qs_recv.specs.Codes.{assembled_code};
    ghost use Rattle.qs_chunks.specs.Chunks.{stored_in};
    ghost use Rattle.qs_chunks.specs.Kept.{IsKept};

    ghost Value = { Assembled };

    ghost coded = { assembled_code };

    ghost view = { λ a. record { stored = stored_in a.chunks; received = a.received; read_count = a.read_count; widest = a.window; discarding = a.discarding } };

    ghost invariant = { λ a. IsKept a.chunks a.received a.read_count a.stored a.discarding };
}

impl ChunkAssembly {
    // Takes bytes out of the first chunk, where it is next.
    fn take_first(&mut self, into: &mut [u8]) -> usize
        requires { 0 < length into.old }
        ensures within { result ≤ length into.old }
        ensures nothing { result ≡ 0 → map.get self.old.stored self.old.read_count ≡ None }
        ensures count { length (front self.old.stored self.old.read_count result) ≡ result }
        ensures bytes { into.new ≡ front self.old.stored self.old.read_count result ++ drop result into.old }
        ensures rest { self.new ≡ take_exactly self.old result }
    {
        if !self.chunks.begins_at(self.read_count) {
            return 0;
        }
        let count = self.chunks.take_front(into);
        self.read_count += count as u64;
        self.stored -= count as u64;
        count
    }
}

impl Assembly for ChunkAssembly {
    ghost holds = { λ a. a };

    ghost size = { λ a. map.len a.stored };

    ghost least = { λ _. 0 };

    fn new(alloc: Global, window: u64) -> Self {
        ChunkAssembly {
            chunks: ChunkList::new(alloc),
            received: RangeSet::new(alloc),
            read_count: 0,
            stored: 0,
            window,
            discarding: false,
        }
    }

    fn at_rest(alloc: Global, window: u64, read_count: u64, end: u64, discarding: bool) -> Self {
        ChunkAssembly {
            chunks: ChunkList::new(alloc),
            received: RangeSet::below(alloc, end),
            read_count,
            stored: 0,
            window,
            discarding,
        }
    }

    fn put(&mut self, offset: u64, bytes: &[u8]) -> Result<(), NoMemory> {
        let end = offset + bytes.len() as u64;
        if self.discarding {
            return note(&mut self.received, offset, end);
        }
        let start = offset.max(self.read_count);
        let Some(spot) = self.chunks.find_spot(start, end) else {
            return Ok(());
        };
        let new = &bytes[(spot.from - offset) as usize..(spot.to - offset) as usize];
        place(&mut self.chunks, &mut self.received, offset, end, spot, new)?;
        self.stored = self.stored - spot.held + (spot.to - spot.from);
        Ok(())
    }

    fn take(&mut self, into: &mut [u8]) -> usize {
        let _ = &self.chunks;
        let mut done = 0;
        while done < into.len() {
            let count = self.take_first(&mut into[done..]);
            if count == 0 {
                break;
            }
            done += count;
        }
        done
    }

    fn discard(&mut self) {
        self.chunks.clear_all();
        self.stored = 0;
        self.discarding = true;
    }

    fn widen(&mut self, window: u64) {
        self.window = self.window.max(window);
    }

    // Chunks that are read are gone, so there is nothing to give back.
    fn give_back(&mut self) {}

    fn same(&self, offset: u64, bytes: &[u8]) -> bool {
        self.chunks.agree(offset, bytes)
    }

    fn stored(&self) -> u64 {
        self.stored
    }

    // As it counts: the bytes. A chunk's buffer may have room for more.
    fn held(&self) -> u64 {
        self.stored
    }

    fn received(&self) -> &RangeSet {
        &self.received
    }
}

// Notes the offsets from `lo` on and below `hi`. Memory is taken only where there are some, and none of them or beside
// them came before.
fn note(received: &mut RangeSet, lo: u64, hi: u64) -> Result<(), NoMemory>
    requires ordered { lo ≤ hi }
    requires within { hi ≤ MAX_VARINT }
    ensures ok { OnOk result (received.new ≡ set.union received.old (numbers lo hi)) }
    ensures err { OnErr result (received.new ≡ received.old) }
    ensures some { OnErr result (lo < hi) }
    ensures apart { OnErr result (MissesRange received.old (lo - 1) (hi + 1)) }
{
    if lo == hi {
        return Ok(());
    }
    received.insert(lo, hi)
}

// Puts bytes at a spot, where those that came first stay, and notes the offsets of their frame.
fn place(
    chunks: &mut ChunkList,
    received: &mut RangeSet,
    offset: u64,
    end: u64,
    spot: Spot,
    bytes: &[u8],
) -> Result<(), NoMemory>
    requires frame { (offset ≤ end) × (end ≤ MAX_VARINT) }
    requires place { (spot.first ≤ spot.after) × (spot.after ≤ length chunks.old) }
    requires in_range { spot.from + length bytes.now ≤ MAX_VARINT }
    requires joins { IsTrue spot.joins → (0 < spot.first) × (end_of_piece (piece_at chunks.old (spot.first - 1)) ≡ spot.from) }
    requires inner { IsOrdered spot.from (between chunks.old spot.first spot.after) }
    requires inner_ends { pieces_end spot.from (between chunks.old spot.first spot.after) ≤ spot.from + length bytes.now }
    ensures ok { OnOk result (IsPlaced chunks.old chunks.new spot.joins spot.first spot.after spot.from bytes.now) }
    ensures noted { OnOk result (received.new ≡ set.union received.old (numbers offset end)) }
    ensures err { OnErr result ((chunks.new ≡ chunks.old) × (received.new ≡ received.old)) }
{
    if spot.first == spot.after {
        return add(chunks, received, offset, end, spot, bytes);
    }
    let patched = chunks.patched(spot, bytes)?;
    add(chunks, received, offset, end, spot, &patched)
}

// Puts bytes at a spot, in the place of the chunks in it, and notes the offsets of their frame.
fn add(
    chunks: &mut ChunkList,
    received: &mut RangeSet,
    offset: u64,
    end: u64,
    spot: Spot,
    bytes: &[u8],
) -> Result<(), NoMemory>
    requires frame { (offset ≤ end) × (end ≤ MAX_VARINT) }
    requires place { (spot.first ≤ spot.after) × (spot.after ≤ length chunks.old) }
    requires in_range { spot.from + length bytes.now ≤ MAX_VARINT }
    requires joins { IsTrue spot.joins → (0 < spot.first) × (end_of_piece (piece_at chunks.old (spot.first - 1)) ≡ spot.from) }
    ensures ok { OnOk result (chunks.new ≡ with_spot spot.joins chunks.old spot.first spot.after spot.from bytes.now) }
    ensures noted { OnOk result (received.new ≡ set.union received.old (numbers offset end)) }
    ensures err { OnErr result ((chunks.new ≡ chunks.old) × (received.new ≡ received.old)) }
{
    if spot.joins {
        chunks.extend(spot, bytes)?;
        if let Err(error) = received.insert(offset, end) {
            chunks.shorten(spot, bytes.len());
            return Err(error);
        }
        chunks.clear_behind(spot.first - 1, spot.after - spot.first);
    } else {
        chunks.insert(spot, bytes)?;
        if let Err(error) = received.insert(offset, end) {
            chunks.remove(spot.first);
            return Err(error);
        }
        chunks.clear_behind(spot.first, spot.after - spot.first);
    }
    Ok(())
}
