//! Bytes that come in at the back and are freed at the front.
ghost use Rattle.std.specs.Prelude.{◌≡◌, ℕ, ◌+◌, ◌-◌, ◌*◌, ◌≤◌, ◌<◌, true, [], ◌++◌, if◌then◌else◌, length, take, drop, max, vec_len, vec_capacity, slice_index, IfOk, OnOk, OnErr};
ghost use Rattle.qs_ranges.specs.Numbers.{is_within};
ghost use Rattle.qs_send.specs.KeptBytes.{around, place_in};

use qs_ranges::{NoMemory, reserve};
use std::alloc::Global;
use std::marker::Model;

// So much room stays when nothing is kept, so that a few bytes now and then take no memory anew.
const IDLE_ROOM: usize = 4096;

/// A ring: none is moved while others come and go. A row that is moved to the front once half of it is free moves each byte once more, when
/// it has left the processor's caches, and takes twice the memory.
#[derive(Drop)]
pub struct Kept {
    alloc: Global,
    ring: Vec<u8>,
    start: usize,
    count: usize,
}

impl Model for Kept {
    ghost use Rattle.std.specs.Prelude.{vec_capacity, vec_len};
    ghost use Rattle.qs_send.specs.KeptBytes.{KeptBytes, IsRing, around, kept_code};

    ghost Value = { KeptBytes };

    ghost coded = { kept_code };

    ghost view = { λ k. record { bytes = around k.start k.count k.ring.items; room = vec_len k.ring } };

    ghost invariant = { λ k. IsRing k.start k.count (vec_len k.ring) (vec_capacity k.ring) };
}

impl Kept {
    pub fn new(alloc: Global) -> Self
        ensures bytes { result.bytes ≡ [] }
        ensures room { result.room ≡ 0 }
    {
        Self {
            alloc,
            ring: Vec::new(alloc),
            start: 0,
            count: 0,
        }
    }

    #[tactic(auto, using(crate::proofs::Around::around_len))]
    #[inline(always)]
    pub fn len(&self) -> usize
        ensures { result ≡ length self.now.bytes }
    {
        self.count
    }

    /// How many bytes of memory it takes: at least those that are kept, and no more than 4,096 if none is.
    #[tactic(auto, using(crate::proofs::Around::around_len))]
    pub fn held(&self) -> usize
        ensures value { result ≡ self.now.room }
        ensures kept { length self.now.bytes ≤ result }
        ensures idle { length self.now.bytes ≡ 0 → result ≤ 4096 }
    {
        self.ring.len()
    }

    /// Appends the bytes. It grows by doubling, since only then bytes are moved, but past `most` no further than the bytes need.
    #[tactic(auto, using(crate::proofs::Around::around_len, crate::proofs::Around::at_front))]
    pub fn append(&mut self, bytes: &[u8], most: usize) -> Result<(), NoMemory>
        ensures ok { OnOk result (self.new.bytes ≡ self.old.bytes ++ bytes.now) }
        ensures err { OnErr result (self.new.bytes ≡ self.old.bytes) }
        ensures room { self.new.room ≤ max self.old.room (max most (length self.old.bytes + length bytes.now)) }
    {
        let count = self.count + bytes.len();
        if count > self.ring.len() {
            let size = self.ring.len().saturating_mul(2).min(most).max(count);
            if self.start > 0 {
                return self.move_to(size, bytes);
            }
            grow(&mut self.ring, self.count, bytes, size)?;
            self.count = count;
            return Ok(());
        }
        write_behind(&mut self.ring, self.start, self.count, bytes);
        self.count = count;
        Ok(())
    }

    #[tactic(auto, using(crate::proofs::Around::around_first))]
    pub fn truncate(&mut self, n: usize)
        requires { n ≤ length self.old.bytes }
        ensures bytes { self.new.bytes ≡ take n self.old.bytes }
        ensures room { self.new.room ≤ self.old.room }
    {
        if n == 0 && self.ring.len() > IDLE_ROOM {
            self.give_back();
        } else {
            self.count = n;
        }
    }

    /// Frees the first `n` bytes. If nothing is left, memory of more than 4,096 bytes is given back, and any if nothing more comes.
    #[tactic(auto, using(crate::proofs::Around::around_rest))]
    pub fn let_go(&mut self, n: usize, is_over: bool)
        requires { n ≤ length self.old.bytes }
        ensures bytes { self.new.bytes ≡ drop n self.old.bytes }
        ensures room { self.new.room ≤ self.old.room }
        ensures over { is_over ≡ true → length self.new.bytes ≡ 0 → self.new.room ≡ 0 }
    {
        let count = self.count - n;
        if count > 0 {
            self.start = place(self.ring.len(), self.start + n);
            self.count = count;
        } else if is_over || self.ring.len() > IDLE_ROOM {
            self.give_back();
        } else {
            self.start = 0;
            self.count = 0;
        }
    }

    /// In two pieces if they go around the ring's end.
    #[tactic(auto, using(crate::proofs::Around::part_is))]
    pub fn part(&self, from: usize, len: usize) -> (&[u8], &[u8])
        requires { from + len ≤ length self.now.bytes }
        ensures { result.0.now ++ result.1.now ≡ take len (drop from self.now.bytes) }
    {
        let start = place(self.ring.len(), self.start + from);
        pieces(&self.ring, start, len)
    }

    // Unchanged if memory is refused.
    #[tactic(auto, using(crate::proofs::Around::around_len, crate::proofs::Around::moved_is))]
    fn move_to(&mut self, size: usize, bytes: &[u8]) -> Result<(), NoMemory>
        requires fits { length self.old.bytes + length bytes.now ≤ size }
        requires some { 0 < length bytes.now }
        ensures ok { OnOk result (self.new.bytes ≡ self.old.bytes ++ bytes.now) }
        ensures err { OnErr result (self.new.bytes ≡ self.old.bytes) }
        ensures room { self.new.room ≤ max self.old.room size }
    {
        let (front, back) = pieces(&self.ring, self.start, self.count);
        let ring = joined(self.alloc, front, back, bytes, size)?;
        self.ring = ring;
        self.start = 0;
        self.count += bytes.len();
        Ok(())
    }

    fn give_back(&mut self)
        ensures bytes { self.new.bytes ≡ [] }
        ensures room { self.new.room ≡ 0 }
    {
        self.ring = Vec::new(self.alloc);
        self.start = 0;
        self.count = 0;
    }
}

fn place(size: usize, at: usize) -> usize
    requires { at ≤ 2 * size }
    ensures value { result ≡ place_in size at }
    ensures within { result ≤ size }
{
    if at < size { at } else { at - size }
}

#[tactic(auto, using(crate::proofs::Around::pieces_once, crate::proofs::Around::pieces_twice))]
fn pieces(ring: &[u8], start: usize, count: usize) -> (&[u8], &[u8])
    requires begins { start ≤ length ring.now }
    requires fits { count ≤ length ring.now }
    ensures { result.0.now ++ result.1.now ≡ around start count ring.now }
{
    let room = ring.len() - start;
    if count <= room {
        (&ring[start..start + count], &[])
    } else {
        (&ring[start..], &ring[..count - room])
    }
}

// Used while the bytes don't go around: then growing where they stand moves none. Unchanged if memory is refused.
fn grow(ring: &mut Vec<u8>, count: usize, bytes: &[u8], size: usize) -> Result<(), NoMemory>
    requires kept { count ≤ length ring.old.items }
    requires grows { length ring.old.items ≤ size }
    requires fits { count + length bytes.now ≤ size }
    ensures size { OnOk result (length ring.new.items ≡ size) }
    ensures ok { OnOk result (take (count + length bytes.now) ring.new.items ≡ take count ring.old.items ++ bytes.now) }
    ensures err { OnErr result (ring.new.items ≡ ring.old.items) }
    ensures refused { OnErr result (vec_capacity ring.new ≡ vec_capacity ring.old) }
{
    let room = reserve(ring, size)?;
    ring.truncate(count);
    let _written = ring.extend_from_slice(bytes);
    let _filled = ring.resize(room, 0);
    Ok(())
}

#[inline(always)]
fn write_behind(ring: &mut [u8], start: usize, count: usize, bytes: &[u8])
    requires begins { start ≤ length ring.old }
    requires fits { count + length bytes.now ≤ length ring.old }
    ensures same_len { length ring.new ≡ length ring.old }
    ensures written { around start (count + length bytes.now) ring.new ≡ around start count ring.old ++ bytes.now }
{
    let at = place(ring.len(), start + count);
    let room = ring.len() - at;
    if bytes.len() <= room {
        write_at(ring, at, bytes);
    } else {
        let (front, back) = bytes.split_at(room);
        write_at(ring, at, front);
        write_at(ring, 0, back);
    }
}

fn write_at(into: &mut [u8], at: usize, bytes: &[u8])
    requires { at + length bytes.now ≤ length into.old }
    ensures same_len { length into.new ≡ length into.old }
    ensures written { (k : ℕ) → slice_index into.new k
        ≡ (if is_within at (at + length bytes.now) k then slice_index bytes.now (k - at) else slice_index into.old k) }
{
    into[at..at + bytes.len()].copy_from_slice(bytes);
}

#[tactic(auto, using(crate::proofs::Around::around_front))]
fn joined(
    alloc: Global,
    front: &[u8],
    back: &[u8],
    bytes: &[u8],
    size: usize,
) -> Result<Vec<u8>, NoMemory>
    requires { length (front.now ++ back.now) + length bytes.now ≤ size }
    ensures size { IfOk result (λ ring. vec_len ring ≡ size) }
    ensures bytes { IfOk result (λ ring. around 0 (length (front.now ++ back.now) + length bytes.now) ring.items ≡ (front.now ++ back.now) ++ bytes.now) }
{
    let mut ring = Vec::new(alloc);
    let room = reserve(&mut ring, size)?;
    ring.extend_from_slice(front)?;
    ring.extend_from_slice(back)?;
    ring.extend_from_slice(bytes)?;
    ring.resize(room, 0)?;
    Ok(ring)
}
