//! A ring of bytes of which only the written ones are kept, so that a new one needn't be filled with zeros.
ghost use Rattle.std.specs.Prelude.{◌≡◌, if◌then◌else◌, ℕ, ◌+◌, ◌-◌, ◌%◌, ◌<◌, ◌≤◌, ◌^◌, [], ◌++◌, max, min, length, slice_index, IsTrue, ◌↔◌, IfOk, OnOk, OnErr, vec_len, vec_capacity};
ghost use Rattle.qs_ranges.specs.Numbers.{is_within};
ghost use Rattle.qs_recv.specs.Ring.{AreAt, AreWritten, IsMoved, IsWritten, StayWritten, StayWrittenTo, around};
ghost use Rattle.qs_recv.specs.Lane.{MAX_WINDOW};

use qs_ranges::{NoMemory, reserve};
use std::alloc::Global;
use std::marker::Model;

/// The byte of an offset stands at the offset modulo the ring's size, so arrival in any order costs copies alone. As the ring is made, the
/// place is chosen at which the kept bytes begin: what comes in order from there on is appended.
#[derive(Drop)]
pub(crate) struct Ring {
    // Shorter than the room until all of it was written: what lies behind was never filled.
    bytes: Vec<u8>,
    size: usize,
    // How far on in `bytes` the places begin. Choosing it anew when a ring grows keeps each byte where it stands.
    turn: usize,
}

impl Model for Ring {
    ghost use Rattle.std.specs.Prelude.{ℕ, vec_len, vec_capacity};
    ghost use Rattle.std.specs.Coded.{coded×, coded_ℕ, coded_list};
    ghost use Rattle.qs_recv.specs.Ring.{IsKept, RingBytes, places_of};

    // The byte of each place, and which of them were written: a look may lend only those.
    ghost Value = { RingBytes };

    ghost coded = { coded× (coded_list coded_ℕ) (coded× coded_ℕ coded_ℕ) };

    ghost view = { λ r. (places_of r.turn r.size r.bytes.items, (r.turn, vec_len r.bytes)) };

    ghost invariant = { λ r. IsKept r.turn r.size (vec_len r.bytes) (vec_capacity r.bytes) };
}

impl Ring {
    pub(crate) fn none(alloc: Global) -> Self
        ensures { result.0 ≡ [] }
    {
        Self {
            bytes: Vec::new(alloc),
            size: 0,
            turn: 0,
        }
    }

    pub(crate) fn len(&self) -> usize
        ensures { result ≡ length self.now.0 }
    {
        self.size
    }

    /// Of a ring from which nothing is to be read any more: what comes next begins at its front, and goes around its end as late as it can.
    pub(crate) fn begin_at(&mut self, from: u64)
        requires { from ≤ 2 ^ 62 }
        ensures { length self.new.0 ≡ length self.old.0 }
    {
        if self.size > 0 {
            self.turn = self.size - place_of(from, self.size);
        }
    }

    #[inline(always)]
    pub(crate) fn write(&mut self, at: u64, bytes: &[u8])
        requires small { at ≤ 2 ^ 62 }
        requires some { 0 < length self.old.0 }
        requires fits { length bytes.now ≤ length self.old.0 }
        ensures same_len { length self.new.0 ≡ length self.old.0 }
        ensures written { IsWritten at bytes.now self.old.0 self.new.0 }
        ensures kept { StayWritten self.old self.new }
        ensures there { AreWritten self.new at (at + length bytes.now) }
    {
        let place = place_of(at + self.turn as u64, self.size);
        let room = self.size - place;
        if bytes.len() <= room {
            write_over(&mut self.bytes, place, bytes);
        } else {
            let (front, back) = bytes.split_at(room);
            write_over(&mut self.bytes, place, front);
            write_over(&mut self.bytes, 0, back);
        }
    }

    #[tactic(auto, using(crate::proofs::RingTurned::length_parts, crate::proofs::RingTurned::length_places, crate::proofs::RingTurned::same_places))]
    pub(crate) fn copy_out(&mut self, at: u64, into: &mut [u8])
        requires small { at ≤ 2 ^ 62 }
        requires fits { length into.old ≤ length self.old.0 }
        ensures same { self.new.0 ≡ self.old.0 }
        ensures kept { StayWritten self.old self.new }
        ensures out { (k : ℕ) → k < length into.old → slice_index into.new k ≡ slice_index self.old.0 ((at + k) % length self.old.0) }
    {
        let count = into.len();
        if count == 0 {
            return;
        }
        let place = place_of(at + self.turn as u64, self.size);
        if place + count <= self.bytes.len() {
            into.copy_from_slice(&self.bytes[place..place + count]);
            return;
        }
        fill(&mut self.bytes, self.size, place, count);
        let (front, back) = pieces(&self.bytes, self.size, place, count);
        write_at(into, 0, front);
        write_at(into, front.len(), back);
    }

    /// All of them were written, which the invariant of an assembly says of what came and wasn't read.
    pub(crate) fn front(&self, at: u64, count: usize) -> (&[u8], &[u8])
        requires small { at ≤ 2 ^ 62 }
        requires wanted { 0 < count }
        requires fits { count ≤ length self.now.0 }
        requires there { AreWritten self.now at (at + count) }
        ensures whole { length (result.0.now ++ result.1.now) ≡ count }
        ensures there { AreAt self.now.0 at (result.0.now ++ result.1.now) }
    {
        let place = place_of(at + self.turn as u64, self.size);
        pieces(&self.bytes, self.size, place, count)
    }

    pub(crate) fn are_at(&self, at: u64, bytes: &[u8]) -> bool
        requires small { at ≤ 2 ^ 62 }
        requires fits { length bytes.now ≤ length self.now.0 }
        ensures { IsTrue result ↔ AreAt self.now.0 at bytes.now }
    {
        let count = bytes.len();
        if count == 0 {
            return true;
        }
        let place = place_of(at + self.turn as u64, self.size);
        let room = self.size - place;
        if count <= room {
            return is_at(&self.bytes, place, bytes);
        }
        let (front, back) = bytes.split_at(room);
        is_at(&self.bytes, place, front) && is_at(&self.bytes, 0, back)
    }

    /// What is written behind these bytes is appended.
    #[tactic(auto, using(crate::proofs::RingTurned::same_places))]
    pub(crate) fn resized(
        &mut self,
        alloc: Global,
        from: u64,
        count: usize,
        size: usize,
    ) -> Result<Ring, NoMemory>
        requires from_fits { from ≤ 2 ^ 62 }
        requires some { 0 < size }
        requires small { size ≤ MAX_WINDOW }
        requires had { count ≤ length self.old.0 }
        requires fits { count ≤ size }
        ensures same { self.new.0 ≡ self.old.0 }
        ensures len { IfOk result (λ other. length other.0 ≡ size) }
        ensures moved { IfOk result (λ other. IsMoved from count self.old.0 other.0) }
        ensures there { IfOk result (λ other. AreWritten other from (from + count)) }
        ensures err { OnErr result (self.new ≡ self.old) }
    {
        let turn = size - place_of(from, size);
        let mut bytes = Vec::new(alloc);
        let room = reserve(&mut bytes, size)?;
        if count == 0 {
            return Ok(Ring {
                bytes,
                size: room,
                turn,
            });
        }
        let place = place_of(from + self.turn as u64, self.size);
        fill(&mut self.bytes, self.size, place, count);
        copy_to(&mut bytes, &self.bytes, self.size, place, count);
        Ok(Ring {
            bytes,
            size: room,
            turn,
        })
    }

    /// In memory that grows bytes keep their place. Only if they go around the ring's end a new ring is taken and they are copied.
    #[inline(never)]
    pub(crate) fn widen(
        &mut self,
        alloc: Global,
        from: u64,
        count: usize,
        size: usize,
    ) -> Result<(), NoMemory>
        requires from_fits { from ≤ 2 ^ 62 }
        requires some { 0 < size }
        requires small { size ≤ MAX_WINDOW }
        requires had { count ≤ length self.old.0 }
        requires more { length self.old.0 ≤ size }
        ensures len { OnOk result (length self.new.0 ≡ size) }
        ensures moved { OnOk result (IsMoved from count self.old.0 self.new.0) }
        ensures there { StayWrittenTo from (from + count) self.old self.new }
        ensures err { OnErr result (self.new ≡ self.old) }
    {
        if count == 0 {
            *self = self.resized(alloc, from, count, size)?;
            return Ok(());
        }
        let place = place_of(from + self.turn as u64, self.size);
        if count > self.size - place {
            *self = self.resized(alloc, from, count, size)?;
            return Ok(());
        }
        self.size = reserve(&mut self.bytes, size)?;
        self.turn = turn_to(place, from, size);
        Ok(())
    }

    /// In place, for a read must not fail and a copy may be refused memory: turned so that what is next stands first, cut off, and turned
    /// back.
    pub(crate) fn narrow(&mut self, from: u64, count: usize, size: usize)
        requires from_fits { from ≤ 2 ^ 62 }
        requires some { 0 < count }
        requires fits { count ≤ size }
        requires fewer { size ≤ length self.old.0 }
        ensures len { length self.new.0 ≡ size }
        ensures moved { IsMoved from count self.old.0 self.new.0 }
        ensures there { AreWritten self.new from (from + count) }
    {
        let place = place_of(from + self.turn as u64, self.size);
        fill(&mut self.bytes, self.size, place, count);
        bring_to_front(&mut self.bytes, place, count);
        self.bytes.shrink_to(size);
        self.size = size;
        self.turn = size - place_of(from, size);
    }
}

// Most sizes are powers of two, unless a window cuts one, and there the low bits are the place: no division.
#[tactic(auto, using(crate::proofs::RingTurned::place_by_bits))]
fn place_of(at: u64, size: usize) -> usize
    requires { 0 < size }
    ensures { result ≡ at % size }
{
    if size.is_power_of_two() {
        (at & (size as u64 - 1)) as usize
    } else {
        (at % size as u64) as usize
    }
}

#[tactic(auto, using(crate::proofs::RingTurned::turned_by, crate::proofs::RingTurned::turned_by_less))]
fn turn_to(place: usize, from: u64, size: usize) -> usize
    requires small { size ≤ MAX_WINDOW }
    requires within { place < size }
    ensures turned { result ≤ size }
    ensures there { place ≡ (from + result) % size }
{
    let turn = place + (size - place_of(from, size));
    if turn <= size { turn } else { turn - size }
}

// Zeros only before a place that is written past the end; in order there are none.
fn fill(bytes: &mut Vec<u8>, size: usize, place: usize, count: usize)
    requires small { size ≤ MAX_WINDOW }
    requires room { size ≤ vec_capacity bytes.old }
    requires within { vec_len bytes.old ≤ size }
    requires place { place < size }
    requires count { count ≤ size }
    ensures reaches { min (place + count) size ≤ vec_len bytes.new }
    ensures within { vec_len bytes.new ≤ size }
    ensures more { vec_len bytes.old ≤ vec_len bytes.new }
    ensures room { vec_capacity bytes.old ≤ vec_capacity bytes.new }
    ensures same { (k : ℕ) → slice_index bytes.new.items k ≡ slice_index bytes.old.items k }
{
    let end = (place + count).min(size);
    if bytes.len() < end {
        let _filled = bytes.resize(end, 0);
    }
}

#[tactic(auto, using(crate::proofs::RingTurned::around_once, crate::proofs::RingTurned::around_twice))]
fn pieces(bytes: &[u8], size: usize, place: usize, count: usize) -> (&[u8], &[u8])
    requires reaches { min (place + count) size ≤ length bytes.now }
    requires within { length bytes.now ≤ size }
    requires place { place < size }
    requires count { count ≤ size }
    ensures { result.0.now ++ result.1.now ≡ around place count bytes.now }
{
    let room = size - place;
    if count <= room {
        (&bytes[place..place + count], &[])
    } else {
        (&bytes[place..], &bytes[..count - room])
    }
}

// By rotation, so that it needs no second buffer.
#[tactic(auto, using(crate::proofs::RingTurned::moved_down, crate::proofs::RingTurned::rotated))]
fn bring_to_front(bytes: &mut Vec<u8>, place: usize, count: usize)
    requires place { place ≤ length bytes.old.items }
    requires count { count ≤ length bytes.old.items }
    ensures items { bytes.new.items ≡ around place count bytes.old.items }
    ensures room { vec_capacity bytes.old ≤ vec_capacity bytes.new }
{
    if count <= bytes.len() - place {
        bytes.copy_within(place..place + count, 0);
        bytes.truncate(count);
        return;
    }
    bytes.rotate_left(place);
    bytes.truncate(count);
}

fn copy_to(made: &mut Vec<u8>, bytes: &[u8], size: usize, place: usize, count: usize)
    requires empty { made.old.items ≡ [] }
    requires room { count ≤ vec_capacity made.old }
    requires reaches { min (place + count) size ≤ length bytes.now }
    requires within { length bytes.now ≤ size }
    requires place { place < size }
    requires count { count ≤ size }
    ensures items { made.new.items ≡ around place count bytes.now }
    ensures room { vec_capacity made.old ≤ vec_capacity made.new }
{
    let (front, back) = pieces(bytes, size, place, count);
    let _copied = made.extend_from_slice(front);
    let _copied = made.extend_from_slice(back);
}

#[inline(always)]
#[tactic(auto, using(crate::proofs::RingTurned::cut_to, crate::proofs::RingTurned::written_over))]
fn write_over(into: &mut Vec<u8>, place: usize, bytes: &[u8])
    requires { place + length bytes.now ≤ vec_capacity into.old }
    ensures len { vec_len into.new ≡ max (vec_len into.old) (place + length bytes.now) }
    ensures room { vec_capacity into.old ≤ vec_capacity into.new }
    ensures written { (k : ℕ) → slice_index into.new.items k
        ≡ (if is_within place (place + length bytes.now) k then slice_index bytes.now (k - place) else slice_index into.old.items k) }
{
    if place + bytes.len() <= into.len() {
        write_at(into, place, bytes);
        return;
    }
    if place != into.len() {
        let _filled = into.resize(place, 0);
    }
    let _written = into.extend_from_slice(bytes);
}

pub(crate) fn write_at(into: &mut [u8], place: usize, bytes: &[u8])
    requires { place + length bytes.now ≤ length into.old }
    ensures same_len { length into.new ≡ length into.old }
    ensures written { (k : ℕ) → slice_index into.new k
        ≡ (if is_within place (place + length bytes.now) k then slice_index bytes.now (k - place) else slice_index into.old k) }
{
    into[place..place + bytes.len()].copy_from_slice(bytes);
}

pub(crate) fn is_at(kept: &[u8], place: usize, bytes: &[u8]) -> bool
    requires { place + length bytes.now < 2 ^ 63 }
    ensures { IsTrue result ↔ ((k : ℕ) → k < length bytes.now → slice_index bytes.now k ≡ slice_index kept.now (place + k)) }
{
    let end = place + bytes.len();
    if end <= kept.len() {
        return bytes == &kept[place..end];
    }
    let mut i = 0;
    while i < bytes.len() {
        let there = if place + i < kept.len() {
            kept[place + i]
        } else {
            0
        };
        if bytes[i] != there {
            return false;
        }
        i += 1;
    }
    true
}
