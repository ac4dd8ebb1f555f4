//! What the streams of one type have to do.
ghost use Rattle.std.specs.Prelude.{◌≡◌, ◌+◌, ◌*◌, ◌/◌, ◌<◌, ◌≤◌, ◌^◌, ℕ, length, [], false, true, nat_lt, IfSome, OnOk, OnErr};
ghost use Rattle.qs_streams.specs.Rows.{has, on, IsTurned, IsSetAt, IsNext, IsLonger, IsRoomier};
ghost use Rattle.qs_streams.specs.Tasks.{row};

use crate::rows::{PER_WORD, ROWS, Rows};
use qs_ranges::{NoMemory, lowest_bit, with_bit};
use std::alloc::Global;
use std::marker::Model;

#[derive(Clone, Copy, Drop)]
pub enum Task {
    Readable,
    RecvEnded,
    /// Its limit rises as the call ends.
    Rising,
    // The four that put frames into a packet stand at their places in its order: the connection's own have those between.
    ResetDue,
    StopDue,
    LimitDue,
    StopAcked,
    BlockDue,
    LimitAcked,
    BlockAcked,
    /// Whatever the connection's limit says: that one holds all alike.
    Bytes,
    /// They take no credit of the connection, so they go when it is used up.
    Again,
    Writable,
    /// Below the stream's limit: for an application whose writes keep within credit.
    Funded,
    SendEnded,
    /// Every half of the stream is over.
    Over,
    // What follows is set as it comes true, and goes as it is reported.
    FreshReadable,
    FreshStopped,
    FreshSent,
    FreshOver,
    FreshWritable,
    /// The peer says that the stream's limit blocks it.
    PeerBlocked,
}

// Streams of a type are counted by 32 bits: more than these there is no memory for.
const MOST_BLOCKS: usize = (1 << 26) - 1;

/// A set of streams, by index, for each task. A flag on top stands for 64 of them.
#[derive(Drop)]
pub struct Board {
    blocks: Rows,
    tops: Rows,
    // How many blocks have a flag, and the least of them: a search passes what was done long ago at once.
    counts: [u32; ROWS],
    low: [u32; ROWS],
    // A bit for each task that some stream has.
    some: u64,
}

impl Model for Board {
    ghost use Rattle.std.specs.Prelude.{List, ℕ};
    ghost use Rattle.std.specs.Coded.{coded_list, coded_ℕ};
    ghost use Rattle.qs_streams.specs.Boards.{IsBoard};

    ghost Value = { List (List ℕ) };

    ghost coded = { coded_list (coded_list coded_ℕ) };

    ghost view = { λ b. b.blocks };

    ghost invariant = { λ b. IsBoard b.blocks b.tops b.counts b.low b.some };
}

impl Board {
    pub fn new(alloc: Global) -> Self
        ensures { result ≡ [] }
    {
        Board {
            blocks: Rows::new(alloc),
            tops: Rows::new(alloc),
            counts: [0; ROWS],
            low: [u32::MAX; ROWS],
            some: 0,
        }
    }

    /// A bit for each task that some stream has.
    #[inline(always)]
    pub fn some(&self) -> u64
        ensures { (t : ℕ) → t < 22 → on result t ≡ false → (i : ℕ) → has self.now t i ≡ false }
    {
        self.some
    }

    #[inline(always)]
    pub fn has(&self, task: Task, index: usize) -> bool
        ensures { result ≡ has self.now (row task) index }
    {
        self.blocks.has(row_of(task), index)
    }

    /// Room for an index and for all below it. It comes in blocks, so that mostly it is there. A refusal may leave some room: that is no
    /// value.
    #[inline(always)]
    pub fn make_room(&mut self, index: usize) -> Result<(), NoMemory>
        ensures more { IsRoomier self.old self.new }
        ensures ok { OnOk result (index < 64 * length self.new) }
    {
        if index / PER_WORD < self.blocks.len() {
            return Ok(());
        }
        self.grow_to(index / PER_WORD)
    }

    #[inline(never)]
    fn grow_to(&mut self, place: usize) -> Result<(), NoMemory>
        ensures more { IsRoomier self.old self.new }
        ensures ok { OnOk result (place < length self.new) }
    {
        while self.blocks.len() <= place {
            self.grow()?;
        }
        Ok(())
    }

    // One block more.
    fn grow(&mut self) -> Result<(), NoMemory>
        ensures longer { IsLonger self.old self.new }
        ensures ok { OnOk result (length self.new ≡ length self.old + 1) }
    {
        if self.blocks.len() >= MOST_BLOCKS {
            return Err(NoMemory);
        }
        if self.tops.len() * PER_WORD > self.blocks.len() {
            return self.blocks.grow();
        }
        self.tops.grow()?;
        self.blocks.grow()
    }

    /// Sets a flag or clears it, where there is room for it.
    #[inline(always)]
    pub fn set(&mut self, task: Task, index: usize, is_set: bool)
        ensures { IsSetAt self.old (row task) index is_set self.new }
    {
        let row = row_of(task);
        // Most stay as they are.
        if self.blocks.has(row, index) == is_set {
            return;
        }
        if is_set {
            self.turn_on(row, index);
        } else {
            self.turn_off(row, index);
        }
    }

    // Both apart, so that a caller that changes nothing pays for one look.
    #[inline(never)]
    fn turn_on(&mut self, row: usize, index: usize)
        requires { row < 22 }
        ensures { IsSetAt self.old row index true self.new }
    {
        let place = index / PER_WORD;
        if place >= self.blocks.len() {
            return;
        }
        let (was, _is) = self.blocks.turn(row, index, true);
        if was != 0 {
            return;
        }
        let _top = self.tops.turn(row, place, true);
        let count = self.counts[row];
        let low = self.low[row];
        self.counts[row] = count + 1;
        self.low[row] = low.min(place as u32);
        self.some = with_bit(self.some, row, true);
    }

    #[inline(never)]
    fn turn_off(&mut self, row: usize, index: usize)
        requires row { row < 22 }
        requires was { has self.old row index ≡ true }
        ensures { IsTurned self.old row index false self.new }
    {
        let place = index / PER_WORD;
        let (_was, is) = self.blocks.turn(row, index, false);
        if is != 0 {
            return;
        }
        let _top = self.tops.turn(row, place, false);
        let count = self.counts[row] - 1;
        self.counts[row] = count;
        self.some = with_bit(self.some, row, count > 0);
        let low = self.low[row];
        if low as usize == place {
            self.low[row] = next_low(&self.tops, row, place + 1);
        }
    }

    /// The least index from one on that has a task.
    #[inline]
    pub fn next(&self, task: Task, from: usize) -> Option<usize>
        ensures next { IsNext (has self.now (row task)) from result }
        ensures small { IfSome result (λ n. n < 2 ^ 32) }
    {
        let row = row_of(task);
        let count = self.counts[row];
        if count == 0 {
            return None;
        }
        let low = self.low[row] as usize;
        let from = from.max(low * PER_WORD);
        let place = from / PER_WORD;
        if place >= self.blocks.len() {
            return None;
        }
        if let Some(bit) = lowest_bit(self.blocks.word(row, place), from % PER_WORD) {
            return Some(place * PER_WORD + bit);
        }
        let place = self.tops.next(row, place + 1)?;
        let bit = lowest_bit(self.blocks.word(row, place), 0)?;
        Some(place * PER_WORD + bit)
    }
}

#[inline(always)]
pub(crate) fn row_of(task: Task) -> usize
    ensures value { result ≡ row task }
    ensures small { result < 22 }
{
    task as usize
}

// The least block from one on that has a flag, or more than there are.
fn next_low(tops: &Rows, row: usize, from: usize) -> u32
    requires row { row < 22 }
    requires few { length tops.now ≤ 2 ^ 20 + 1 }
    ensures { (place : ℕ) → from ≤ place → place < result → has tops.now row place ≡ false }
{
    match tops.next(row, from) {
        Some(place) => place as u32,
        None => u32::MAX,
    }
}
