//! A row of flags for each task. Those of 64 indexes stand side by side, so that a change of one touches one place.
ghost use Rattle.std.specs.Prelude.{◌≡◌, ◌+◌, ◌*◌, ◌/◌, ◌<◌, ◌≤◌, ◌^◌, ℕ, length, [], OnOk, OnErr};
ghost use Rattle.qs_streams.specs.Rows.{IsLonger, IsNext, IsTurned, has, on, word};

use qs_ranges::{NoMemory, lowest_bit, with_bit};
use std::alloc::Global;
use std::marker::Model;

pub(crate) const ROWS: usize = 22;

pub(crate) const PER_WORD: usize = 64;

#[derive(Drop)]
pub(crate) struct Rows {
    blocks: Vec<[u64; ROWS]>,
}

impl Model for Rows {
    ghost use Rattle.std.specs.Prelude.{List, ℕ};
    ghost use Rattle.std.specs.Coded.{coded_list, coded_ℕ};
    ghost use Rattle.qs_streams.specs.Rows.{AreBlocks};

    ghost Value = { List (List ℕ) };

    ghost coded = { coded_list (coded_list coded_ℕ) };

    ghost view = { λ r. r.blocks.items };

    ghost invariant = { λ r. AreBlocks r.blocks.items };
}

impl Rows {
    pub(crate) fn new(alloc: Global) -> Self
        ensures { result ≡ [] }
    {
        Rows {
            blocks: Vec::new(alloc),
        }
    }

    /// How many blocks of 64 indexes there are.
    #[inline(always)]
    pub(crate) fn len(&self) -> usize
        ensures len { result ≡ length self.now }
        ensures few { result ≤ 2 ^ 56 }
    {
        self.blocks.len()
    }

    /// One block more, without a flag.
    #[tactic(auto, using(crate::proofs::Flags::longer, crate::proofs::Flags::as_long, crate::proofs::Flags::blocks_more))]
    pub(crate) fn grow(&mut self) -> Result<(), NoMemory>
        requires { length self.old < 2 ^ 56 }
        ensures longer { IsLonger self.old self.new }
        ensures ok { OnOk result (length self.new ≡ length self.old + 1) }
        ensures err { OnErr result (self.new ≡ self.old) }
    {
        if self.blocks.is_empty() {
            // Most endpoints need no more than one, and a push makes room for four at least.
            self.blocks.reserve_exact(1)?;
        }
        if let Err(_refused) = self.blocks.push([0; ROWS]) {
            return Err(NoMemory);
        }
        Ok(())
    }

    /// The flags of 64 indexes.
    #[inline(always)]
    pub(crate) fn word(&self, row: usize, place: usize) -> u64
        requires row { row < 22 }
        requires there { place < length self.now }
        ensures { result ≡ word self.now row place }
    {
        self.blocks[place][row]
    }

    #[inline(always)]
    pub(crate) fn has(&self, row: usize, index: usize) -> bool
        requires { row < 22 }
        ensures { result ≡ has self.now row index }
    {
        if index / PER_WORD >= self.blocks.len() {
            return false;
        }
        has_bit(self.word(row, index / PER_WORD), index % PER_WORD)
    }

    /// The least index from one on that has a flag, by a look at each word.
    pub(crate) fn next(&self, row: usize, from: usize) -> Option<usize>
        requires { row < 22 }
        ensures { IsNext (has self.now row) from result }
    {
        let mut bit = from % PER_WORD;
        for place in from / PER_WORD..self.blocks.len() {
            if let Some(found) = lowest_bit(self.word(row, place), bit) {
                return Some(place * PER_WORD + found);
            }
            bit = 0;
        }
        None
    }

    /// Sets a flag or clears it. Answers the word as it was, and as it is.
    #[inline(always)]
    pub(crate) fn turn(&mut self, row: usize, index: usize, is_set: bool) -> (u64, u64)
        requires row { row < 22 }
        requires there { index < 64 * length self.old }
        ensures turned { IsTurned self.old row index is_set self.new }
        ensures was { result.0 ≡ word self.old row (index / 64) }
        ensures is { result.1 ≡ word self.new row (index / 64) }
    {
        let block = &mut self.blocks[index / PER_WORD];
        let was = block[row];
        let is = with_bit(was, index % PER_WORD, is_set);
        block[row] = is;
        (was, is)
    }
}

#[inline(always)]
fn has_bit(word: u64, bit: usize) -> bool
    requires { bit < 64 }
    ensures { result ≡ on word bit }
{
    (word >> bit) & 1 == 1
}
