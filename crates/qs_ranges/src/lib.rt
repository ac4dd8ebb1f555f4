//! Sets of numbers, kept as the longest runs of their members. One type serves stream offsets and packet numbers: both lie below 2^62, and
//! both mostly come in order.
#![tactic(auto)]

ghost use Rattle.std.specs.Prelude.{◌≡◌, ℕ, ◌+◌, ◌-◌, ◌≤◌, ◌<◌, ◌^◌, ◌↔◌, All, Option, OnOk, OnErr, IsTrue, IfSome, IfNone, [], ◌∷◌, false, length, take, max};
ghost use Rattle.std.specs.FinSet as set;
ghost use Rattle.qs_ranges.specs.Numbers.{
  NumberSet,
  numbers,
  ContainsRange,
  MissesRange,
  EndsBefore,
  AllBelow,
  IsLeastFrom,
  IsLeastMissingFrom,
  IsRunFrom,
  IsRunAbove,
  IsFirstGap,
  end_of,
  run_starts,
};
ghost use Rattle.qs_ranges.specs.Runs.{AreApart, AreRunsOf, has_number};
ghost use Rattle.qs_ranges.specs.Blocks.{IsEdit, all_runs, runs_of, with_range, without_range};

use crate::block::Block;
use crate::blocks::two_above;
use crate::changes::{copy_runs, insert_many, remove_many};
use crate::few::{Few, copy_few, few_above, few_above_two, insert_few, remove_few};
use std::alloc::{AllocError, AllocFailed, Global};
use std::marker::Model;

mod bits;
mod block;
mod blocks;
mod changes;
mod few;
pub mod laws;
mod maybe_number;
mod room;

pub use bits::{lowest_bit, with_bit};
pub use maybe_number::MaybeNumber;
pub use room::reserve;

/// Memory was refused, and nothing changed.
#[derive(Clone, Copy, Debug, PartialEq, Eq)]
pub struct NoMemory;

impl From<AllocError> for NoMemory {
    fn from(_error: AllocError) -> Self {
        NoMemory
    }
}

impl<T: Drop> From<AllocFailed<T>> for NoMemory {
    fn from(_error: AllocFailed<T>) -> Self {
        NoMemory
    }
}

/// A set of numbers below 2^62, as its longest runs in rising order: two at most in the value itself, and more in blocks, which only a set
/// with gaps pays for.
#[derive(Drop)]
pub struct RangeSet {
    few: Few,
    blocks: Vec<Block>,
}

impl Model for RangeSet {
    ghost use Rattle.std.specs.Prelude.{All, ◌≤◌, ◌^◌};
    ghost use Rattle.std.specs.FinSet as set;
    ghost use Rattle.std.specs.Coded.{coded_ℕ};
    ghost use Rattle.qs_ranges.specs.Numbers.{NumberSet};
    ghost use Rattle.qs_ranges.specs.Runs.{AreApart, set_of};
    ghost use Rattle.qs_ranges.specs.Blocks.{AreMany, IsCounted, runs_of};

    ghost Value = { NumberSet };

    ghost coded = { set.code coded_ℕ };

    ghost view = { λ a. set_of (runs_of a.blocks.items a.few) };

    ghost invariant = { λ a. AreApart (runs_of a.blocks.items a.few) × All (λ run. run.1 ≤ 2 ^ 62) (runs_of a.blocks.items a.few) × AreMany a.blocks.items × IsCounted a.blocks.items a.few };
}

impl RangeSet {
    /// The empty set. It takes no memory, so what has one needs no way to fail.
    pub fn new(alloc: Global) -> Self
        ensures { result ≡ set.empty }
    {
        Self {
            few: Few::InBlocks(0),
            blocks: Vec::new(alloc),
        }
    }

    /// The set of all numbers below `n`. It takes no memory: it stands for a set whose members aren't worth keeping apart any more.
    pub fn below(alloc: Global, n: u64) -> Self
        requires { n ≤ 2 ^ 62 }
        ensures { result ≡ numbers 0 n }
    {
        let few = if n > 0 {
            Few::One((0, n))
        } else {
            Few::InBlocks(0)
        };
        Self {
            few,
            blocks: Vec::new(alloc),
        }
    }

    /// Adds the numbers from `lo` on and below `hi`; an empty range changes nothing. `NoMemory` leaves the set as it was.
    ///
    /// Constant time at or past the end of the set, where packet numbers and bytes in order go; elsewhere two searches and moves within
    /// blocks.
    pub fn insert(&mut self, lo: u64, hi: u64) -> Result<(), NoMemory>
        requires ordered { lo ≤ hi }
        requires within { hi ≤ 2 ^ 62 }
        ensures ok { OnOk result (self.new ≡ set.union self.old (numbers lo hi)) }
        ensures err { OnErr result (self.new ≡ self.old) }

        // Memory is taken only for a range that touches no member, of a set of two runs or more. So what fills a gap, or repeats, is never
        // refused.
        ensures touches_none { OnErr result (MissesRange self.old (lo - 1) (hi + 1)) }
        ensures two { OnErr result (1 < set.len (run_starts self.old)) }
    {
        if lo == hi {
            return Ok(());
        }
        if self.blocks.is_empty() {
            return insert_few(&mut self.few, &mut self.blocks, lo, hi);
        }
        insert_many(&mut self.few, &mut self.blocks, lo, hi)
    }

    /// Takes out the numbers from `lo` on and below `hi`; an empty range changes nothing. `NoMemory` leaves the set as it was.
    pub fn remove(&mut self, lo: u64, hi: u64) -> Result<(), NoMemory>
        requires ordered { lo ≤ hi }
        requires within { hi ≤ 2 ^ 62 }
        ensures ok { OnOk result (self.new ≡ set.difference self.old (numbers lo hi)) }
        ensures err { OnErr result (self.new ≡ self.old) }

        // Memory is taken only for a range strictly inside a run, which it cuts in two.
        ensures inside { OnErr result ((0 < lo) × ContainsRange self.old (lo - 1) (hi + 1)) }
    {
        if lo == hi {
            return Ok(());
        }
        if self.blocks.is_empty() {
            return remove_few(&mut self.few, &mut self.blocks, lo, hi);
        }
        remove_many(&mut self.few, &mut self.blocks, lo, hi)
    }

    /// Takes out the numbers below `n`, without memory. Constant time up to the end of the first run.
    pub fn drop_below(&mut self, n: u64)
        ensures { self.new ≡ set.difference self.old (numbers 0 n) }
    {
        self.learn_members_fit();
        let _never = self.remove(0, n.min(1 << 62));
    }

    /// Copies the longest runs of members to the slice's front, each as its first number and the one after its last, and returns how many
    /// there are. Copied, since blocks have no one slice to lend, and one vector would move all runs behind each that comes between.
    pub fn copy_pairs(&self, into: &mut [(u64, u64)]) -> usize
        requires room { set.len (run_starts self.now) ≤ length into.old }
        ensures count { result ≡ set.len (run_starts self.now) }
        ensures runs { AreRunsOf self.now (take result into.new) }
        ensures within { All (λ run. run.1 ≤ 2 ^ 62) (take result into.new) }
        ensures len { length into.new ≡ length into.old }
    {
        if self.blocks.is_empty() {
            return copy_few(self.few, into);
        }
        copy_runs(&self.blocks, into)
    }

    pub fn has(&self, n: u64) -> bool
        ensures { result ≡ set.contains self.now n }
    {
        if !self.blocks.is_empty() {
            return self.has_in_blocks(n);
        }
        match self.few {
            Few::InBlocks(_) => false,
            Few::One(run) => run.0 <= n && n < run.1,
            Few::Two(_, high) if high.0 <= n => n < high.1,
            Few::Two(low, _) => low.0 <= n && n < low.1,
        }
    }

    /// Whether each number from `lo` on and below `hi` is a member, as it is of an empty range.
    pub fn covers(&self, lo: u64, hi: u64) -> bool
        ensures { IsTrue result ↔ ContainsRange self.now lo hi }
    {
        if lo >= hi {
            return true;
        }
        matches!(self.run_above(lo), Some((start, end)) if start <= lo && hi <= end)
    }

    pub fn first(&self) -> Option<u64>
        ensures found { IfSome result (IsLeastFrom self.now 0) }
        ensures empty { IfNone result (self.now ≡ set.empty) }
        ensures within { IfSome result (λ n. n < 2 ^ 62) }
    {
        let (start, _) = self.run_from(0)?;
        Some(start)
    }

    /// The lowest run of members at or above `n`: its first number, and the number after its last.
    pub fn run_from(&self, n: u64) -> Option<(u64, u64)>
        ensures found { IfSome result (IsRunFrom self.now n) }
        ensures none { IfNone result (EndsBefore self.now n) }
        ensures within { IfSome result (λ run. run.1 ≤ 2 ^ 62) }
    {
        let (start, end) = self.run_above(n)?;
        Some((start.max(n), end))
    }

    /// The least number at or above `n` that is not a member.
    pub fn first_missing(&self, n: u64) -> u64
        ensures missing { IsLeastMissingFrom self.now n result }
        ensures within { result ≤ max n (2 ^ 62) }
    {
        match self.run_above(n) {
            Some((start, end)) if start <= n => end,
            _ => n,
        }
    }

    /// The first gap from `lo` on and below `hi`: its first missing number, and the next member or `hi`. `None` if no number is missing.
    /// One search gives both edges, and bytes are copied gap by gap.
    pub fn first_gap(&self, lo: u64, hi: u64) -> Option<(u64, u64)>
        ensures found { IfSome result (IsFirstGap self.now lo hi) }
        ensures full { IfNone result (ContainsRange self.now lo hi) }
    {
        if lo >= hi {
            return None;
        }
        let (first, next) = self.runs_above(lo);
        let Some((start, end)) = first else {
            return Some((lo, hi));
        };
        if lo < start {
            return Some((lo, start.min(hi)));
        }
        if hi <= end {
            return None;
        }
        match next {
            Some((start, _)) if start < hi => Some((end, start)),
            _ => Some((end, hi)),
        }
    }

    /// How many runs there are: members whose predecessor isn't one. Constant time, as it is asked after each frame.
    pub fn count(&self) -> usize
        ensures value { result ≡ set.len (run_starts self.now) }
        ensures within { result ≤ end_of self.now }
    {
        match self.few {
            Few::InBlocks(count) => count,
            Few::One(_) => 1,
            Few::Two(_, _) => 2,
        }
    }

    /// Every member is below 2^62. It does nothing: a proof calls it for what it ensures.
    pub fn learn_members_fit(&self)
        ensures { AllBelow self.now (2 ^ 62) }
    {
        let _few = &self.few;
    }

    fn has_in_blocks(&self, n: u64) -> bool
        ensures { result ≡ set.contains self.now n }
    {
        matches!(self.run_above(n), Some((start, _)) if start <= n)
    }

    fn run_above(&self, n: u64) -> Option<(u64, u64)>
        ensures found { IfSome result (IsRunAbove self.now n) }
        ensures none { IfNone result (EndsBefore self.now n) }
        ensures within { IfSome result (λ run. run.1 ≤ 2 ^ 62) }
    {
        if self.blocks.is_empty() {
            return few_above(self.few, n);
        }
        if n >= 1 << 62 {
            return None;
        }
        let (first, _) = two_above(&self.blocks, n);
        first
    }

    fn runs_above(&self, n: u64) -> (Option<(u64, u64)>, Option<(u64, u64)>)
        ensures found { IfSome result.0 (IsRunAbove self.now n) }
        ensures none { IfNone result.0 (EndsBefore self.now n) }
        ensures next { IfSome result.0 (λ run. IfSome result.1 (IsRunAbove self.now run.1)) }
        ensures last { IfSome result.0 (λ run. IfNone result.1 (EndsBefore self.now run.1)) }
    {
        if self.blocks.is_empty() {
            return few_above_two(self.few, n);
        }
        if n >= 1 << 62 {
            return (None, None);
        }
        two_above(&self.blocks, n)
    }
}
