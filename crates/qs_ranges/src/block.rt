//! Some neighbouring runs in one piece of memory.
ghost use Rattle.std.specs.Prelude.{◌≡◌, ◌⊎◌, ℕ, ◌+◌, ◌-◌, ◌/◌, ◌<◌, ◌≤◌, [], ◌∷◌, ◌++◌, length, take, drop, slice_index_or, vec_len, IfOk, OnOk, OnErr};
ghost use Rattle.qs_ranges.specs.Runs.{end_at, start_at};

use crate::NoMemory;
use std::alloc::Global;
use std::marker::Model;

/// What a run that comes or goes may move is bounded by it, so that no order of arrival makes a set slow. A tree would take more memory and
/// more steps for the few runs that a stream has.
pub(crate) const MOST_RUNS: usize = 128;

/// Never empty: a block goes with its last run.
#[derive(Drop)]
pub(crate) struct Block {
    runs: Vec<(u64, u64)>,
}

impl Model for Block {
    ghost use Rattle.std.specs.Prelude.{◌<◌, length};
    ghost use Rattle.std.specs.Coded.{coded×, coded_ℕ, coded_list};
    ghost use Rattle.qs_ranges.specs.Runs.{Runs};

    ghost Value = { Runs };

    ghost coded = { coded_list (coded× coded_ℕ coded_ℕ) };

    ghost view = { λ b. b.runs.items };

    ghost invariant = { λ b. 0 < length b.runs.items };
}

impl Block {
    pub(crate) fn of(alloc: Global, run: (u64, u64)) -> Result<Self, NoMemory>
        ensures { IfOk result (λ block. block ≡ run ∷ []) }
    {
        let mut runs = Vec::new(alloc);
        runs.push(run)?;
        Ok(Block { runs })
    }

    pub(crate) fn len(&self) -> usize
        ensures value { result ≡ length self.now }
        ensures some { 0 < length self.now }
    {
        self.runs.len()
    }

    pub(crate) fn run(&self, at: usize) -> (u64, u64)
        requires { at < length self.now }
        ensures { result ≡ slice_index_or self.now at (0, 0) }
    {
        self.runs[at]
    }

    pub(crate) fn first(&self) -> (u64, u64)
        ensures value { result ≡ slice_index_or self.now 0 (0, 0) }
        ensures some { 0 < length self.now }
    {
        self.runs[0]
    }

    pub(crate) fn last(&self) -> (u64, u64)
        ensures value { result ≡ slice_index_or self.now (length self.now - 1) (0, 0) }
        ensures some { 0 < length self.now }
    {
        self.runs[self.runs.len() - 1]
    }

    pub(crate) fn end_from(&self, low: u64) -> usize
        ensures some { 0 < length self.now }
        ensures within { result ≤ length self.now }
        ensures before { 0 < result → end_at self.now (result - 1) < low }
        ensures behind { result < length self.now → low ≤ end_at self.now result }
    {
        let mut from = 0;
        let mut to = self.runs.len();
        while from < to {
            let middle = from + (to - from) / 2;
            if self.runs[middle].1 < low {
                from = middle + 1;
            } else {
                to = middle;
            }
        }
        from
    }

    pub(crate) fn start_behind(&self, at: usize, high: u64) -> usize
        requires at { at < length self.now }
        requires start { start_at self.now at < high }
        ensures from { at < result }
        ensures within { result ≤ length self.now }
        ensures before { start_at self.now (result - 1) < high }
        ensures behind { result < length self.now → high ≤ start_at self.now result }
    {
        let mut to = self.runs.len();
        let mut from = at + 1;
        while from < to {
            let middle = from + (to - from) / 2;
            if self.runs[middle].0 < high {
                from = middle + 1;
            } else {
                to = middle;
            }
        }
        from
    }

    pub(crate) fn replace(&mut self, from: usize, to: usize, run: (u64, u64))
        requires nonempty { from < to }
        requires in_bounds { to ≤ length self.old }
        ensures { self.new ≡ take from self.old ++ run ∷ drop to self.old }
    {
        self.runs[from] = run;
        take_out(&mut self.runs, from + 1, to);
    }

    pub(crate) fn replace_by_two(
        &mut self,
        from: usize,
        to: usize,
        left: (u64, u64),
        right: (u64, u64),
    )
        requires some { from + 1 < to }
        requires in_bounds { to ≤ length self.old }
        ensures { self.new ≡ take from self.old ++ left ∷ right ∷ drop to self.old }
    {
        self.replace(to - 1, to, right);
        self.replace(from, to - 1, left);
    }

    pub(crate) fn split(
        &mut self,
        at: usize,
        left: (u64, u64),
        right: (u64, u64),
    ) -> Result<(), NoMemory>
        requires { at < length self.old }
        ensures ok { OnOk result (self.new ≡ take at self.old ++ left ∷ right ∷ drop (at + 1) self.old) }
        ensures err { OnErr result (self.new ≡ self.old) }
    {
        self.runs.insert(at + 1, right)?;
        self.runs[at] = left;
        Ok(())
    }

    pub(crate) fn take_out(&mut self, from: usize, to: usize)
        requires ordered { from ≤ to }
        requires in_bounds { to ≤ length self.old }
        requires rest { 0 < from + (length self.old - to) }
        ensures { self.new ≡ take from self.old ++ drop to self.old }
    {
        take_out(&mut self.runs, from, to);
    }

    pub(crate) fn insert(&mut self, at: usize, run: (u64, u64)) -> Result<(), NoMemory>
        requires { at ≤ length self.old }
        ensures ok { OnOk result (self.new ≡ take at self.old ++ run ∷ drop at self.old) }
        ensures err { OnErr result (self.new ≡ self.old) }
    {
        self.runs.insert(at, run)?;
        Ok(())
    }

    pub(crate) fn copy_from(&self, alloc: Global, from: usize) -> Result<Self, NoMemory>
        requires { from < length self.now }
        ensures { IfOk result (λ block. block ≡ drop from self.now) }
    {
        let mut runs = Vec::with_capacity(alloc, MOST_RUNS)?;
        runs.extend_from_slice(&self.runs[from..])?;
        Ok(Block { runs })
    }

    pub(crate) fn copy_to(&self, into: &mut [(u64, u64)])
        requires { length into.old ≡ length self.now }
        ensures { into.new ≡ self.now }
    {
        into.copy_from_slice(&self.runs);
    }
}

// One move of those behind, where one removal for each would move them as often as runs go.
fn take_out(runs: &mut Vec<(u64, u64)>, from: usize, to: usize)
    requires ordered { from ≤ to }
    requires in_bounds { to ≤ vec_len runs.old }
    ensures { runs.new.items ≡ take from runs.old.items ++ drop to runs.old.items }
{
    if from < to {
        let kept = runs.len() - (to - from);
        runs.copy_within(to.., from);
        runs.truncate(kept);
    }
}
