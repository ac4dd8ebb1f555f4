//! Sets of more than two runs, in blocks.
ghost use Rattle.std.specs.Prelude.{◌≡◌, ℕ, ◌+◌, ◌-◌, ◌^◌, ◌≤◌, ◌<◌, All, Option, None, IfOk, OnOk, OnErr, false, true, [], ◌∷◌, ◌++◌, length, take, drop};
ghost use Rattle.qs_ranges.specs.Runs.{AreApart, has_number};
ghost use Rattle.qs_ranges.specs.Blocks.{AreMany, IsCounted, IsEdit, all_runs, few_count, runs_of, with_range, without_range};

use crate::NoMemory;
use crate::block::Block;
use crate::blocks::{insert_at, replace, runs_in, span_of, split, take_out};
use crate::few::{Few, count_few, few_of};

#[inline(never)]
pub(crate) fn insert_many(
    few: &mut Few,
    blocks: &mut Vec<Block>,
    lo: u64,
    hi: u64,
) -> Result<(), NoMemory>
    requires apart { AreApart (all_runs blocks.old.items) }
    requires bound { All (λ run. run.1 ≤ 2 ^ 62) (all_runs blocks.old.items) }
    requires many { 1 < length (all_runs blocks.old.items) }
    requires counted { few_count few.old ≡ length (all_runs blocks.old.items) }
    requires some { lo < hi }
    requires within { hi ≤ 2 ^ 62 }
    ensures ok { OnOk result (IsEdit (runs_of blocks.new.items few.new) (2 ^ 62) (with_range (all_runs blocks.old.items) lo hi)) }
    ensures err { OnErr result (runs_of blocks.new.items few.new ≡ all_runs blocks.old.items) }
    ensures touches_none { OnErr result ((n : ℕ) → lo - 1 ≤ n → n < hi + 1 → has_number (all_runs blocks.old.items) n ≡ false) }
    ensures many { AreMany blocks.new.items }
    ensures counted { IsCounted blocks.new.items few.new }
{
    let count = count_few(*few);
    if lengthen_last(blocks, lo, hi) {
        *few = Few::InBlocks(count);
        return Ok(());
    }
    insert_anywhere(few, blocks, lo, hi)
}

// Packet numbers mostly rise by one, so the last run gets longer most often: tried first, for it searches nothing and moves nothing.
#[inline]
fn lengthen_last(blocks: &mut Vec<Block>, lo: u64, hi: u64) -> bool
    requires apart { AreApart (all_runs blocks.old.items) }
    requires bound { All (λ run. run.1 ≤ 2 ^ 62) (all_runs blocks.old.items) }
    requires some { lo < hi }
    requires within { hi ≤ 2 ^ 62 }
    ensures longer { result ≡ true → IsEdit (all_runs blocks.new.items) (2 ^ 62) (with_range (all_runs blocks.old.items) lo hi) }
    ensures same { result ≡ false → blocks.new.items ≡ blocks.old.items }
    ensures count { length (all_runs blocks.new.items) ≡ length (all_runs blocks.old.items) }
{
    let count = blocks.len();
    if count == 0 {
        return false;
    }
    let at = blocks[count - 1].len() - 1;
    let (start, end) = blocks[count - 1].run(at);
    if lo <= start || end < lo {
        return false;
    }
    blocks[count - 1].replace(at, at + 1, (start, hi.max(end)));
    true
}

fn insert_anywhere(few: &mut Few, blocks: &mut Vec<Block>, lo: u64, hi: u64) -> Result<(), NoMemory>
    requires apart { AreApart (all_runs blocks.old.items) }
    requires bound { All (λ run. run.1 ≤ 2 ^ 62) (all_runs blocks.old.items) }
    requires many { 1 < length (all_runs blocks.old.items) }
    requires counted { few_count few.old ≡ length (all_runs blocks.old.items) }
    requires some { lo < hi }
    requires within { hi ≤ 2 ^ 62 }
    ensures ok { OnOk result (IsEdit (runs_of blocks.new.items few.new) (2 ^ 62) (with_range (all_runs blocks.old.items) lo hi)) }
    ensures err { OnErr result (runs_of blocks.new.items few.new ≡ all_runs blocks.old.items) }
    ensures touches_none { OnErr result ((n : ℕ) → lo - 1 ≤ n → n < hi + 1 → has_number (all_runs blocks.old.items) n ≡ false) }
    ensures many { AreMany blocks.new.items }
    ensures counted { IsCounted blocks.new.items few.new }
{
    let count = count_few(*few);
    *few = Few::InBlocks(count);
    let span = span_of(blocks, lo, hi + 1);
    if !span.some {
        insert_at(blocks, span.block, span.from, (lo, hi))?;
        *few = Few::InBlocks(count + 1);
        return Ok(());
    }
    let gone = runs_in(blocks, span);
    let start = blocks[span.block].run(span.from).0;
    let end = blocks[span.last].run(span.to - 1).1;
    replace(blocks, span, (lo.min(start), hi.max(end)));
    settle(few, blocks, count - gone + 1);
    Ok(())
}

#[inline(never)]
pub(crate) fn remove_many(
    few: &mut Few,
    blocks: &mut Vec<Block>,
    lo: u64,
    hi: u64,
) -> Result<(), NoMemory>
    requires apart { AreApart (all_runs blocks.old.items) }
    requires bound { All (λ run. run.1 ≤ 2 ^ 62) (all_runs blocks.old.items) }
    requires counted { few_count few.old ≡ length (all_runs blocks.old.items) }
    requires some { lo < hi }
    requires within { hi ≤ 2 ^ 62 }
    ensures ok { OnOk result (IsEdit (runs_of blocks.new.items few.new) (2 ^ 62) (without_range (all_runs blocks.old.items) lo hi)) }
    ensures err { OnErr result (runs_of blocks.new.items few.new ≡ all_runs blocks.old.items) }
    ensures inside { OnErr result ((0 < lo) × ((n : ℕ) → lo - 1 ≤ n → n < hi + 1 → has_number (all_runs blocks.old.items) n ≡ true)) }
    ensures many { AreMany blocks.new.items }
    ensures counted { IsCounted blocks.new.items few.new }
{
    let count = count_few(*few);
    match cut_blocks(blocks, count, lo, hi) {
        Ok(left) => {
            settle(few, blocks, left);
            Ok(())
        }
        Err(refused) => {
            settle(few, blocks, count);
            Err(refused)
        }
    }
}

// Answers how many runs are left, from which the caller knows whether they go back into the value.
fn cut_blocks(blocks: &mut Vec<Block>, count: usize, lo: u64, hi: u64) -> Result<usize, NoMemory>
    requires counted { count ≡ length (all_runs blocks.old.items) }
    requires apart { AreApart (all_runs blocks.old.items) }
    requires bound { All (λ run. run.1 ≤ 2 ^ 62) (all_runs blocks.old.items) }
    requires some { lo < hi }
    requires within { hi ≤ 2 ^ 62 }
    ensures ok { OnOk result (IsEdit (all_runs blocks.new.items) (2 ^ 62) (without_range (all_runs blocks.old.items) lo hi)) }
    ensures counted { IfOk result (λ left. left ≡ length (all_runs blocks.new.items)) }
    ensures err { OnErr result (all_runs blocks.new.items ≡ all_runs blocks.old.items) }
    ensures inside { OnErr result ((0 < lo) × ((n : ℕ) → lo - 1 ≤ n → n < hi + 1 → has_number (all_runs blocks.old.items) n ≡ true)) }
{
    let span = span_of(blocks, lo + 1, hi);
    if !span.some {
        return Ok(count);
    }
    let rest = count - runs_in(blocks, span);
    let start = blocks[span.block].run(span.from).0;
    let end = blocks[span.last].run(span.to - 1).1;
    match (start < lo, hi < end) {
        (false, false) => {
            take_out(blocks, span);
            Ok(rest)
        }
        (true, false) => {
            replace(blocks, span, (start, lo));
            Ok(rest + 1)
        }
        (false, true) => {
            replace(blocks, span, (hi, end));
            Ok(rest + 1)
        }
        (true, true) => {
            split(blocks, span, (start, lo), (hi, end))?;
            Ok(rest + 2)
        }
    }
}

// At two runs or one the block is given back: a stream whose gaps were filled keeps nothing for them. Runs that come and go between two and
// three so take memory each time, which is rare.
fn settle(few: &mut Few, blocks: &mut Vec<Block>, count: usize)
    requires { count ≡ length (all_runs blocks.old.items) }
    ensures runs { runs_of blocks.new.items few.new ≡ all_runs blocks.old.items }
    ensures many { AreMany blocks.new.items }
    ensures counted { IsCounted blocks.new.items few.new }
{
    *few = Few::InBlocks(count);
    if blocks.is_empty() {
        return;
    }
    if blocks.len() > 1 {
        learn_each_has_runs(blocks);
        return;
    }
    if let Some(runs) = few_of(&blocks[0]) {
        *few = runs;
        *blocks = Vec::new(*blocks.allocator());
    }
}

// Each block has a run. It does nothing: a proof calls it for what it ensures.
fn learn_each_has_runs(blocks: &[Block])
    requires { 1 < length blocks.now }
    ensures { 1 < length (all_runs blocks.now) }
{
    let _some = (blocks[0].len(), blocks[1].len());
}

#[inline(never)]
pub(crate) fn copy_runs(blocks: &[Block], into: &mut [(u64, u64)]) -> usize
    requires { length (all_runs blocks.now) ≤ length into.old }
    ensures count { result ≡ length (all_runs blocks.now) }
    ensures runs { take result into.new ≡ all_runs blocks.now }
    ensures len { length into.new ≡ length into.old }
{
    let mut count = 0;
    for block in blocks {
        copy_block(block, into, count);
        count += block.len();
    }
    count
}

fn copy_block(block: &Block, into: &mut [(u64, u64)], at: usize)
    requires { at + length block.now ≤ length into.old }
    ensures { into.new ≡ take at into.old ++ (block.now ++ drop (at + length block.now) into.old) }
{
    let end = at + block.len();
    block.copy_to(&mut into[at..end]);
}
