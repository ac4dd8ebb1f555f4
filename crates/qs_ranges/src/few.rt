//! Sets of two runs at most. Nearly every set is one, as of a stream with one gap: it stands in the value and takes no memory.
ghost use Rattle.std.specs.Prelude.{◌≡◌, ℕ, ◌+◌, ◌-◌, ◌^◌, ◌≤◌, ◌<◌, All, OnOk, OnErr, IfSome, IfNone, false, true, [], ◌∷◌, length, take};
ghost use Rattle.qs_ranges.specs.Runs.{AreApart, has_number};
ghost use Rattle.qs_ranges.specs.Blocks.{AreMany, IsCounted, IsEdit, few_count, few_runs, first_run_above, runs_of, with_range, without_range};
ghost use Rattle.qs_ranges.specs.declared.few.Few.TheVariants as kinds;

use crate::NoMemory;
use crate::block::Block;

/// More runs are in blocks, and then the value keeps their count, so that asking for it costs no walk.
#[derive(Clone, Copy, Drop)]
pub(crate) enum Few {
    InBlocks(usize),
    One((u64, u64)),
    Two((u64, u64), (u64, u64)),
}

/// Only a third run needs memory.
#[inline(always)]
pub(crate) fn insert_few(
    few: &mut Few,
    blocks: &mut Vec<Block>,
    lo: u64,
    hi: u64,
) -> Result<(), NoMemory>
    requires none { blocks.old.items ≡ [] }
    requires apart { AreApart (few_runs few.old) }
    requires bound { All (λ run. run.1 ≤ 2 ^ 62) (few_runs few.old) }
    requires some { lo < hi }
    requires within { hi ≤ 2 ^ 62 }
    ensures ok { OnOk result (IsEdit (runs_of blocks.new.items few.new) (2 ^ 62) (with_range (few_runs few.old) lo hi)) }
    ensures err { OnErr result (runs_of blocks.new.items few.new ≡ few_runs few.old) }
    ensures touches_none { OnErr result ((n : ℕ) → lo - 1 ≤ n → n < hi + 1 → has_number (few_runs few.old) n ≡ false) }
    ensures two { OnErr result (1 < length (few_runs few.old)) }
    ensures many { AreMany blocks.new.items }
    ensures counted { IsCounted blocks.new.items few.new }
{
    match *few {
        Few::InBlocks(_) => *few = Few::One((lo, hi)),
        Few::One(run) if run.1 < lo => *few = Few::Two(run, (lo, hi)),
        Few::One(run) if hi < run.0 => *few = Few::Two((lo, hi), run),
        Few::One(run) => *few = Few::One((run.0.min(lo), run.1.max(hi))),
        Few::Two(low, high) => return add_to_two(few, blocks, low, high, lo, hi),
    }
    Ok(())
}

fn add_to_two(
    few: &mut Few,
    blocks: &mut Vec<Block>,
    low: (u64, u64),
    high: (u64, u64),
    lo: u64,
    hi: u64,
) -> Result<(), NoMemory>
    requires none { blocks.old.items ≡ [] }
    requires two { few.old ≡ kinds.Two low high }
    requires apart { AreApart (low ∷ high ∷ []) }
    requires low_bound { low.1 ≤ 2 ^ 62 }
    requires high_bound { high.1 ≤ 2 ^ 62 }
    requires some { lo < hi }
    requires within { hi ≤ 2 ^ 62 }
    ensures ok { OnOk result (IsEdit (runs_of blocks.new.items few.new) (2 ^ 62) (with_range (low ∷ high ∷ []) lo hi)) }
    ensures err { OnErr result (runs_of blocks.new.items few.new ≡ low ∷ high ∷ []) }
    ensures touches_none { OnErr result ((n : ℕ) → lo - 1 ≤ n → n < hi + 1 → has_number (low ∷ high ∷ []) n ≡ false) }
    ensures many { AreMany blocks.new.items }
    ensures counted { IsCounted blocks.new.items few.new }
{
    if low.1 < lo {
        if high.1 < lo {
            return put_three(few, blocks, low, high, (lo, hi));
        }
        if hi < high.0 {
            return put_three(few, blocks, low, (lo, hi), high);
        }
        *few = Few::Two(low, (high.0.min(lo), high.1.max(hi)));
        return Ok(());
    }
    if hi < low.0 {
        return put_three(few, blocks, (lo, hi), low, high);
    }
    if hi < high.0 {
        *few = Few::Two((low.0.min(lo), low.1.max(hi)), high);
        return Ok(());
    }
    *few = Few::One((low.0.min(lo), high.1.max(hi)));
    Ok(())
}

/// Only a third run needs memory: one that is cut in two.
pub(crate) fn remove_few(
    few: &mut Few,
    blocks: &mut Vec<Block>,
    lo: u64,
    hi: u64,
) -> Result<(), NoMemory>
    requires none { blocks.old.items ≡ [] }
    requires apart { AreApart (few_runs few.old) }
    requires bound { All (λ run. run.1 ≤ 2 ^ 62) (few_runs few.old) }
    requires some { lo < hi }
    requires within { hi ≤ 2 ^ 62 }
    ensures ok { OnOk result (IsEdit (runs_of blocks.new.items few.new) (2 ^ 62) (without_range (few_runs few.old) lo hi)) }
    ensures err { OnErr result (runs_of blocks.new.items few.new ≡ few_runs few.old) }
    ensures inside { OnErr result ((0 < lo) × ((n : ℕ) → lo - 1 ≤ n → n < hi + 1 → has_number (few_runs few.old) n ≡ true)) }
    ensures many { AreMany blocks.new.items }
    ensures counted { IsCounted blocks.new.items few.new }
{
    match *few {
        Few::InBlocks(_) => *few = Few::InBlocks(0),
        Few::One(run) => *few = without_range_of(run, lo, hi),
        Few::Two(low, high) => return take_from_two(few, blocks, low, high, lo, hi),
    }
    Ok(())
}

fn without_range_of(run: (u64, u64), lo: u64, hi: u64) -> Few
    requires nonempty { run.0 < run.1 }
    requires bound { run.1 ≤ 2 ^ 62 }
    requires some { lo < hi }
    ensures edit { IsEdit (few_runs result) (2 ^ 62) (without_range (run ∷ []) lo hi) }
    ensures counted { few_count result ≡ length (few_runs result) }
{
    let (start, end) = run;
    if end <= lo || hi <= start {
        return Few::One(run);
    }
    match (start < lo, hi < end) {
        (false, false) => Few::InBlocks(0),
        (true, false) => Few::One((start, lo)),
        (false, true) => Few::One((hi, end)),
        (true, true) => Few::Two((start, lo), (hi, end)),
    }
}

#[inline(never)]
fn take_from_two(
    few: &mut Few,
    blocks: &mut Vec<Block>,
    low: (u64, u64),
    high: (u64, u64),
    lo: u64,
    hi: u64,
) -> Result<(), NoMemory>
    requires none { blocks.old.items ≡ [] }
    requires two { few.old ≡ kinds.Two low high }
    requires apart { AreApart (low ∷ high ∷ []) }
    requires low_bound { low.1 ≤ 2 ^ 62 }
    requires high_bound { high.1 ≤ 2 ^ 62 }
    requires some { lo < hi }
    ensures ok { OnOk result (IsEdit (runs_of blocks.new.items few.new) (2 ^ 62) (without_range (low ∷ high ∷ []) lo hi)) }
    ensures err { OnErr result (runs_of blocks.new.items few.new ≡ low ∷ high ∷ []) }
    ensures inside { OnErr result ((0 < lo) × ((n : ℕ) → lo - 1 ≤ n → n < hi + 1 → has_number (low ∷ high ∷ []) n ≡ true)) }
    ensures many { AreMany blocks.new.items }
    ensures counted { IsCounted blocks.new.items few.new }
{
    if hi <= high.0 {
        return take_from_low(few, blocks, low, high, lo, hi);
    }
    if low.1 <= lo {
        return take_from_high(few, blocks, low, high, lo, hi);
    }
    match (low.0 < lo, hi < high.1) {
        (false, false) => *few = Few::InBlocks(0),
        (true, false) => *few = Few::One((low.0, lo)),
        (false, true) => *few = Few::One((hi, high.1)),
        (true, true) => *few = Few::Two((low.0, lo), (hi, high.1)),
    }
    Ok(())
}

fn take_from_low(
    few: &mut Few,
    blocks: &mut Vec<Block>,
    low: (u64, u64),
    high: (u64, u64),
    lo: u64,
    hi: u64,
) -> Result<(), NoMemory>
    requires none { blocks.old.items ≡ [] }
    requires two { few.old ≡ kinds.Two low high }
    requires apart { AreApart (low ∷ high ∷ []) }
    requires low_bound { low.1 ≤ 2 ^ 62 }
    requires high_bound { high.1 ≤ 2 ^ 62 }
    requires some { lo < hi }
    requires below { hi ≤ high.0 }
    ensures ok { OnOk result (IsEdit (runs_of blocks.new.items few.new) (2 ^ 62) (without_range (low ∷ high ∷ []) lo hi)) }
    ensures err { OnErr result (runs_of blocks.new.items few.new ≡ low ∷ high ∷ []) }
    ensures inside { OnErr result ((0 < lo) × ((n : ℕ) → lo - 1 ≤ n → n < hi + 1 → has_number (low ∷ high ∷ []) n ≡ true)) }
    ensures many { AreMany blocks.new.items }
    ensures counted { IsCounted blocks.new.items few.new }
{
    if hi <= low.0 || low.1 <= lo {
        return Ok(());
    }
    match (low.0 < lo, hi < low.1) {
        (false, false) => *few = Few::One(high),
        (true, false) => *few = Few::Two((low.0, lo), high),
        (false, true) => *few = Few::Two((hi, low.1), high),
        (true, true) => return put_three(few, blocks, (low.0, lo), (hi, low.1), high),
    }
    Ok(())
}

fn take_from_high(
    few: &mut Few,
    blocks: &mut Vec<Block>,
    low: (u64, u64),
    high: (u64, u64),
    lo: u64,
    hi: u64,
) -> Result<(), NoMemory>
    requires none { blocks.old.items ≡ [] }
    requires two { few.old ≡ kinds.Two low high }
    requires apart { AreApart (low ∷ high ∷ []) }
    requires low_bound { low.1 ≤ 2 ^ 62 }
    requires high_bound { high.1 ≤ 2 ^ 62 }
    requires some { lo < hi }
    requires above { low.1 ≤ lo }
    ensures ok { OnOk result (IsEdit (runs_of blocks.new.items few.new) (2 ^ 62) (without_range (low ∷ high ∷ []) lo hi)) }
    ensures err { OnErr result (runs_of blocks.new.items few.new ≡ low ∷ high ∷ []) }
    ensures inside { OnErr result ((0 < lo) × ((n : ℕ) → lo - 1 ≤ n → n < hi + 1 → has_number (low ∷ high ∷ []) n ≡ true)) }
    ensures many { AreMany blocks.new.items }
    ensures counted { IsCounted blocks.new.items few.new }
{
    if hi <= high.0 || high.1 <= lo {
        return Ok(());
    }
    match (high.0 < lo, hi < high.1) {
        (false, false) => *few = Few::One(low),
        (true, false) => *few = Few::Two(low, (high.0, lo)),
        (false, true) => *few = Few::Two(low, (hi, high.1)),
        (true, true) => return put_three(few, blocks, low, (high.0, lo), (hi, high.1)),
    }
    Ok(())
}

// The value changes last: if memory is refused, the set is as it was.
fn put_three(
    few: &mut Few,
    blocks: &mut Vec<Block>,
    low: (u64, u64),
    middle: (u64, u64),
    high: (u64, u64),
) -> Result<(), NoMemory>
    requires none { blocks.old.items ≡ [] }
    requires counted { few_count few.old ≡ length (few_runs few.old) }
    ensures ok { OnOk result (blocks.new.items ≡ (low ∷ middle ∷ high ∷ []) ∷ []) }
    ensures err { OnErr result (runs_of blocks.new.items few.new ≡ few_runs few.old) }
    ensures many { AreMany blocks.new.items }
    ensures counted { IsCounted blocks.new.items few.new }
{
    let mut block = Block::of(*blocks.allocator(), low)?;
    block.insert(1, middle)?;
    block.insert(2, high)?;
    blocks.push(block)?;
    *few = Few::InBlocks(3);
    Ok(())
}

pub(crate) fn few_of(block: &Block) -> Option<Few>
    ensures few { IfSome result (λ few. few_runs few ≡ block.now) }
    ensures counted { IfSome result (λ few. few_count few ≡ length block.now) }
    ensures many { IfNone result (2 < length block.now) }
{
    match block.len() {
        1 => Some(Few::One(block.run(0))),
        2 => Some(Few::Two(block.run(0), block.run(1))),
        _ => None,
    }
}

pub(crate) fn few_above(few: Few, n: u64) -> Option<(u64, u64)>
    ensures { result ≡ first_run_above n (few_runs few) }
{
    let run = match few {
        Few::InBlocks(_) => return None,
        Few::One(run) => run,
        Few::Two(low, high) => { if n < low.1 { low } else { high } }
    };
    one_above(run, n)
}

fn one_above(run: (u64, u64), n: u64) -> Option<(u64, u64)>
    ensures { result ≡ first_run_above n (run ∷ []) }
{
    if n < run.1 { Some(run) } else { None }
}

pub(crate) fn few_above_two(few: Few, n: u64) -> (Option<(u64, u64)>, Option<(u64, u64)>)
    requires apart { AreApart (few_runs few) }
    ensures first { result.0 ≡ first_run_above n (few_runs few) }
    ensures next { IfSome result.0 (λ run. result.1 ≡ first_run_above run.1 (few_runs few)) }
{
    match few {
        Few::InBlocks(_) => (None, None),
        Few::One(run) => (one_above(run, n), None),
        Few::Two(low, high) => {
            if n < low.1 {
                return (Some(low), Some(high));
            }
            (one_above(high, n), None)
        }
    }
}

pub(crate) fn copy_few(few: Few, into: &mut [(u64, u64)]) -> usize
    requires { length (few_runs few) ≤ length into.old }
    ensures count { result ≡ length (few_runs few) }
    ensures runs { take result into.new ≡ few_runs few }
    ensures len { length into.new ≡ length into.old }
{
    match few {
        Few::InBlocks(_) => 0,
        Few::One(run) => {
            into[0] = run;
            1
        }
        Few::Two(low, high) => {
            into[0] = low;
            into[1] = high;
            2
        }
    }
}

pub(crate) fn count_few(few: Few) -> usize
    ensures { result ≡ few_count few }
{
    match few {
        Few::InBlocks(count) => count,
        Few::One(_) => 1,
        Few::Two(_, _) => 2,
    }
}
