//! Many runs, in blocks of neighbouring ones. What comes or goes moves the runs of its block, and the list of blocks only if a block is
//! split or goes.
ghost use Rattle.std.specs.Prelude.{◌≡◌, ℕ, ◌+◌, ◌-◌, ◌^◌, ◌≤◌, ◌<◌, false, All, OnOk, OnErr, IsTrue, IfOk, [], ◌∷◌, ◌++◌, length, take, drop, IfSome, slice_get};
ghost use Rattle.qs_ranges.specs.Runs.{AreApart, IsSpan, end_at, start_at};
ghost use Rattle.qs_ranges.specs.Blocks.{IsFirstFrom, IsFound, all_runs, block_at, first_run_above, place};

use crate::NoMemory;
use crate::block::{Block, MOST_RUNS};

/// The runs from one place on and before another. An empty span still has a place: where a run would go in.
#[derive(Clone, Copy, Drop)]
pub(crate) struct Span {
    pub some: bool,
    pub block: usize,
    pub from: usize,
    pub last: usize,
    pub to: usize,
}

/// `NoMemory` leaves the runs as they were: a block that needs room gets it before anything moves.
pub(crate) fn insert_at(
    blocks: &mut Vec<Block>,
    block: usize,
    at: usize,
    run: (u64, u64),
) -> Result<(), NoMemory>
    requires block { block ≤ length blocks.old.items }
    requires at { at ≤ length (block_at blocks.old.items block) }
    ensures ok { OnOk result (all_runs blocks.new.items
        ≡ take (place blocks.old.items block at) (all_runs blocks.old.items) ++ run ∷ drop (place blocks.old.items block at) (all_runs blocks.old.items)) }
    ensures err { OnErr result (all_runs blocks.new.items ≡ all_runs blocks.old.items) }
{
    if block == blocks.len() {
        return insert_before(blocks, block, run);
    }
    if at == 0 && blocks[block].len() == MOST_RUNS {
        return insert_before(blocks, block, run);
    }
    let (roomy, spot) = make_room(blocks, block, at)?;
    blocks[roomy].insert(spot, run)
}

pub(crate) fn replace(blocks: &mut Vec<Block>, span: Span, run: (u64, u64))
    requires { IsFound blocks.old.items span.block span.from span.last span.to }
    ensures { all_runs blocks.new.items ≡ take (place blocks.old.items span.block span.from) (all_runs blocks.old.items)
        ++ run ∷ drop (place blocks.old.items span.last span.to) (all_runs blocks.old.items) }
{
    if span.block == span.last {
        blocks[span.block].replace(span.from, span.to, run);
        return;
    }
    end_with(blocks, span.block, span.from, run);
    let last = cut_front(blocks, span.last, span.to);
    drop_blocks(blocks, span.block + 1, last);
}

/// `NoMemory` leaves the runs as they were, and comes only for one run: of two or more one makes room for the new one.
pub(crate) fn split(
    blocks: &mut Vec<Block>,
    span: Span,
    left: (u64, u64),
    right: (u64, u64),
) -> Result<(), NoMemory>
    requires { IsFound blocks.old.items span.block span.from span.last span.to }
    ensures ok { OnOk result (all_runs blocks.new.items ≡ take (place blocks.old.items span.block span.from) (all_runs blocks.old.items)
        ++ left ∷ right ∷ drop (place blocks.old.items span.last span.to) (all_runs blocks.old.items)) }
    ensures err { OnErr result (all_runs blocks.new.items ≡ all_runs blocks.old.items) }
    ensures one { OnErr result (place blocks.old.items span.block span.from + 1 ≡ place blocks.old.items span.last span.to) }
{
    if span.block < span.last {
        end_with(blocks, span.block, span.from, left);
        start_with(blocks, span.last, span.to, right);
        drop_blocks(blocks, span.block + 1, span.last);
        return Ok(());
    }
    if span.from + 1 < span.to {
        blocks[span.block].replace_by_two(span.from, span.to, left, right);
        return Ok(());
    }
    split_one(blocks, span.block, span.from, left, right)
}

/// One look at each block between, since a block knows its count.
pub(crate) fn runs_in(blocks: &[Block], span: Span) -> usize
    requires found { IsFound blocks.now span.block span.from span.last span.to }
    requires few { length (all_runs blocks.now) < 2 ^ 63 }
    ensures { place blocks.now span.block span.from + result ≡ place blocks.now span.last span.to }
{
    if span.block == span.last {
        return span.to - span.from;
    }
    let mut count = blocks[span.block].len() - span.from;
    for at in span.block + 1..span.last {
        count += blocks[at].len();
    }
    count + span.to
}

fn split_one(
    blocks: &mut Vec<Block>,
    block: usize,
    at: usize,
    left: (u64, u64),
    right: (u64, u64),
) -> Result<(), NoMemory>
    requires block { block < length blocks.old.items }
    requires at { at < length (block_at blocks.old.items block) }
    ensures ok { OnOk result (all_runs blocks.new.items ≡ take (place blocks.old.items block at) (all_runs blocks.old.items)
        ++ left ∷ right ∷ drop (place blocks.old.items block at + 1) (all_runs blocks.old.items)) }
    ensures err { OnErr result (all_runs blocks.new.items ≡ all_runs blocks.old.items) }
{
    let (roomy, spot) = make_room(blocks, block, at)?;
    blocks[roomy].split(spot, left, right)
}

pub(crate) fn take_out(blocks: &mut Vec<Block>, span: Span)
    requires { IsFound blocks.old.items span.block span.from span.last span.to }
    ensures { all_runs blocks.new.items ≡ take (place blocks.old.items span.block span.from) (all_runs blocks.old.items)
        ++ drop (place blocks.old.items span.last span.to) (all_runs blocks.old.items) }
{
    if span.block < span.last {
        let first = cut_back(blocks, span.block, span.from);
        let last = cut_front(blocks, span.last, span.to);
        drop_blocks(blocks, first, last);
        return;
    }
    if span.from == 0 && span.to == blocks[span.block].len() {
        drop_blocks(blocks, span.block, span.block + 1);
        return;
    }
    blocks[span.block].take_out(span.from, span.to);
}

// Behind the runs of the block before, while that isn't full: so runs that come in order fill their blocks, and a full block at the end
// stays full.
#[inline(always)]
fn insert_before(blocks: &mut Vec<Block>, block: usize, run: (u64, u64)) -> Result<(), NoMemory>
    requires { block ≤ length blocks.old.items }
    ensures ok { OnOk result (all_runs blocks.new.items
        ≡ take (place blocks.old.items block 0) (all_runs blocks.old.items) ++ run ∷ drop (place blocks.old.items block 0) (all_runs blocks.old.items)) }
    ensures err { OnErr result (all_runs blocks.new.items ≡ all_runs blocks.old.items) }
{
    if block > 0 {
        let len = blocks[block - 1].len();
        if len < MOST_RUNS {
            return blocks[block - 1].insert(len, run);
        }
    }
    let own = Block::of(*blocks.allocator(), run)?;
    blocks.insert(block, own)?;
    Ok(())
}

// A full block is split into two halves, so that the next runs beside it find room. `NoMemory` leaves the runs as they were.
fn make_room(blocks: &mut Vec<Block>, block: usize, at: usize) -> Result<(usize, usize), NoMemory>
    requires block { block < length blocks.old.items }
    requires at { at ≤ length (block_at blocks.old.items block) }
    ensures same { all_runs blocks.new.items ≡ all_runs blocks.old.items }
    ensures place { IfOk result (λ spot. place blocks.new.items spot.0 spot.1 ≡ place blocks.old.items block at) }
    ensures block { IfOk result (λ spot. spot.0 < length blocks.new.items) }
    ensures at { IfOk result (λ spot. spot.1 ≤ length (block_at blocks.new.items spot.0)) }
    ensures before { IfOk result (λ spot. at < length (block_at blocks.old.items block) → spot.1 < length (block_at blocks.new.items spot.0)) }
{
    let len = blocks[block].len();
    if len < MOST_RUNS {
        return Ok((block, at));
    }
    let half = len / 2;
    let upper = blocks[block].copy_from(*blocks.allocator(), half)?;
    blocks.insert(block + 1, upper)?;
    blocks[block].take_out(half, len);
    if at < half {
        return Ok((block, at));
    }
    Ok((block + 1, at - half))
}

fn end_with(blocks: &mut Vec<Block>, block: usize, from: usize, run: (u64, u64))
    requires block { block < length blocks.old.items }
    requires from { from < length (block_at blocks.old.items block) }
    ensures before { all_runs (take (block + 1) blocks.new.items)
        ≡ all_runs (take block blocks.old.items) ++ (take from (block_at blocks.old.items block) ++ run ∷ []) }
    ensures behind { drop (block + 1) blocks.new.items ≡ drop (block + 1) blocks.old.items }
    ensures len { length blocks.new.items ≡ length blocks.old.items }
{
    let len = blocks[block].len();
    blocks[block].replace(from, len, run);
}

fn start_with(blocks: &mut Vec<Block>, block: usize, to: usize, run: (u64, u64))
    requires block { block < length blocks.old.items }
    requires some { 0 < to }
    requires to { to ≤ length (block_at blocks.old.items block) }
    ensures before { take block blocks.new.items ≡ take block blocks.old.items }
    ensures behind { all_runs (drop block blocks.new.items)
        ≡ (run ∷ drop to (block_at blocks.old.items block)) ++ all_runs (drop (block + 1) blocks.old.items) }
    ensures len { length blocks.new.items ≡ length blocks.old.items }
{
    blocks[block].replace(0, to, run);
}

// Answers how many blocks stay up to it, so that the caller drops those between by one move.
fn cut_back(blocks: &mut Vec<Block>, block: usize, from: usize) -> usize
    requires block { block < length blocks.old.items }
    requires from { from < length (block_at blocks.old.items block) }
    ensures before { all_runs (take result blocks.new.items) ≡ all_runs (take block blocks.old.items) ++ take from (block_at blocks.old.items block) }
    ensures behind { drop (block + 1) blocks.new.items ≡ drop (block + 1) blocks.old.items }
    ensures result { result ≤ block + 1 }
    ensures len { length blocks.new.items ≡ length blocks.old.items }
{
    if from == 0 {
        return block;
    }
    let len = blocks[block].len();
    blocks[block].take_out(from, len);
    block + 1
}

// Answers from which block on they stay, so that the caller drops those between by one move.
fn cut_front(blocks: &mut Vec<Block>, block: usize, to: usize) -> usize
    requires block { block < length blocks.old.items }
    requires to { to ≤ length (block_at blocks.old.items block) }
    ensures before { take block blocks.new.items ≡ take block blocks.old.items }
    ensures behind { all_runs (drop result blocks.new.items) ≡ drop to (block_at blocks.old.items block) ++ all_runs (drop (block + 1) blocks.old.items) }
    ensures from { block ≤ result }
    ensures result { result ≤ length blocks.new.items }
    ensures len { length blocks.new.items ≡ length blocks.old.items }
{
    if to == blocks[block].len() {
        return block + 1;
    }
    blocks[block].take_out(0, to);
    block
}

fn drop_blocks(blocks: &mut Vec<Block>, first: usize, last: usize)
    requires ordered { first ≤ last }
    requires in_bounds { last ≤ length blocks.old.items }
    ensures { blocks.new.items ≡ take first blocks.old.items ++ drop last blocks.old.items }
{
    if first < last {
        blocks.drain(first..last);
    }
}

/// The runs that end at `low` or later and start below `high`. The last run and the first are looked at before any search: numbers mostly
/// rise, or fill the lowest gap.
#[inline(always)]
pub(crate) fn span_of(blocks: &[Block], low: u64, high: u64) -> Span
    requires apart { AreApart (all_runs blocks.now) }
    requires ordered { low ≤ high }
    ensures span { IsSpan (all_runs blocks.now) low high (place blocks.now result.block result.from) (place blocks.now result.last result.to) }
    ensures none { result.some ≡ false → place blocks.now result.block result.from ≡ place blocks.now result.last result.to }
    ensures block { result.some ≡ false → result.block ≤ length blocks.now }
    ensures from { result.some ≡ false → result.from ≤ length (block_at blocks.now result.block) }
    ensures found { IsTrue result.some → IsFound blocks.now result.block result.from result.last result.to }
{
    let (block, from) = first_from(blocks, low);
    let none = Span {
        some: false,
        block,
        from,
        last: block,
        to: from,
    };
    if block == blocks.len() {
        return none;
    }
    let (start, _) = blocks[block].run(from);
    if high <= start {
        return none;
    }
    let (last, to) = behind(blocks, block, from, high);
    Span {
        some: true,
        block,
        from,
        last,
        to,
    }
}

/// Both at once, since a gap lies between them.
#[inline(never)]
pub(crate) fn two_above(blocks: &[Block], n: u64) -> (Option<(u64, u64)>, Option<(u64, u64)>)
    requires apart { AreApart (all_runs blocks.now) }
    requires number { n < 2 ^ 62 }
    ensures first { result.0 ≡ first_run_above n (all_runs blocks.now) }
    ensures next { IfSome result.0 (λ run. result.1 ≡ first_run_above run.1 (all_runs blocks.now)) }
{
    let (block, at) = first_from(blocks, n + 1);
    if block == blocks.len() {
        return (None, None);
    }
    (Some(blocks[block].run(at)), run_behind(blocks, block, at))
}

fn run_behind(blocks: &[Block], block: usize, at: usize) -> Option<(u64, u64)>
    requires block { block < length blocks.now }
    requires at { at < length (block_at blocks.now block) }
    ensures { result ≡ slice_get (all_runs blocks.now) (place blocks.now block at + 1) }
{
    if at < blocks[block].len() - 1 {
        return Some(blocks[block].run(at + 1));
    }
    if block == blocks.len() - 1 {
        return None;
    }
    Some(blocks[block + 1].first())
}

/// The last run and the first may decide it, which saves the search for numbers in order.
#[inline]
pub(crate) fn first_from(blocks: &[Block], low: u64) -> (usize, usize)
    requires { AreApart (all_runs blocks.now) }
    ensures place { IsFirstFrom (all_runs blocks.now) low (place blocks.now result.0 result.1) }
    ensures block { result.0 ≤ length blocks.now }
    ensures at { result.0 < length blocks.now → result.1 < length (block_at blocks.now result.0) }
    ensures end { result.0 ≡ length blocks.now → result.1 ≡ 0 }
{
    let count = blocks.len();
    if count == 0 {
        return (0, 0);
    }
    let (start, end) = blocks[count - 1].last();
    if end < low {
        return (count, 0);
    }
    if start < low {
        return (count - 1, blocks[count - 1].len() - 1);
    }
    if low <= blocks[0].first().1 {
        return (0, 0);
    }
    search_from(blocks, low)
}

#[inline(never)]
fn search_from(blocks: &[Block], low: u64) -> (usize, usize)
    ensures place { IsFirstFrom (all_runs blocks.now) low (place blocks.now result.0 result.1) }
    ensures block { result.0 ≤ length blocks.now }
    ensures at { result.0 < length blocks.now → result.1 < length (block_at blocks.now result.0) }
    ensures end { result.0 ≡ length blocks.now → result.1 ≡ 0 }
{
    let block = block_from(blocks, low);
    if block == blocks.len() {
        return (block, 0);
    }
    (block, blocks[block].end_from(low))
}

fn block_from(blocks: &[Block], low: u64) -> usize
    ensures within { result ≤ length blocks.now }
    ensures some { 0 < result → 0 < length (block_at blocks.now (result - 1)) }
    ensures before { 0 < result → end_at (block_at blocks.now (result - 1)) (length (block_at blocks.now (result - 1)) - 1) < low }
    ensures behind { result < length blocks.now → low ≤ end_at (block_at blocks.now result) (length (block_at blocks.now result) - 1) }
{
    let mut from = 0;
    let mut to = blocks.len();
    while from < to {
        let middle = from + (to - from) / 2;
        if blocks[middle].last().1 < low {
            from = middle + 1;
        } else {
            to = middle;
        }
    }
    from
}

fn behind(blocks: &[Block], block: usize, from: usize, high: u64) -> (usize, usize)
    requires block { block < length blocks.now }
    requires from { from < length (block_at blocks.now block) }
    requires start { start_at (block_at blocks.now block) from < high }
    ensures found { IsFound blocks.now block from result.0 result.1 }
    ensures before { start_at (block_at blocks.now result.0) (result.1 - 1) < high }
    ensures behind { result.1 < length (block_at blocks.now result.0) → high ≤ start_at (block_at blocks.now result.0) result.1 }
    ensures next { result.1 ≡ length (block_at blocks.now result.0) → result.0 + 1 < length blocks.now → high ≤ start_at (block_at blocks.now (result.0 + 1)) 0 }
    ensures some { result.0 + 1 < length blocks.now → 0 < length (block_at blocks.now (result.0 + 1)) }
{
    let after = block_behind(blocks, block + 1, high);
    if after == block + 1 {
        return (block, blocks[block].start_behind(from, high));
    }
    (after - 1, blocks[after - 1].start_behind(0, high))
}

#[inline]
fn block_behind(blocks: &[Block], at: usize, high: u64) -> usize
    requires { at ≤ length blocks.now }
    ensures from { at ≤ result }
    ensures within { result ≤ length blocks.now }
    ensures some { at < result → 0 < length (block_at blocks.now (result - 1)) }
    ensures before { at < result → start_at (block_at blocks.now (result - 1)) 0 < high }
    ensures behind { result < length blocks.now → high ≤ start_at (block_at blocks.now result) 0 }
    ensures filled { result < length blocks.now → 0 < length (block_at blocks.now result) }
{
    if at == blocks.len() || high <= blocks[at].first().0 {
        return at;
    }
    let mut from = at + 1;
    let mut to = blocks.len();
    while from < to {
        let middle = from + (to - from) / 2;
        if blocks[middle].first().0 < high {
            from = middle + 1;
        } else {
            to = middle;
        }
    }
    from
}
