//! The ranges of an ACK frame.
ghost use Rattle.std.specs.Prelude.{◌≡◌, ◌+◌, ◌^◌, ◌<◌, ◌&&◌, ◌≤◌, true, length, take, map, MatchBool};
ghost use Rattle.qs_c.specs.Statuses.{Invalid, is_small};
ghost use Rattle.qs_c.specs.Acks.{pair_of, are_apart, are_ranges, AckAnswer, RangeAnswer};

use crate::answers::{FULL, INVALID, NONE, OK};
use crate::reads::skip;
use qs_wire::{AckRanges, put_delayed_ack};

/// Both ends of a range are in it, as in the frame.
#[repr(C)]
#[derive(Clone, Copy, Drop)]
pub struct GvRange {
    pub smallest: u64,
    pub largest: u64,
}

const LIMIT: u64 = 1 << 62;

const MOST: usize = 32;

/// As many as fit, the highest first: those left out are the oldest.
pub(crate) fn put(
    ranges: &[GvRange],
    delay: u64,
    out: &mut [u8],
    count: &mut usize,
    len: &mut usize,
) -> u32
    ensures { MatchBool (are_ranges ranges.now && is_small delay) (AckAnswer (map pair_of ranges.now) delay result (record { count = count.old; len = len.old; bytes = out.old }) (record { count = count.new; len = len.new; bytes = out.new })) (Invalid result count.old count.new × (len.new ≡ len.old) × (out.new ≡ out.old)) }
{
    if delay >= LIMIT || ranges.is_empty() || ranges.len() > MOST || !is_apart(ranges) {
        return INVALID;
    }
    let pairs = pairs_of(ranges);
    match put_delayed_ack(&pairs[..ranges.len()], delay, out) {
        Ok((taken, written)) => {
            *count = taken;
            *len = written;
            OK
        }
        Err(_) => FULL,
    }
}

/// Checked, since C's numbers have no type that says so, and the writer below requires it.
fn is_apart(ranges: &[GvRange]) -> bool
    ensures { result ≡ are_apart (2 ^ 62 + 1) ranges.now }
{
    let mut above = LIMIT + 1;
    for range in ranges {
        if range.smallest > range.largest || above < 2 || range.largest > above - 2 {
            return false;
        }
        above = range.smallest;
    }
    true
}

fn pairs_of(ranges: &[GvRange]) -> [(u64, u64); 32]
    requires few { length ranges.now ≤ 32 }
    requires apart { are_apart (2 ^ 62 + 1) ranges.now ≡ true }
    ensures { take (length ranges.now) result ≡ map pair_of ranges.now }
{
    let mut pairs = [(0, 0); 32];
    for i in 0..ranges.len() {
        let range = ranges[i];
        pairs[i] = (range.smallest, range.largest + 1);
    }
    pairs
}

/// How many bytes the range takes and where the next begins are returned, so that C keeps the place and no handle is needed.
pub(crate) fn next_range(
    bytes: &[u8],
    largest: &mut u64,
    used: &mut usize,
    range: &mut GvRange,
) -> u32
    ensures { RangeAnswer bytes.now result (record { largest = largest.old; used = used.old; range = range.old }) (record { largest = largest.new; used = used.new; range = range.new }) }
{
    if *largest >= LIMIT {
        return INVALID;
    }
    let mut ranges = AckRanges::new(*largest, bytes);
    let Some((smallest, top)) = ranges.next() else {
        return NONE;
    };
    *range = GvRange {
        smallest,
        largest: top,
    };
    *used = skip(2, bytes);
    *largest = match ranges.next() {
        Some((_, below)) => below,
        None => 0,
    };
    OK
}
