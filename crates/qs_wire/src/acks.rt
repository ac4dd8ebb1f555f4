//! The ranges of an ACK frame (RFC 9000, section 19.3.1).

ghost use Rattle.std.specs.Prelude.{◌≡◌, ℕ, ◌+◌, ◌-◌, ◌^◌, ◌<◌, ◌≤◌, true, false, [], ◌∷◌, ◌++◌, length, take, drop, MatchOption, IfSome, IfOk, IfErr};
ghost use Rattle.std.specs.List.{flat_map};
ghost use Rattle.qs_wire.specs.Varint.{short, short_len, numbers_of};
ghost use Rattle.qs_wire.specs.Layout.{ack_ranges_of};
ghost use Rattle.qs_wire.specs.Grammar.{canonical};
ghost use Rattle.qs_wire.specs.Writing.{Puts};
ghost use Rattle.qs_wire.specs.Acks.{LiesBelow, AreApartBelow, AreAckPairs, gaps_below, ack_of};

use crate::fault::Full;
use crate::varint::{number_at, varint_len};
use crate::writing::{put_number, put_numbers};
use std::marker::Model;

/// Gives the ranges of an ACK frame as smallest and largest packet number, the highest first. They stay a slice of the payload: an ACK may
/// have many, and reading takes no memory.
#[derive(Debug, Drop)]
pub struct AckRanges<'a> {
    largest: u64,
    rest: &'a [u8],
}

impl<'a> Model for AckRanges<'a> {
    ghost use Rattle.std.specs.Prelude.{ℕ, List, ◌^◌, ◌<◌};
    ghost use Rattle.qs_wire.specs.Varint.{numbers_of};
    ghost use Rattle.qs_wire.specs.Layout.{ack_ranges_of};

    ghost Value = { List (ℕ × ℕ) };

    ghost view = { λ r. ack_ranges_of r.largest (numbers_of r.rest.now) };

    ghost invariant = { λ r. r.largest < 2 ^ 62 };
}

impl<'a> AckRanges<'a> {
    /// The ranges below a frame's largest number.
    pub fn new(largest: u64, ranges: &'a [u8]) -> AckRanges<'a>
        requires { largest < 2 ^ 62 }
        ensures { result ≡ ack_ranges_of largest (numbers_of ranges.now) }
    {
        AckRanges {
            largest,
            rest: ranges,
        }
    }

    /// The smallest and the largest number of the next range, `None` after the last. It never fails: a range that fell below zero, which no
    /// frame has that was read, begins at 0.
    pub fn next(&mut self) -> Option<(u64, u64)>
        ensures step { MatchOption result ((self.old ≡ []) × (self.new ≡ [])) (λ range. self.old ≡ range ∷ self.new) }
        ensures ordered { IfSome result (λ range. (range.0 ≤ range.1) × (range.1 < 2 ^ 62)) }
    {
        let largest = self.largest;
        let (len, rest) = match number_at(self.rest) {
            Ok(read) => read,
            Err(_) => return None,
        };
        let smallest = largest.saturating_sub(len);
        self.rest = rest;
        if let Ok((gap, after)) = number_at(rest) {
            self.largest = smallest.saturating_sub(gap + 2);
            self.rest = after;
        }
        Some((smallest, largest))
    }
}

fn gap_and_length(above: u64, pair: (u64, u64)) -> (u64, u64)
    requires lies { LiesBelow above pair }
    requires below { above ≤ 2 ^ 62 }
    ensures gap { result.0 ≡ (above - pair.1) - 1 }
    ensures len { result.1 ≡ (pair.1 - 1) - pair.0 }
    ensures small { (result.0 < 2 ^ 62) × (result.1 < 2 ^ 62) }
{
    let (start, end) = pair;
    (above - end - 1, end - 1 - start)
}

/// Measured only if the room is scarce, since mostly all ranges fit.
#[inline]
fn two_fit(a: u64, b: u64, room: usize) -> bool
    requires small { (a < 2 ^ 62) × (b < 2 ^ 62) }
    ensures fit { result ≡ true → short_len a + short_len b ≤ room }
    ensures over { result ≡ false → room < short_len a + short_len b }
{
    if room >= 16 {
        return true;
    }
    varint_len(a) + varint_len(b) <= room
}

/// As many as fit from the highest on: the older ranges were in earlier ACKs.
fn put_ranges(smallest: u64, pairs: &[(u64, u64)], at: usize, out: &mut [u8]) -> (usize, usize)
    requires apart { AreApartBelow smallest pairs.now }
    requires below { smallest ≤ 2 ^ 62 }
    requires room { at ≤ length out.old }
    ensures count { result.0 ≤ length pairs.now }
    ensures next { result.1 ≡ at + length (flat_map short (gaps_below smallest (take result.0 pairs.now))) }
    ensures puts { Puts at (flat_map short (gaps_below smallest (take result.0 pairs.now))) out.old out.new }
    ensures most { (n : ℕ) → result.0 < n → n ≤ length pairs.now → length out.old < at + length (flat_map short (gaps_below smallest (take n pairs.now))) }
{
    let mut above = smallest;
    let mut count = 0;
    let mut next = at;
    for pair in pairs {
        let (gap, range) = gap_and_length(above, *pair);
        if !two_fit(gap, range, out.len() - next) {
            return (count, next);
        }
        next = put_number(gap, next, out);
        next = put_number(range, next, out);
        count += 1;
        above = pair.0;
    }
    (count, next)
}

const ACK: u64 = 0x02;

/// Writes an ACK frame without delay and ECN counts at the slice's front, of as many ranges as fit, and returns how many and the frame's
/// length in bytes. The ranges are half-open, the highest first. If not even one fits, nothing is written.
pub fn put_ack(pairs: &[(u64, u64)], out: &mut [u8]) -> Result<(usize, usize), Full>
    requires { AreAckPairs pairs.now }
    ensures some { IfOk result (λ x. (0 < x.0) × (x.0 ≤ length pairs.now)) }
    ensures written { IfOk result (λ x. (x.1 ≡ length (canonical (ack_of 0 (take x.0 pairs.now)))) × (x.1 ≤ length out.old)
        × (out.new ≡ canonical (ack_of 0 (take x.0 pairs.now)) ++ drop x.1 out.old)) }
    // More ranges would not fit.
    ensures most { IfOk result (λ x. (n : ℕ) → x.0 < n → n ≤ length pairs.now → length out.old < length (canonical (ack_of 0 (take n pairs.now)))) }
    ensures full { IfErr result (λ _. (length out.old < length (canonical (ack_of 0 (take 1 pairs.now)))) × (out.new ≡ out.old)) }
{
    put_delayed_ack(pairs, 0, out)
}

/// The same of an ACK frame with a delay.
pub fn put_delayed_ack(
    pairs: &[(u64, u64)],
    delay: u64,
    out: &mut [u8],
) -> Result<(usize, usize), Full>
    requires pairs { AreAckPairs pairs.now }
    requires delay { delay < 2 ^ 62 }
    ensures some { IfOk result (λ x. (0 < x.0) × (x.0 ≤ length pairs.now)) }
    ensures written { IfOk result (λ x. (x.1 ≡ length (canonical (ack_of delay (take x.0 pairs.now)))) × (x.1 ≤ length out.old)
        × (out.new ≡ canonical (ack_of delay (take x.0 pairs.now)) ++ drop x.1 out.old)) }
    // More ranges would not fit.
    ensures most { IfOk result (λ x. (n : ℕ) → x.0 < n → n ≤ length pairs.now → length out.old < length (canonical (ack_of delay (take n pairs.now)))) }
    ensures full { IfErr result (λ _. (length out.old < length (canonical (ack_of delay (take 1 pairs.now)))) × (out.new ≡ out.old)) }
{
    let (start, end) = pairs[0];
    let (_, others) = pairs.split_at(1);
    let numbers = varint_len(end - 1) + varint_len(end - 1 - start);
    let first = numbers + varint_len(delay) + 2;
    if first > out.len() {
        return Err(Full);
    }
    let (count, next) = put_ranges(start, others, first, out);
    put_numbers(&[ACK, end - 1, delay, count as u64, end - 1 - start], out);
    Ok((count + 1, next))
}
