//! Which outstanding packets an ACK names. The work is counted here, since a peer chooses the ACK.
ghost use Rattle.std.specs.Prelude.{◌≡◌, ℕ, ◌+◌, ◌-◌, ◌<◌, ◌≤◌, [], min, IfSome, IfNone, true, false};
ghost use Rattle.std.specs.FinMap as fmap;
ghost use Rattle.qs_send.specs.AckPass.{HasRead, IsNext, more_turns, pass_over};

use crate::records::Records;
use qs_wire::AckRanges;
use std::marker::Model;

mod late;

/// One pass over the outstanding records, or over the lost ones, from the highest number that an ACK's ranges name down to the lowest (RFC
/// 9000, section 13.3). Downwards, as the ranges come: so each slot and each range is met once, and a pass that began anew at a range would
/// break the count.
#[derive(Drop)]
pub struct AckPass<'a> {
    low: u64,
    below: u64,
    ranges: AckRanges<'a>,
    turns: u64,
}

impl<'a> Model for AckPass<'a> {
    ghost use Rattle.qs_send.specs.AckPass.{Passing, passing_code};

    ghost Value = { Passing };

    ghost coded = { passing_code };

    ghost view = { λ p. record { low = p.low; below = p.below; unread = p.ranges; turns = p.turns } };
}

impl<'a> AckPass<'a> {
    pub fn new(ranges: AckRanges<'a>) -> AckPass<'a>
        ensures { result ≡ pass_over ranges.entry }
    {
        AckPass {
            low: u64::MAX,
            below: u64::MAX,
            ranges,
            turns: 0,
        }
    }

    /// The greatest outstanding number that the ranges name below the last one returned; `None` if there is none. A turn is a range that it
    /// reads, or a look below the last one: at a word of bits, with the word of words and the slot that it leads to, or at a slot without a
    /// bit. How many numbers a word passes is in no clause: the bits only say which slots are surely empty.
    pub fn next(&mut self, records: &Records) -> Option<u64>
        ensures { IsNext records.now self.old result self.new }
    {
        let _turns = self.turns;
        loop {
            if let Some(number) = self.in_range(records) {
                return Some(number);
            }
            if !self.read_range() {
                return None;
            }
        }
    }

    /// It gives no number from this one on any more.
    pub fn below(&self) -> u64
        ensures { result ≡ self.now.below }
    {
        self.below
    }

    /// The lowest number of the range that was read last.
    pub fn low(&self) -> u64
        ensures { result ≡ self.now.low }
    {
        self.low
    }

    /// Passes the numbers from this one on.
    pub fn go_below(&mut self, number: u64)
        ensures { self.new ≡ record self.old { below = min self.old.below number } }
    {
        self.below = self.below.min(number);
    }

    /// How many turns it took.
    pub fn turns(&self) -> u64
        ensures { result ≡ self.now.turns }
    {
        self.turns
    }

    fn read_range(&mut self) -> bool
        ensures read { result ≡ true → (range : ℕ × ℕ) × HasRead self.old range self.new }
        ensures ended { result ≡ false → (self.old.unread ≡ []) × (self.new ≡ self.old) }
        ensures counted { self.old.turns ≤ self.new.turns }
    {
        let Some((low, high)) = self.ranges.next() else {
            return false;
        };
        self.turns = one_more(self.turns);
        self.low = low;
        self.below = self.below.min(high + 1);
        true
    }

    #[inline(always)]
    fn in_range(&mut self, records: &Records) -> Option<u64>
        ensures same { (self.new.low ≡ self.old.low) × (self.new.unread ≡ self.old.unread) }
        ensures below { self.new.below ≤ self.old.below }
        ensures found { IfSome result (λ k. (self.new.below ≡ k) × (k < self.old.below) × (self.old.low ≤ k) × (fmap.contains_key records.now.pieces k ≡ true)) }
        ensures above { IfSome result (λ k. (j : ℕ) → k < j → j < self.old.below → fmap.contains_key records.now.pieces j ≡ false) }
        ensures none { IfNone result ((j : ℕ) → self.old.low ≤ j → j < self.old.below → fmap.contains_key records.now.pieces j ≡ false) }
        ensures past { IfNone result ((j : ℕ) → self.new.below ≤ j → j < self.old.below → fmap.contains_key records.now.pieces j ≡ false) }
        ensures turns { self.new.turns + min (self.new.below - records.now.base) records.now.slots ≤ self.old.turns + min (self.old.below - records.now.base) records.now.slots }
        ensures one { IfSome result (λ _. more_turns self.old.turns 1 ≤ self.new.turns) }
        ensures counted { self.old.turns ≤ self.new.turns }
    {
        match records.within(self.low, self.below, &mut self.turns) {
            Some(number) => {
                self.below = number;
                Some(number)
            }
            None => {
                self.below = self.below.min(self.low);
                None
            }
        }
    }
}

/// The count stops at its greatest value instead of going around, so a clause can bound it.
pub(crate) fn one_more(turns: u64) -> u64
    ensures exact { result ≡ more_turns turns 1 }
    ensures least { turns ≤ result }
{
    turns.saturating_add(1)
}
