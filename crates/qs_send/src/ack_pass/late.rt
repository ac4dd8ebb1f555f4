//! Which lost packets a late ACK names.
ghost use Rattle.std.specs.Prelude.{◌≡◌, ℕ, ◌+◌, ◌<◌, ◌≤◌, [], nat_lt, if◌then◌else◌, IfSome, IfNone, Some, true, false};
ghost use Rattle.std.specs.FinMap as fmap;
ghost use Rattle.qs_send.specs.AckPass.{HasRead, more_turns, pass_over};
ghost use Rattle.qs_send.specs.LostPass.{IsNextLost, IsSeen, count_below, seen_below};
ghost use Rattle.qs_send.specs.Records.{IsGreatestBelow};

use super::{AckPass, one_more};
use crate::lost_records::LostRecords;

impl<'a> AckPass<'a> {
    /// The greatest lost number that the ranges name below the last one returned, `None` if there is none. If no packet is lost, it reads
    /// no range, which is the usual case (RFC 9000, section 13.2.1). Each record that it looks at, also one below the range, and each range
    /// takes one turn, and none is looked at twice.
    pub fn next_lost(&mut self, records: &LostRecords) -> Option<u64>
        ensures { IsNextLost records.now self.old result self.new }
    {
        records.learn_in_order();
        if records.len() == 0 {
            return None;
        }
        // Before the first look the bound itself.
        let mut seen = self.below;
        // The highest range mostly lies above all of them.
        let mut near = records.len();
        loop {
            if let Some(number) = self.lost_in_range(records, &mut seen, &mut near) {
                return Some(number);
            }
            if !self.read_range() {
                self.below = 0;
                return None;
            }
        }
    }

    // A record below the range stays in hand until a range begins at it or below, so that it is looked at once.
    #[tactic(auto, using(crate::proofs::Passing::count_given, crate::proofs::Passing::look_turns))]
    fn lost_in_range(
        &mut self,
        records: &LostRecords,
        seen: &mut u64,
        near: &mut usize,
    ) -> Option<u64>
        requires { IsSeen records.now.pieces self.old.below seen.old }
        ensures same { (self.new.low ≡ self.old.low) × (self.new.unread ≡ self.old.unread) }
        ensures below { self.new.below ≤ self.old.below }
        ensures found { IfSome result (λ k. (self.new.below ≡ k) × (k < self.old.below) × (self.old.low ≤ k) × (fmap.contains_key records.now.pieces k ≡ true)) }
        ensures above { IfSome result (λ k. (j : ℕ) → k < j → j < self.old.below → fmap.contains_key records.now.pieces j ≡ false) }
        ensures none { IfNone result ((j : ℕ) → self.old.low ≤ j → j < self.old.below → fmap.contains_key records.now.pieces j ≡ false) }
        ensures past { IfNone result ((j : ℕ) → self.new.below ≤ j → j < self.old.below → fmap.contains_key records.now.pieces j ≡ false) }
        ensures seen { IsSeen records.now.pieces self.new.below seen.new }
        ensures given { IfSome result (λ k. seen.new ≡ k) }
        ensures looks { seen.new ≤ seen.old }
        ensures each { self.new.turns ≡ (if nat_lt seen.new seen.old then more_turns self.old.turns 1 else self.old.turns) }
        ensures turns { (self.new.turns + count_below records.now.order self.new.below) + seen_below seen.old self.old.below
            ≤ (self.old.turns + count_below records.now.order self.old.below) + seen_below seen.new self.new.below }
        ensures counted { self.old.turns ≤ self.new.turns }
    {
        records.learn_in_order();
        if self.below <= self.low {
            return None;
        }
        let number = self.look(records, *seen, near)?;
        *seen = number;
        if number < self.low {
            return None;
        }
        self.below = number;
        Some(number)
    }

    // The last one looked at, if it is below; else another one, in one turn.
    fn look(&mut self, records: &LostRecords, seen: u64, near: &mut usize) -> Option<u64>
        requires { IsSeen records.now.pieces self.old.below seen }
        ensures same { (self.new.low ≡ self.old.low) × (self.new.below ≡ self.old.below) × (self.new.unread ≡ self.old.unread) }
        ensures found { IfSome result (IsGreatestBelow records.now.pieces self.old.below) }
        ensures none { IfNone result ((k : ℕ) → k < self.old.below → fmap.contains_key records.now.pieces k ≡ false) }
        ensures old { seen < self.old.below → (result ≡ Some seen) × (self.new.turns ≡ self.old.turns) }
        ensures new { self.old.below ≤ seen → IfSome result (λ _. self.new.turns ≡ more_turns self.old.turns 1) }
        ensures no_look { IfNone result (self.new.turns ≡ self.old.turns) }
        ensures counted { self.old.turns ≤ self.new.turns }
    {
        if seen < self.below {
            return Some(seen);
        }
        let number = records.below_near(self.below, near)?;
        self.turns = one_more(self.turns);
        Some(number)
    }
}
