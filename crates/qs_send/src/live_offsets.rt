//! The written offsets of a half of which some are still to be sent or acknowledged.
ghost use Rattle.std.specs.FinSet as set;
ghost use Rattle.std.specs.Prelude.{◌≡◌, ℕ, ◌+◌, ◌-◌, ◌*◌, ◌≤◌, ◌<◌, true, false, IsTrue, ◌++◌, length, take, drop, max, OnOk, OnErr, IfSome, IfNone};
ghost use Rattle.qs_ranges.specs.Numbers.{MAX_VARINT, missing_from, MissesRange, IsRunFrom, EndsBefore};
ghost use Rattle.qs_send.specs.Offsets.{at_rest, parts_at_rest, with_written, with_sent, with_acked, with_lost, with_none};

use crate::edits::{add, forget};
use crate::kept::Kept;
use qs_ranges::{NoMemory, RangeSet};
use std::alloc::Global;
use std::marker::Model;

#[derive(Drop)]
pub(crate) struct LiveOffsets {
    written: u64,
    // From the lowest unacknowledged offset on, since a buffer frees only at its front.
    kept: Kept,
    acked: RangeSet,
    // As due; those of them that aren't acknowledged are. So acknowledging need not touch this set, which might want memory.
    noted: RangeSet,
    sent_end: u64,
}

impl Model for LiveOffsets {
    ghost use Rattle.std.specs.FinSet as set;
    ghost use Rattle.qs_send.specs.Offsets.{HeldParts, AreOffsets, held_parts_code};

    ghost Value = { HeldParts };

    ghost coded = { held_parts_code };

    ghost view = { λ o. record { parts = record { written = o.written; kept = o.kept.bytes; acked = o.acked; due = set.difference o.noted o.acked; sent_end = o.sent_end }; room = o.kept.room } };

    ghost invariant = { λ o. AreOffsets o.written o.sent_end o.kept.bytes o.acked o.noted };
}

impl LiveOffsets {
    /// All acknowledged, so it takes no memory: a half that has not been written to is so.
    pub(crate) fn at_rest(alloc: Global, written: u64) -> Self
        requires { written ≤ MAX_VARINT }
        ensures { result ≡ at_rest written }
    {
        Self {
            written,
            kept: Kept::new(alloc),
            acked: RangeSet::below(alloc, written),
            noted: RangeSet::new(alloc),
            sent_end: written,
        }
    }

    #[inline(always)]
    pub(crate) fn sent_end(&self) -> u64
        ensures { result ≡ self.now.parts.sent_end }
    {
        self.sent_end
    }

    pub(crate) fn unacked_from(&self) -> u64
        ensures { result ≡ missing_from self.now.parts.acked 0 }
    {
        self.acked.first_missing(0)
    }

    #[inline(always)]
    pub(crate) fn kept_len(&self) -> usize
        ensures { result ≡ length self.now.parts.kept }
    {
        self.kept.len()
    }

    pub(crate) fn held(&self) -> usize
        ensures value { result ≡ self.now.room }
        ensures kept { length self.now.parts.kept ≤ result }
        ensures idle { length self.now.parts.kept ≡ 0 → result ≤ 4096 }
    {
        self.kept.held()
    }

    #[inline(always)]
    pub(crate) fn part(&self, from: usize, len: usize) -> (&[u8], &[u8])
        requires { from + len ≤ length self.now.parts.kept }
        ensures { result.0.now ++ result.1.now ≡ take len (drop from self.now.parts.kept) }
    {
        self.kept.part(from, len)
    }

    pub(crate) fn write(&mut self, bytes: &[u8], most: usize) -> Result<(), NoMemory>
        requires from { missing_from self.old.parts.acked 0 + length self.old.parts.kept ≡ self.old.parts.written }
        requires small { self.old.parts.written + length bytes.now ≤ MAX_VARINT }
        ensures ok { OnOk result (self.new.parts ≡ with_written self.old.parts bytes.now) }
        ensures err { OnErr result (self.new.parts ≡ self.old.parts) }
        ensures room { self.new.room ≤ max self.old.room (max most (length self.old.parts.kept + length bytes.now)) }
    {
        let before = self.kept.len();
        let end = self.written + bytes.len() as u64;
        self.kept.append(bytes, most)?;
        if let Err(fault) = self.noted.insert(self.written, end) {
            self.kept.truncate(before);
            return Err(fault);
        }
        self.written = end;
        Ok(())
    }

    pub(crate) fn sent(&mut self, end: u64)
        requires { end ≤ self.old.parts.written }
        ensures parts { self.new.parts ≡ with_sent self.old.parts end }
        ensures room { self.new.room ≡ self.old.room }
    {
        let before = self.sent_end;
        self.noted.drop_below(end);
        self.sent_end = before.max(end);
    }

    /// Once nothing is left and nothing more comes, the buffer's memory goes. Unchanged if memory was refused.
    pub(crate) fn acked(&mut self, lo: u64, hi: u64, is_over: bool) -> Result<(), NoMemory>
        requires ordered { lo ≤ hi }
        requires sent { hi ≤ self.old.parts.sent_end }
        ensures ok { OnOk result (self.new.parts ≡ with_acked self.old.parts lo hi) }
        ensures err { OnErr result (self.new ≡ self.old) }
        ensures room { self.new.room ≤ self.old.room }
        ensures over { OnOk result (is_over ≡ true → length self.new.parts.kept ≡ 0 → self.new.room ≡ 0) }

        // Memory is taken only for offsets beside which none is acknowledged.
        ensures some { OnErr result (lo < hi) }
        ensures grows { OnErr result (MissesRange self.old.parts.acked (lo - 1) (hi + 1)) }
    {
        let from = self.written - self.kept.len() as u64;
        add(&mut self.acked, lo, hi)?;
        // It needn't stay noted, and each run that goes is one fewer to search.
        forget(&mut self.noted, lo, hi);
        let low = self.acked.first_missing(0);
        self.kept.let_go(low.saturating_sub(from) as usize, is_over);
        Ok(())
    }

    /// What isn't acknowledged is due again. Unchanged if memory was refused.
    pub(crate) fn lost(&mut self, lo: u64, hi: u64) -> Result<(), NoMemory>
        requires ordered { lo ≤ hi }
        requires sent { hi ≤ self.old.parts.sent_end }
        ensures ok { OnOk result (self.new.parts ≡ with_lost self.old.parts lo hi) }
        ensures err { OnErr result (self.new ≡ self.old) }
        ensures room { self.new.room ≡ self.old.room }

        // Memory is taken only for offsets beside which none is due.
        ensures some { OnErr result (lo < hi) }
        ensures grows { OnErr result (MissesRange self.old.parts.due (lo - 1) (hi + 1)) }
    {
        let _written = self.written;
        add(&mut self.noted, lo, hi)?;
        Ok(())
    }

    pub(crate) fn let_all_go(&mut self)
        ensures parts { self.new.parts ≡ with_none self.old.parts }
        ensures room { self.new.room ≡ 0 }
    {
        let count = self.kept.len();
        self.kept.let_go(count, true);
        self.noted.drop_below(self.written);
    }

    pub(crate) fn rests(&self) -> bool
        ensures { IsTrue result → self.now.parts ≡ parts_at_rest self.now.parts.written }
    {
        self.acked.first_missing(0) == self.written
    }

    pub(crate) fn due_run(&self) -> Option<(u64, u64)>
        ensures found { IfSome result (IsRunFrom self.now.parts.due 0) }
        ensures none { IfNone result (EndsBefore self.now.parts.due 0) }
        ensures within { IfSome result (λ run. run.1 ≤ self.now.parts.written) }
    {
        let Some((start, end)) = self.noted.run_from(0) else {
            return None;
        };
        match self.acked.run_from(start) {
            None => Some((start, end)),
            Some((next, _)) if start < next => Some((start, next.min(end))),
            Some((_, after)) => self.due_run_from(after),
        }
    }

    // Apart, since mostly the first run that is noted is due.
    #[inline(never)]
    fn due_run_from(&self, from: u64) -> Option<(u64, u64)>
        requires { (k : ℕ) → k < from → set.contains self.now.parts.due k ≡ false }
        ensures found { IfSome result (IsRunFrom self.now.parts.due 0) }
        ensures none { IfNone result (EndsBefore self.now.parts.due 0) }
        ensures within { IfSome result (λ run. run.1 ≤ self.now.parts.written) }
    {
        let mut from = from;
        while let Some((start, end)) = self.noted.run_from(from) {
            match self.acked.run_from(start) {
                None => return Some((start, end)),
                Some((next, _)) if start < next => return Some((start, next.min(end))),
                Some((_, after)) => from = after,
            }
        }
        None
    }
}
