//! The written offsets of a half. Those that are all acknowledged take no memory.
ghost use Rattle.std.specs.Prelude.{◌≡◌, ℕ, ◌+◌, ◌-◌, ◌*◌, ◌≤◌, ◌<◌, true, ◌++◌, length, take, drop, max, OnOk, OnErr, IfSome, IfNone};
ghost use Rattle.qs_ranges.specs.Numbers.{MAX_VARINT, missing_from, MissesRange, IsRunFrom, EndsBefore};
ghost use Rattle.qs_send.specs.Offsets.{at_rest, with_written, with_sent, with_acked, with_lost, with_none};

use crate::live_offsets::LiveOffsets;
use qs_ranges::NoMemory;
use std::alloc::Global;
use std::marker::Model;

/// Without a box as a half begins, and again once its last ACK has come: most streams are then over, and stay for the connection's life. In
/// between the box stays, since a stream that is written to again would take it anew.
#[derive(Drop)]
pub struct Offsets {
    alloc: Global,
    written: u64,
    // None: each offset is acknowledged, and nothing is kept or due.
    live: Option<Box<LiveOffsets>>,
}

/// The memory that a half takes for the bytes that it keeps: so many bytes, and the offsets whose buffer takes them. A half that is over takes
/// none.
#[derive(Clone, Copy, Drop)]
pub struct Memory<'a> {
    pub bytes: u64,
    pub offsets: Option<&'a Offsets>,
}

impl Model for Offsets {
    ghost use Rattle.std.specs.Prelude.{◌≤◌, option_map};
    ghost use Rattle.qs_ranges.specs.Numbers.{MAX_VARINT};
    ghost use Rattle.qs_send.specs.Offsets.{HeldParts, held_parts_code, held_in, AgreesOn};

    ghost Value = { HeldParts };

    ghost coded = { held_parts_code };

    ghost view = { λ o. held_in o.written (option_map (λ b. b.value) o.live) };

    ghost invariant = { λ o. (o.written ≤ MAX_VARINT) × AgreesOn o.written (option_map (λ b. b.value) o.live) };
}

impl Offsets {
    pub(crate) fn new(alloc: Global) -> Self
        ensures { result ≡ at_rest 0 }
    {
        Self {
            alloc,
            written: 0,
            live: None,
        }
    }

    #[inline(always)]
    pub(crate) fn written(&self) -> u64
        ensures exact { result ≡ self.now.parts.written }
        ensures small { result ≤ MAX_VARINT }
    {
        self.written
    }

    #[inline(always)]
    pub(crate) fn sent_end(&self) -> u64
        ensures { result ≡ self.now.parts.sent_end }
    {
        match &self.live {
            None => self.written,
            Some(live) => live.sent_end(),
        }
    }

    #[tactic(auto, using(crate::proofs::Steps::rest_missing))]
    pub(crate) fn unacked_from(&self) -> u64
        ensures { result ≡ missing_from self.now.parts.acked 0 }
    {
        match &self.live {
            None => self.written,
            Some(live) => live.unacked_from(),
        }
    }

    #[inline(always)]
    pub(crate) fn kept_len(&self) -> usize
        ensures { result ≡ length self.now.parts.kept }
    {
        match &self.live {
            None => 0,
            Some(live) => live.kept_len(),
        }
    }

    pub(crate) fn held(&self) -> usize
        ensures value { result ≡ self.now.room }
        ensures kept { length self.now.parts.kept ≤ result }
        ensures idle { length self.now.parts.kept ≡ 0 → result ≤ 4096 }
    {
        match &self.live {
            None => 0,
            Some(live) => live.held(),
        }
    }

    #[inline(always)]
    pub(crate) fn part(&self, from: usize, len: usize) -> (&[u8], &[u8])
        requires { from + len ≤ length self.now.parts.kept }
        ensures { result.0.now ++ result.1.now ≡ take len (drop from self.now.parts.kept) }
    {
        match &self.live {
            None => (&[], &[]),
            Some(live) => live.part(from, len),
        }
    }

    pub(crate) fn write(&mut self, bytes: &[u8], most: usize) -> Result<(), NoMemory>
        requires from { missing_from self.old.parts.acked 0 + length self.old.parts.kept ≡ self.old.parts.written }
        requires small { self.old.parts.written + length bytes.now ≤ MAX_VARINT }
        ensures ok { OnOk result (self.new.parts ≡ with_written self.old.parts bytes.now) }
        ensures err { OnErr result (self.new.parts ≡ self.old.parts) }
        ensures room { self.new.room ≤ max self.old.room (max most (length self.old.parts.kept + length bytes.now)) }
    {
        let Some(live) = &mut self.live else {
            return self.begin(bytes, most);
        };
        live.write(bytes, most)?;
        self.written += bytes.len() as u64;
        Ok(())
    }

    // The first bytes of a half take its box: the one allocation besides the buffer.
    fn begin(&mut self, bytes: &[u8], most: usize) -> Result<(), NoMemory>
        requires rest { self.old ≡ at_rest self.old.parts.written }
        requires from { missing_from self.old.parts.acked 0 + length self.old.parts.kept ≡ self.old.parts.written }
        requires small { self.old.parts.written + length bytes.now ≤ MAX_VARINT }
        ensures ok { OnOk result (self.new.parts ≡ with_written self.old.parts bytes.now) }
        ensures err { OnErr result (self.new.parts ≡ self.old.parts) }
        ensures room { self.new.room ≤ max self.old.room (max most (length self.old.parts.kept + length bytes.now)) }
    {
        let mut live = Box::new(self.alloc, LiveOffsets::at_rest(self.alloc, self.written))?;
        live.write(bytes, most)?;
        self.written += bytes.len() as u64;
        self.live = Some(live);
        Ok(())
    }

    #[inline(always)]
    #[tactic(auto, using(crate::proofs::Steps::rest_sent))]
    pub(crate) fn sent(&mut self, end: u64)
        requires { end ≤ self.old.parts.written }
        ensures parts { self.new.parts ≡ with_sent self.old.parts end }
        ensures room { self.new.room ≡ self.old.room }
    {
        let Some(live) = &mut self.live else {
            return;
        };
        live.sent(end);
    }

    /// With the last ACK the box goes. Unchanged if memory was refused.
    #[tactic(auto, using(crate::proofs::Steps::rest_acked))]
    pub(crate) fn acked(&mut self, lo: u64, hi: u64, is_over: bool) -> Result<(), NoMemory>
        requires ordered { lo ≤ hi }
        requires sent { hi ≤ self.old.parts.sent_end }
        ensures ok { OnOk result (self.new.parts ≡ with_acked self.old.parts lo hi) }
        ensures err { OnErr result (self.new ≡ self.old) }
        ensures room { self.new.room ≤ self.old.room }
        ensures over { OnOk result (is_over ≡ true → length self.new.parts.kept ≡ 0 → self.new.room ≡ 0) }

        // Memory is taken only for offsets beside which none is acknowledged.
        ensures some { OnErr result (lo < hi) }
        ensures grows { OnErr result (MissesRange self.old.parts.acked (lo - 1) (hi + 1)) }
    {
        let Some(live) = &mut self.live else {
            return Ok(());
        };
        live.acked(lo, hi, is_over)?;
        if is_over && live.rests() {
            self.live = None;
        }
        Ok(())
    }

    /// What isn't acknowledged is due again. Unchanged if memory was refused.
    #[tactic(auto, using(crate::proofs::Steps::rest_lost))]
    pub(crate) fn lost(&mut self, lo: u64, hi: u64) -> Result<(), NoMemory>
        requires ordered { lo ≤ hi }
        requires sent { hi ≤ self.old.parts.sent_end }
        ensures ok { OnOk result (self.new.parts ≡ with_lost self.old.parts lo hi) }
        ensures err { OnErr result (self.new ≡ self.old) }
        ensures room { self.new.room ≡ self.old.room }

        // Memory is taken only for offsets beside which none is due.
        ensures some { OnErr result (lo < hi) }
        ensures grows { OnErr result (MissesRange self.old.parts.due (lo - 1) (hi + 1)) }
    {
        let Some(live) = &mut self.live else {
            return Ok(());
        };
        live.lost(lo, hi)?;
        Ok(())
    }

    pub(crate) fn let_all_go(&mut self)
        ensures parts { self.new.parts ≡ with_none self.old.parts }
        ensures room { self.new.room ≡ 0 }
    {
        let Some(live) = &mut self.live else {
            return;
        };
        live.let_all_go();
    }

    pub(crate) fn due_run(&self) -> Option<(u64, u64)>
        ensures found { IfSome result (IsRunFrom self.now.parts.due 0) }
        ensures none { IfNone result (EndsBefore self.now.parts.due 0) }
        ensures within { IfSome result (λ run. run.1 ≤ self.now.parts.written) }
    {
        match &self.live {
            None => None,
            Some(live) => live.due_run(),
        }
    }
}
