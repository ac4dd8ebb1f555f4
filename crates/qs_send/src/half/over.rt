//! A half that is over, as a few bytes.
ghost use Rattle.std.specs.Prelude.{◌≡◌, ◌/◌, ◌%◌, ◌==◌, IfSome};
ghost use Rattle.qs_send.specs.Halves.{over_sending, IsOverSlot};

use super::SendHalf;
use crate::halves::slot::SendSlot;
use qs_ranges::MaybeNumber;

impl SendHalf {
    /// Whether the end is acknowledged.
    #[inline(always)]
    pub fn end_acked(&self) -> bool
        ensures { result ≡ self.now.lane.fin_acked }
    {
        self.fin_acked
    }

    pub(crate) fn index(&self) -> u64
        ensures { result ≡ self.now.lane.id / 4 }
    {
        self.id.value() / 4
    }

    /// Only if it was neither reset nor stopped: the codes wouldn't fit a slot.
    #[tactic(auto, using(crate::proofs::Slots::over_kept, crate::proofs::Slots::none_of))]
    pub(crate) fn over(&self, number: u64) -> Option<SendSlot>
        ensures { IfSome result (λ slot. IsOverSlot slot self.now.lane.written × (self.now ≡ over_sending number self.now.lane.written (slot.rest / 2) (slot.rest % 2 == 1) slot.buffer slot.widest)) }
    {
        self.learn_lawful();
        if self.id.value() != number {
            return None;
        }
        if self.reset_acked {
            return None;
        }
        if self.was_reset() {
            return None;
        }
        if !self.is_whole() {
            return None;
        }
        if self.stop_code().is_some() {
            return None;
        }
        Some(SendSlot {
            written: MaybeNumber::some(self.written()),
            rest: self.limit * 2 + self.blocked_sent as u64,
            buffer: self.buffer,
            widest: self.widest,
        })
    }
}
