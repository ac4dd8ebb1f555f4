//! A sending half to be read, over or not. One type for both, so that a caller needn't know how a half is kept.
ghost use Rattle.std.specs.Prelude.{◌≡◌, ◌+◌, ◌*◌, ◌/◌, ◌%◌, ◌==◌, ◌≤◌, ◌↔◌, ◌++◌, IsTrue, length, true, is_some, option_map, Some, None, IfSome, IfNone};
ghost use Rattle.qs_ranges.specs.Numbers.{MAX_VARINT};
ghost use Rattle.qs_send.specs.Changes.{stop_changes, asked_changes};
ghost use Rattle.qs_send.specs.Chunks.{has_unsent, IsNextChunk, HasNoChunk, IsHeldByRoom, HasBytes};
ghost use Rattle.qs_send.specs.Halves.{over_sending, IsOver, IsOverSlot};
ghost use Rattle.qs_send.specs.Lane.{bytes_of, declared_size, free_room, is_whole, refusal, state, unacked_from};
ghost use Rattle.qs_send.specs.Memory.{IsMemoryOf};
ghost use Rattle.qs_send.specs.Sound.{IsLawful};
ghost use Rattle.qs_send.specs.declared.parts.Reset.{Reset};

use crate::half::SendHalf;
use crate::halves::slot::SendSlot;
use crate::offsets::Memory;
use crate::parts::{Chunk, SendFault, SendState};
use std::marker::Model;

#[derive(Drop)]
pub struct SendView<'a> {
    half: Viewed<'a>,
}

#[derive(Clone, Copy, Drop)]
pub(crate) enum Viewed<'a> {
    Over(Over),
    Full(&'a SendHalf),
}

/// What a slot says, put together again: the numbers of a half that is over.
#[derive(Clone, Copy, Drop)]
pub(crate) struct Over {
    number: u64,
    written: u64,
    limit: u64,
    was_blocked: bool,
    buffer: u32,
    widest: u32,
}

impl<'a> Model for SendView<'a> {
    ghost use Rattle.qs_send.specs.Lane.{Sending};
    ghost use Rattle.qs_send.specs.Codes.{sending_code};
    ghost use Rattle.qs_send.specs.Sound.{IsLawful};

    ghost Value = { Sending };

    ghost coded = { sending_code };

    ghost use Rattle.qs_send.specs.Views.{viewed};

    ghost view = { λ v. viewed v.half };

    ghost invariant = { λ v. IsLawful (viewed v.half) };
}

impl<'a> SendView<'a> {
    #[inline(always)]
    pub(crate) fn of_over(number: u64, written: u64, slot: SendSlot) -> Self
        requires number { number ≤ MAX_VARINT }
        requires slot { IsOverSlot slot written }
        ensures half { result ≡ over_sending number written (slot.rest / 2) (slot.rest % 2 == 1) slot.buffer slot.widest }
        ensures lawful { IsLawful result }
    {
        SendView {
            half: Viewed::Over(Over {
                number,
                written,
                limit: slot.rest / 2,
                was_blocked: slot.rest % 2 == 1,
                buffer: slot.buffer,
                widest: slot.widest,
            }),
        }
    }

    #[inline(always)]
    pub(crate) fn of_full(half: &'a SendHalf) -> Self
        ensures half { result ≡ half.now }
        ensures lawful { IsLawful result }
    {
        half.learn_lawful();
        SendView {
            half: Viewed::Full(half),
        }
    }

    /// What holds of every half. It does nothing: a caller learns the clause.
    #[inline(always)]
    pub fn learn_lawful(&self)
        ensures { IsLawful self.now }
    {
        let _half = &self.half;
    }

    #[inline(always)]
    pub fn not_over(&self) -> Option<&'a SendHalf>
        ensures full { IfSome result (λ half. half.now ≡ self.now) }
        ensures over { IfNone result (IsOver self.now) }
    {
        match self.half {
            Viewed::Over(_) => None,
            Viewed::Full(half) => Some(half),
        }
    }

    #[inline(always)]
    pub fn stop_code(&self) -> Option<u64>
        ensures { result ≡ self.now.lane.stopped }
    {
        match self.half {
            Viewed::Over(_) => None,
            Viewed::Full(half) => half.stop_code(),
        }
    }

    #[inline(always)]
    pub fn stop_changes(&self) -> bool
        ensures { result ≡ stop_changes self.now.lane }
    {
        match self.half {
            Viewed::Over(_) => false,
            Viewed::Full(half) => half.stop_changes(),
        }
    }

    #[inline(always)]
    pub fn asked_changes(&self) -> bool
        ensures { result ≡ asked_changes self.now.lane }
    {
        match self.half {
            Viewed::Over(_) => false,
            Viewed::Full(half) => half.asked_changes(),
        }
    }

    #[inline(always)]
    pub fn state(&self) -> SendState
        ensures { result ≡ state self.now.lane }
    {
        match self.half {
            Viewed::Over(_) => SendState::DataRecvd,
            Viewed::Full(half) => half.state(),
        }
    }

    #[inline(always)]
    pub fn final_size(&self) -> Option<u64>
        ensures value { result ≡ declared_size self.now.lane }
        ensures small { IfSome result (λ size. size ≤ MAX_VARINT) }
    {
        match self.half {
            Viewed::Over(over) => Some(over.written),
            Viewed::Full(half) => half.final_size(),
        }
    }

    #[inline(always)]
    pub fn reset_code(&self) -> Option<u64>
        ensures value { result ≡ option_map (λ (r : Reset). r.code) self.now.lane.was_reset }
        ensures small { IfSome result (λ code. code ≤ MAX_VARINT) }
    {
        match self.half {
            Viewed::Over(_) => None,
            Viewed::Full(half) => half.reset_code(),
        }
    }

    #[inline(always)]
    pub fn written(&self) -> u64
        ensures exact { result ≡ self.now.lane.written }
        ensures small { result ≤ MAX_VARINT }
    {
        match self.half {
            Viewed::Over(over) => over.written,
            Viewed::Full(half) => half.written(),
        }
    }

    #[inline(always)]
    pub fn sent_end(&self) -> u64
        ensures exact { result ≡ self.now.lane.sent_end }
        ensures small { result ≤ MAX_VARINT }
    {
        match self.half {
            Viewed::Over(over) => over.written,
            Viewed::Full(half) => half.sent_end(),
        }
    }

    #[inline(always)]
    pub fn unacked_from(&self) -> u64
        ensures { result ≡ unacked_from self.now.lane }
    {
        match self.half {
            Viewed::Over(over) => over.written,
            Viewed::Full(half) => half.unacked_from(),
        }
    }

    #[inline(always)]
    pub fn limit(&self) -> u64
        ensures exact { result ≡ self.now.lane.limit }
        ensures small { result ≤ MAX_VARINT }
    {
        match self.half {
            Viewed::Over(over) => over.limit,
            Viewed::Full(half) => half.limit(),
        }
    }

    #[inline(always)]
    pub fn room(&self) -> usize
        ensures { result ≡ free_room self.now.lane }
    {
        match self.half {
            Viewed::Over(over) => over.buffer as usize,
            Viewed::Full(half) => half.room(),
        }
    }

    #[inline(always)]
    pub fn held(&self) -> Memory<'a>
        ensures exact { IsMemoryOf self.now.lane result.offsets result.bytes }
        ensures kept { length self.now.lane.kept ≤ result.bytes }
        ensures bound { result.bytes ≤ self.now.lane.widest }
        ensures idle { length self.now.lane.kept ≡ 0 → result.bytes ≤ 4096 }
        ensures reset { is_some self.now.lane.was_reset ≡ true → result.bytes ≡ 0 }
        ensures whole { is_whole self.now.lane ≡ true → result.bytes ≡ 0 }
    {
        match self.half {
            Viewed::Over(_) => Memory {
                bytes: 0,
                offsets: None,
            },
            Viewed::Full(half) => half.held(),
        }
    }

    #[inline(always)]
    pub fn refusal(&self) -> Option<SendFault>
        ensures { result ≡ refusal self.now.lane }
    {
        match self.half {
            Viewed::Over(_) => Some(SendFault::Finished),
            Viewed::Full(half) => half.refusal(),
        }
    }

    #[inline(always)]
    #[tactic(auto, using(crate::proofs::Slots::none_goes))]
    pub fn next_chunk(&self, room: usize, fresh: u64) -> Option<Chunk>
        ensures found { IfSome result (IsNextChunk self.now room fresh) }
        ensures none { IfNone result (HasNoChunk self.now room fresh) }
        ensures kept { IfSome result (HasBytes self.now.lane) }
    {
        match self.half {
            Viewed::Over(_) => None,
            Viewed::Full(half) => half.next_chunk(room, fresh),
        }
    }

    #[inline(always)]
    #[tactic(auto, using(crate::proofs::Slots::none_goes))]
    pub fn is_held_by_room(&self, room: usize, fresh: u64) -> bool
        ensures { IsTrue result ↔ IsHeldByRoom self.now room fresh }
    {
        match self.half {
            Viewed::Over(_) => false,
            Viewed::Full(half) => half.is_held_by_room(room, fresh),
        }
    }

    #[inline(always)]
    pub fn has_unsent(&self) -> bool
        ensures { result ≡ has_unsent self.now.lane }
    {
        match self.half {
            Viewed::Over(_) => false,
            Viewed::Full(half) => half.has_unsent(),
        }
    }

    /// The bytes of a chunk that is still in the buffer, in two pieces if they go around the ring's end.
    #[inline(always)]
    pub fn bytes(&self, chunk: Chunk) -> (&'a [u8], &'a [u8])
        requires { HasBytes self.now.lane chunk }
        ensures bytes { result.0.now ++ result.1.now ≡ bytes_of self.now.lane chunk }
        ensures len { length result.0.now + length result.1.now ≡ chunk.len }
    {
        match self.half {
            Viewed::Over(_) => (&[], &[]),
            Viewed::Full(half) => half.bytes(chunk),
        }
    }
}
