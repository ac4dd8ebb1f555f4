//! The sending halves of the streams of one type, by index. One that is over takes 24 bytes, since it stays for the connection's life.
ghost use Rattle.std.specs.Prelude.{◌≡◌, ◌+◌, ◌*◌, ◌/◌, ◌%◌, ◌≤◌, ◌<◌, ◌^◌, ◌⊎◌, ◌==◌, ◌++◌, ◌∷◌, ℕ, [], length, take, slice_set, Some, None, OnOk, OnErr, IfSome, IfNone};
ghost use Rattle.std.specs.Borrow.{sem};
ghost use Rattle.qs_ranges.specs.Numbers.{MAX_VARINT};
ghost use Rattle.qs_send.specs.Lane.{after_allow, after_buffer, after_blocked};
ghost use Rattle.qs_send.specs.Halves.{half_at, slot_half, halves_from, IsOver, IsOverSlot, ArePlaced};
ghost use Rattle.qs_send.specs.LendsHalf.{lends_half};
ghost use Rattle.qs_send.specs.Sound.{IsLawful};

pub(crate) mod slot;

use crate::half::SendHalf;
use crate::view::SendView;
use qs_ranges::NoMemory;
use slot::SendSlot;
use std::alloc::Global;
use std::marker::Model;

/// Each half has a slot. One that is over stands in it; the others stand in a vector, and their slots name their places: a half that is
/// over fills its slot, so a box wouldn't fit beside it.
#[derive(Drop)]
pub struct SendHalves {
    stream_type: u64,
    slots: Vec<SendSlot>,
    full: Vec<SendHalf>,
}

impl Model for SendHalves {
    ghost use Rattle.std.specs.Prelude.{◌<◌, List};
    ghost use Rattle.std.specs.Coded.{coded_list};
    ghost use Rattle.qs_send.specs.Lane.{Sending};
    ghost use Rattle.qs_send.specs.Codes.{sending_code};

    ghost Value = { List Sending };

    ghost coded = { coded_list sending_code };

    ghost use Rattle.std.specs.Prelude.{length};
    ghost use Rattle.qs_send.specs.Halves.{halves_from, ArePlaced};

    ghost view = { λ h. halves_from h.stream_type h.full.items 0 h.slots.items };

    ghost invariant = { λ h. (h.stream_type < 4) × ArePlaced h.slots.items (length h.full.items) };
}

impl SendHalves {
    pub fn new(alloc: Global, stream_type: u64) -> Self
        requires { stream_type < 4 }
        ensures { result ≡ [] }
    {
        SendHalves {
            stream_type,
            slots: Vec::new(alloc),
            full: Vec::new(alloc),
        }
    }

    #[inline(always)]
    #[tactic(auto, using(crate::proofs::Slots::len_halves))]
    pub fn len(&self) -> usize
        ensures value { result ≡ length self.now }
        ensures small { result ≤ 2 ^ 60 }
    {
        self.slots.len()
    }

    #[inline(always)]
    pub fn at(&self, index: usize) -> SendView<'_>
        requires { index < length self.now }
        ensures half { result ≡ half_at self.now index }
        ensures lawful { IsLawful result }
    {
        let slot = self.slots[index];
        match slot.written.get() {
            Some(written) => {
                let number = index as u64 * 4 + self.stream_type;
                SendView::of_over(number, written, slot)
            }
            None => SendView::of_full(&self.full[slot.rest as usize]),
        }
    }

    /// A half that isn't over, to be read.
    #[inline(always)]
    pub fn full(&self, index: usize) -> Option<&SendHalf>
        requires { index < length self.now }
        ensures found { IfSome result (λ half. half.now ≡ half_at self.now index) }
        ensures over { IfNone result (IsOver (half_at self.now index)) }
    {
        let slot = self.slots[index];
        if slot.is_over() {
            return None;
        }
        Some(&self.full[slot.rest as usize])
    }

    /// A half that isn't over, to be changed.
    #[inline(always)]
    pub fn full_mut(&mut self, index: usize) -> Option<&mut SendHalf>
        requires { index < length self.old }
        ensures* writes_back { sem 𝓛 (lends_half self.entry index result) }
        ensures found { IfSome result (λ half. half.now ≡ half_at self.old index) }
        ensures over { IfNone result (IsOver (half_at self.old index)) }
    {
        let none = self.full.len();
        let place = self.slots[index].place_or(none);
        self.full.get_mut(place)
    }

    #[tactic(auto, using(crate::proofs::Slots::halves_push))]
    pub fn push(&mut self, half: SendHalf) -> Result<(), NoMemory>
        requires { length self.old < 2 ^ 60 }
        ensures ok { OnOk result (self.new ≡ self.old ++ half ∷ []) }
        ensures err { OnErr result (self.new ≡ self.old) }
    {
        let slot = SendSlot::full(self.full.len());
        if let Err(_refused) = self.full.push(half) {
            return Err(NoMemory);
        }
        if let Err(_refused) = self.slots.push(slot) {
            let _half = self.full.pop();
            return Err(NoMemory);
        }
        Ok(())
    }

    /// Takes the halves from a count on away: an opening that found no memory for the rest is undone.
    pub fn truncate(&mut self, count: usize)
        ensures { self.new ≡ take count self.old }
    {
        while self.slots.len() > count {
            let last = self.slots.len() - 1;
            put_over(&mut self.slots, &mut self.full, last, SendSlot::none());
            self.slots.truncate(last);
        }
    }

    /// Keeps a half in its slot if it is over. That takes no memory, and frees some.
    pub fn settle(&mut self, index: usize)
        requires { index < length self.old }
        ensures { self.new ≡ self.old }
    {
        let slot = self.slots[index];
        if slot.is_over() {
            return;
        }
        let half = &self.full[slot.rest as usize];
        let Some(over) = half.over(index as u64 * 4 + self.stream_type) else {
            return;
        };
        put_over(&mut self.slots, &mut self.full, index, over);
    }

    pub fn allow(&mut self, index: usize, limit: u64)
        requires there { index < length self.old }
        requires limit { limit ≤ MAX_VARINT }
        ensures { self.new ≡ slice_set self.old index (after_allow (half_at self.old index) limit) }
    {
        let slot = &mut self.slots[index];
        if !slot.is_over() {
            self.full[slot.rest as usize].allow(limit);
            return;
        }
        let now = slot.rest / 2;
        slot.rest = now.max(limit) * 2 + slot.rest % 2;
    }

    pub fn set_buffer(&mut self, index: usize, size: u32)
        requires { index < length self.old }
        ensures { self.new ≡ slice_set self.old index (after_buffer (half_at self.old index) size) }
    {
        let slot = &mut self.slots[index];
        if !slot.is_over() {
            self.full[slot.rest as usize].set_buffer(size);
            return;
        }
        slot.buffer = size;
        slot.widest = slot.widest.max(size);
    }

    pub fn note_blocked(&mut self, index: usize)
        requires { index < length self.old }
        ensures { self.new ≡ slice_set self.old index (after_blocked (half_at self.old index)) }
    {
        let slot = &mut self.slots[index];
        if !slot.is_over() {
            self.full[slot.rest as usize].note_blocked();
            return;
        }
        slot.rest = slot.rest / 2 * 2 + 1;
    }
}

// The last half moves to the place that gets free, so that the vector has no holes. Its slot has to name that, so nothing changes if the
// half's number doesn't lead to the slot.
fn put_over(slots: &mut Vec<SendSlot>, full: &mut Vec<SendHalf>, index: usize, over: SendSlot)
    requires there { index < length slots.old.items }
    requires placed { ArePlaced slots.old.items (length full.old.items) }
    requires over { (n : ℕ) × IsOverSlot over n }
    ensures placed { ArePlaced slots.new.items (length full.new.items) }
    ensures len { length slots.new.items ≡ length slots.old.items }
    ensures put { (kind : ℕ) → let was = halves_from kind full.old.items 0 slots.old.items in
        let now = halves_from kind full.new.items 0 slots.new.items in
        (now ≡ was) ⊎ (now ≡ slice_set was index (slot_half (index * 4 + kind) [] over over.written)) }
{
    let slot = slots[index];
    if slot.is_over() {
        return;
    }
    let place = slot.rest as usize;
    let last = full.len() - 1;
    let owner = full[last].index() as usize;
    if owner >= slots.len() {
        return;
    }
    let mut moved = slots[owner];
    if moved.is_over() || moved.rest as usize != last {
        return;
    }
    moved.rest = slot.rest;
    slots[owner] = moved;
    slots[index] = over;
    full.swap_remove(place);
}
