//! What the outstanding packets carried.
ghost use Rattle.std.specs.Prelude.{◌≡◌, ℕ, ◌+◌, ◌-◌, ◌^◌, ◌<◌, ◌≤◌, ◌↔◌, IsTrue, IfSome, IfNone, OnOk, OnErr, Some, min, max, [], ◌∷◌, length, true, false};
ghost use Rattle.std.specs.FinMap as fmap;
ghost use Rattle.qs_send.specs.AckPass.{more_turns};
ghost use Rattle.qs_send.specs.Records.{Among, AreBelow, IsCarried, IsGreatest, IsGreatestBelow, IsSlotOf, NoneEmpty, first_piece, slot_at, with_record, without_first};

use crate::ack_pass::one_more;
use crate::carried::Carried;
use crate::gone::{self, Gone};
use crate::piece::Piece;
use qs_ranges::NoMemory;
use std::alloc::Global;
use std::collections::VecDeque;
use std::marker::Model;

/// The pieces of each outstanding packet, in the order in which they went in, by packet number (RFC 9000, section 13.3).
///
/// Each number from `base` on has a slot, so a record is found in constant time. A slot is empty if its packet carried nothing or is done:
/// one packet that stays outstanding while many later ones come and go keeps a slot for each of those.
#[derive(Drop)]
pub struct Records {
    base: u64,
    slots: VecDeque<Carried>,
    // Hints as bits, of which the first is that of number `first`: a search looks at one word for 64 slots, and at one for 4,096 that are
    // empty. A slot without a bit, for want of memory, is looked at itself.
    first: u64,
    gone: Gone,
}

impl Model for Records {
    ghost use Rattle.std.specs.Prelude.{◌+◌, ◌≤◌, ◌^◌, length};
    ghost use Rattle.std.specs.VecDeque.{deque_capacity};
    ghost use Rattle.qs_send.specs.Records.{Recorded, packets_of, room_end};
    ghost use Rattle.qs_send.specs.Codes.{recorded_code};
    ghost use Rattle.qs_send.specs.Gone.{AreGone};

    ghost Value = { Recorded };

    ghost coded = { recorded_code };

    ghost view = { λ r. record {
      pieces = packets_of r.base r.slots.items;
      base = r.base;
      slots = length r.slots.items;
      room = room_end r.base (deque_capacity r.slots);
    } };

    ghost invariant = { λ r. (r.base + length r.slots.items ≤ 2 ^ 64) × (r.first ≤ r.base) × AreGone r.gone r.first (packets_of r.base r.slots.items) };
}

impl Records {
    pub fn new(alloc: Global) -> Self
        ensures pieces { result.pieces ≡ fmap.empty }
        ensures slots { result.slots ≡ 0 }
    {
        Records {
            base: 0,
            slots: VecDeque::new(alloc),
            first: 0,
            gone: Gone::new(alloc),
        }
    }

    /// Makes room for the record of a number, which stays until a `put`: before a packet is filled, so that a refusal changes nothing.
    pub fn make_room(&mut self, number: u64) -> Result<(), NoMemory>
        ensures same { self.new.pieces ≡ self.old.pieces }
        ensures slots { self.new.slots ≡ self.old.slots }
        ensures ok { OnOk result (number < self.new.room) }
        ensures err { OnErr result ((self.new.base ≡ self.old.base) × (self.old.room ≤ self.new.room)) }
        ensures beyond { OnErr result (self.old.room ≤ number) }
    {
        if self.slots.is_empty() {
            self.slots.reserve(1)?;
            self.base = number;
            self.first = number;
            self.gone.clear();
            self.gone.make_room(0);
            return Ok(());
        }
        let place = number.saturating_sub(self.base) as usize;
        if place < self.slots.len() {
            return Ok(());
        }
        let more = place - self.slots.len() + 1;
        self.slots.reserve(more)?;
        self.gone.make_room((number - self.first) as usize);
        Ok(())
    }

    /// Holds the pieces of a packet, which come with their memory, so it takes none.
    pub fn put(&mut self, number: u64, pieces: Vec<Piece>)
        requires ready { number < self.old.room }
        requires above { AreBelow self.old.pieces number }
        requires some { 0 < length pieces.items }
        ensures pieces { self.new.pieces ≡ fmap.insert self.old.pieces number pieces.items }
        ensures end { self.new.base + self.new.slots ≡ number + 1 }
    {
        self.end_at(number);
        self.push_slot(Carried::several(pieces));
    }

    /// Holds the one piece of a packet in its slot: with a vector for each, a steady flow of one stream cost a seventh more time.
    pub fn put_one(&mut self, number: u64, piece: Piece)
        requires ready { number < self.old.room }
        requires above { AreBelow self.old.pieces number }
        ensures pieces { self.new.pieces ≡ fmap.insert self.old.pieces number (piece ∷ []) }
        ensures end { self.new.base + self.new.slots ≡ number + 1 }
    {
        self.end_at(number);
        self.push_slot(Carried::one(piece));
    }

    pub fn first(&self, number: u64) -> Option<Piece>
        ensures { result ≡ first_piece (fmap.get self.now.pieces number) }
    {
        match self.slot_of(number) {
            Some(place) => self.slots[place].first(),
            None => None,
        }
    }

    /// The piece of a packet of which one alone is left.
    pub fn only(&self, number: u64) -> Option<Piece>
        ensures alone { IfSome result (λ piece. fmap.get self.now.pieces number ≡ Some (piece ∷ [])) }
        ensures none { IfNone result ((piece : Piece) → fmap.get self.now.pieces number ≡ Some (piece ∷ []) → ⊥) }
    {
        match self.slot_of(number) {
            Some(place) => self.slots[place].only(),
            None => None,
        }
    }

    /// Drops the first piece of a packet, and the record with the last. If the number isn't held, nothing changes.
    pub fn drop_first(&mut self, number: u64)
        ensures pieces { self.new.pieces ≡ without_first self.old.pieces number (fmap.get self.old.pieces number) }
        ensures base { self.new.base ≡ self.old.base }
        ensures slots { self.new.slots ≡ self.old.slots }
        ensures room { self.new.room ≡ self.old.room }
    {
        if let Some(place) = self.slot_of(number) {
            self.slots[place].drop_first();
            self.note(place);
        }
    }

    /// Drops the empty slots before the first record. After an ACK or a loss, and not as records go: a pass that goes on keeps its places.
    pub fn trim(&mut self)
        ensures pieces { self.new.pieces ≡ self.old.pieces }
        ensures room { self.old.room ≤ self.new.room }
        ensures end { self.new.base + self.new.slots ≤ self.old.base + self.old.slots }
        ensures first { 0 < self.new.slots → fmap.contains_key self.new.pieces self.new.base ≡ true }
    {
        while self.starts_empty() {
            self.drop_front();
            self.drop_group();
        }
    }

    pub fn holds(&self, piece: Piece) -> bool
        ensures { IsTrue result ↔ IsCarried self.now.pieces piece }
    {
        some_has(&self.slots, piece)
    }

    pub fn is_held(&self, number: u64) -> bool
        ensures { result ≡ fmap.contains_key self.now.pieces number }
    {
        match self.slot_of(number) {
            Some(place) => self.is_filled(place),
            None => false,
        }
    }

    #[tactic(auto, using(crate::proofs::Outstanding::greatest_of, crate::proofs::Outstanding::nothing_of))]
    pub fn greatest(&self) -> Option<u64>
        ensures found { IfSome result (IsGreatest self.now.pieces) }
        ensures none { IfNone result ((k : ℕ) → fmap.contains_key self.now.pieces k ≡ false) }
    {
        self.last_of(self.slots.len())
    }

    /// The greatest number below `number` that is held.
    pub fn below(&self, number: u64) -> Option<u64>
        ensures found { IfSome result (IsGreatestBelow self.now.pieces number) }
        ensures none { IfNone result ((k : ℕ) → k < number → fmap.contains_key self.now.pieces k ≡ false) }
    {
        let count = number.saturating_sub(self.base) as usize;
        self.last_of(count.min(self.slots.len()))
    }

    /// Each packet that is held has a piece. It does nothing: a proof calls it for what it ensures.
    #[tactic(auto, using(crate::proofs::Outstanding::nothing_is_empty))]
    pub fn learn_none_empty(&self)
        ensures { NoneEmpty self.now.pieces }
    {
        let _slots = &self.slots;
    }

    /// The number of the first slot. No lower one is held.
    #[tactic(auto, using(crate::proofs::Outstanding::not_below))]
    pub fn base(&self) -> u64
        ensures value { result ≡ self.now.base }
        ensures below { (k : ℕ) → k < result → fmap.contains_key self.now.pieces k ≡ false }
    {
        self.base
    }

    /// Each look is counted in `looks`: at a word of bits, with the word of words and the slot that it leads to, or at a slot without a
    /// bit.
    pub(crate) fn within(&self, low: u64, below: u64, looks: &mut u64) -> Option<u64>
        ensures found { IfSome result (λ k. (low ≤ k) × (k < below) × (fmap.contains_key self.now.pieces k ≡ true)) }
        ensures slot { IfSome result (λ k. (self.now.base ≤ k) × (k < self.now.base + self.now.slots)) }
        ensures above { IfSome result (λ k. (j : ℕ) → k < j → j < below → fmap.contains_key self.now.pieces j ≡ false) }
        ensures none { IfNone result ((j : ℕ) → low ≤ j → j < below → fmap.contains_key self.now.pieces j ≡ false) }
        ensures given { IfSome result (λ k. looks.new + (k - self.now.base) ≤ looks.old + min (below - self.now.base) self.now.slots) }
        ensures past { IfNone result (looks.new + min (low - self.now.base) (min (below - self.now.base) self.now.slots) ≤ looks.old + min (below - self.now.base) self.now.slots) }
        ensures one { IfSome result (λ _. more_turns looks.old 1 ≤ looks.new) }
        ensures counted { looks.old ≤ looks.new }
    {
        let from = low.saturating_sub(self.base) as usize;
        let below = below.saturating_sub(self.base) as usize;
        let count = below.min(self.slots.len());
        if self.slots.len() < gone::PER_WORD {
            return self.last_looked_at(from, count, looks);
        }
        self.last_from(from, count, looks)
    }

    #[tactic(auto, using(crate::proofs::Outstanding::not_below, crate::proofs::Outstanding::not_past))]
    fn slot_of(&self, number: u64) -> Option<usize>
        ensures found { IfSome result (IsSlotOf self.now.base self.now.slots number) }
        ensures none { IfNone result (fmap.contains_key self.now.pieces number ≡ false) }
    {
        if number < self.base {
            return None;
        }
        let place = (number - self.base) as usize;
        if place < self.slots.len() {
            Some(place)
        } else {
            None
        }
    }

    #[tactic(auto, using(crate::proofs::Outstanding::none_of))]
    fn last_of(&self, count: usize) -> Option<u64>
        requires { count ≤ self.now.slots }
        ensures found { IfSome result (IsGreatestBelow self.now.pieces (self.now.base + count)) }
        ensures none { IfNone result ((k : ℕ) → k < self.now.base + count → fmap.contains_key self.now.pieces k ≡ false) }
    {
        let _slots = &self.slots;
        self.last_from(0, count, &mut 0)
    }

    #[inline(always)]
    fn last_from(&self, from: usize, count: usize, looks: &mut u64) -> Option<u64>
        requires { count ≤ self.now.slots }
        ensures found { IfSome result (λ k. (self.now.base + from ≤ k) × (k < self.now.base + count) × (fmap.contains_key self.now.pieces k ≡ true)) }
        ensures above { IfSome result (λ k. (j : ℕ) → k < j → j < self.now.base + count → fmap.contains_key self.now.pieces j ≡ false) }
        ensures none { IfNone result ((j : ℕ) → self.now.base + from ≤ j → j < self.now.base + count → fmap.contains_key self.now.pieces j ≡ false) }
        ensures given { IfSome result (λ k. looks.new + (k - self.now.base) ≤ looks.old + count) }
        ensures past { IfNone result (looks.new + min from count ≤ looks.old + count) }
        ensures one { IfSome result (λ _. more_turns looks.old 1 ≤ looks.new) }
        ensures counted { looks.old ≤ looks.new }
    {
        let mut place = count;
        while place > from {
            let end = self.end_of_left(from, place, looks);
            if end <= from {
                return None;
            }
            place = end - 1;
            if self.is_filled(place) {
                return Some(self.base + place as u64);
            }
        }
        None
    }

    fn last_looked_at(&self, from: usize, count: usize, looks: &mut u64) -> Option<u64>
        requires { count ≤ self.now.slots }
        ensures found { IfSome result (λ k. (self.now.base + from ≤ k) × (k < self.now.base + count) × (fmap.contains_key self.now.pieces k ≡ true)) }
        ensures above { IfSome result (λ k. (j : ℕ) → k < j → j < self.now.base + count → fmap.contains_key self.now.pieces j ≡ false) }
        ensures none { IfNone result ((j : ℕ) → self.now.base + from ≤ j → j < self.now.base + count → fmap.contains_key self.now.pieces j ≡ false) }
        ensures given { IfSome result (λ k. looks.new + (k - self.now.base) ≤ looks.old + count) }
        ensures past { IfNone result (looks.new + min from count ≤ looks.old + count) }
        ensures one { IfSome result (λ _. more_turns looks.old 1 ≤ looks.new) }
        ensures counted { looks.old ≤ looks.new }
    {
        let mut place = count;
        while place > from {
            *looks = one_more(*looks);
            place -= 1;
            if self.is_filled(place) {
                return Some(self.base + place as u64);
            }
        }
        None
    }

    // As low as the bits permit, down to `from`. Each look is counted, also that at the slot before the end.
    fn end_of_left(&self, from: usize, count: usize, looks: &mut u64) -> usize
        requires some { from < count }
        requires within { count ≤ self.now.slots }
        ensures below { result ≤ count }
        ensures gone { (k : ℕ) → self.now.base + result ≤ k → k < self.now.base + count → fmap.contains_key self.now.pieces k ≡ false }
        ensures looks { looks.new + max from (result - 1) ≤ looks.old + count }
        ensures one { more_turns looks.old 1 ≤ looks.new }
        ensures counted { looks.old ≤ looks.new }
    {
        let skew = (self.base - self.first) as usize;
        match skew.checked_add(count) {
            Some(end) => self
                .gone
                .end_of_left(skew + from, end, looks)
                .saturating_sub(skew),
            None => {
                *looks = one_more(*looks);
                count
            }
        }
    }

    // No clause sees the note, which is a hint. Of few slots each is looked at itself, so that a short queue pays for no bits.
    fn note(&mut self, place: usize)
        requires { place < self.old.slots }
        ensures { self.new ≡ self.old }
    {
        if self.slots.len() >= gone::PER_WORD && !self.is_filled(place) {
            let skew = (self.base - self.first) as usize;
            self.gone.note(skew + place);
        }
    }

    #[tactic(auto, using(std::proofs::lemmas::List::get_or_read, crate::proofs::Outstanding::filled_slot))]
    fn is_filled(&self, place: usize) -> bool
        requires { place < self.now.slots }
        ensures { result ≡ fmap.contains_key self.now.pieces (self.now.base + place) }
    {
        self.slots[place].len() > 0
    }

    // In groups, so that bits move along by whole words. No clause sees it.
    fn drop_group(&mut self)
        ensures { self.new ≡ self.old }
    {
        if self.base - self.first >= gone::PER_GROUP as u64 {
            self.gone.drop_group();
            self.first += gone::PER_GROUP as u64;
        }
    }

    fn starts_empty(&self) -> bool
        ensures { IsTrue result ↔ ((0 < self.now.slots) × (fmap.contains_key self.now.pieces self.now.base ≡ false)) }
    {
        match self.slots.front() {
            Some(slot) => slot.len() == 0,
            None => false,
        }
    }

    fn drop_front(&mut self)
        requires some { 0 < self.old.slots }
        requires empty { fmap.contains_key self.old.pieces self.old.base ≡ false }
        ensures pieces { self.new.pieces ≡ self.old.pieces }
        ensures slots { self.new.slots + 1 ≡ self.old.slots }
        ensures room { self.old.room ≤ self.new.room }
        ensures end { self.new.base + self.new.slots ≤ self.old.base + self.old.slots }
    {
        drop(self.slots.pop_front());
        if !self.slots.is_empty() {
            self.base += 1;
        }
    }

    fn end_at(&mut self, number: u64)
        requires ready { number < self.old.room }
        requires above { AreBelow self.old.pieces number }
        ensures pieces { self.new.pieces ≡ self.old.pieces }
        ensures room { number < self.new.room }
        ensures end { self.new.base + self.new.slots ≡ number }
    {
        if !self.ends_at(number) {
            self.move_end(number);
        }
    }

    // Mostly so, since packets are numbered one after the other.
    fn ends_at(&self, number: u64) -> bool
        ensures { result ≡ true → self.now.base + self.now.slots ≡ number }
    {
        number >= self.base && number - self.base == self.slots.len() as u64
    }

    #[inline(never)]
    fn move_end(&mut self, number: u64)
        requires ready { number < self.old.room }
        requires above { AreBelow self.old.pieces number }
        ensures pieces { self.new.pieces ≡ self.old.pieces }
        ensures room { number < self.new.room }
        ensures end { self.new.base + self.new.slots ≡ number }
    {
        self.drop_from(number);
        self.start_at(number);
        self.fill_to(number);
    }

    // Mostly there are none: a number that was claimed, or an ACK alone, left them.
    fn drop_from(&mut self, number: u64)
        requires { AreBelow self.old.pieces number }
        ensures pieces { self.new.pieces ≡ self.old.pieces }
        ensures room { self.new.room ≡ self.old.room }
        ensures end { 0 < self.new.slots → self.new.base + self.new.slots ≤ number }
    {
        while self.ends_past(number) {
            self.drop_back();
        }
    }

    fn ends_past(&self, number: u64) -> bool
        ensures { IsTrue result ↔ ((0 < self.now.slots) × (number < self.now.base + self.now.slots)) }
    {
        number.saturating_sub(self.base) < self.slots.len() as u64
    }

    fn drop_back(&mut self)
        requires some { 0 < self.old.slots }
        requires empty { fmap.contains_key self.old.pieces (self.old.base + self.old.slots - 1) ≡ false }
        ensures pieces { self.new.pieces ≡ self.old.pieces }
        ensures slots { self.new.slots + 1 ≡ self.old.slots }
        ensures room { self.new.room ≡ self.old.room }
    {
        drop(self.slots.pop_back());
    }

    // Otherwise the slots of all numbers since would be filled in, empty.
    fn start_at(&mut self, number: u64)
        requires ready { number < self.old.room }
        requires above { 0 < self.old.slots → self.old.base + self.old.slots ≤ number }
        ensures pieces { self.new.pieces ≡ self.old.pieces }
        ensures room { number < self.new.room }
        ensures end { self.new.base + self.new.slots ≤ number }
    {
        if self.slots.is_empty() {
            self.base = number;
            self.first = number;
            self.gone.clear();
        }
    }

    fn fill_to(&mut self, number: u64)
        requires ready { number < self.old.room }
        requires end { self.old.base + self.old.slots ≤ number }
        ensures pieces { self.new.pieces ≡ self.old.pieces }
        ensures room { number < self.new.room }
        ensures end { self.new.base + self.new.slots ≡ number }
    {
        while self.ends_before(number) {
            let place = self.slots.len();
            self.push_slot(Carried::empty());
            self.note(place);
        }
    }

    fn ends_before(&self, number: u64) -> bool
        requires { self.now.base ≤ number }
        ensures { IsTrue result ↔ (self.now.base + self.now.slots < number) }
    {
        self.slots.len() < (number - self.base) as usize
    }

    #[tactic(auto, using(crate::proofs::Outstanding::slot_pushed, crate::proofs::Outstanding::gone_beside, crate::proofs::Outstanding::pushed_beside))]
    fn push_slot(&mut self, slot: Carried)
        requires ready { self.old.base + self.old.slots < self.old.room }
        requires small { self.old.base + self.old.slots < 2 ^ 64 }
        ensures pieces { self.new.pieces ≡ with_record self.old.pieces (self.old.base + self.old.slots) slot }
        ensures base { self.new.base ≡ self.old.base }
        ensures slots { self.new.slots ≡ self.old.slots + 1 }
        ensures room { self.new.room ≡ self.old.room }
    {
        let index = (self.base - self.first) as usize + self.slots.len();
        self.gone.begin(index);
        self.slots.push_back_reserved(slot);
    }
}

fn some_has(slots: &VecDeque<Carried>, piece: Piece) -> bool
    ensures { IsTrue result ↔ ((k : ℕ) × (k < length slots.now.items) × Among piece (slot_at slots.now.items k)) }
{
    slots.iter().any(|slot| slot.has(piece))
}
