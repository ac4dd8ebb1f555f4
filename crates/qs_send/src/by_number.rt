//! Records of lost packets by number: a pass over an ACK finds each by one search, and mostly by a look beside the last.
ghost use Rattle.std.specs.Prelude.{◌≡◌, ℕ, ◌<◌, ◌≤◌, length, IfOk, IfErr, IfSome, IfNone, OnOk, OnErr, None, true, false, is_ok};
ghost use Rattle.std.specs.FinMap as fmap;
ghost use Rattle.qs_send.specs.ByNumber.{IsAt, IsCut, IsGapAt, lookup, map_of, room_for};
ghost use Rattle.qs_send.specs.LostRecords.{with_piece};
ghost use Rattle.qs_send.specs.Records.{IsGreatestBelow, first_piece, without_first};

use crate::lost_record::{LostRecord, hold};
use crate::piece::Piece;
use qs_ranges::NoMemory;
use std::alloc::Global;
use std::marker::Model;
use std::mem;

/// The records in the order of their numbers, and the memory for the pieces of the next one, so that losing packets one after the other
/// takes none.
#[derive(Drop)]
pub(crate) struct ByNumber {
    alloc: Global,
    records: Vec<LostRecord>,
    spare: Vec<Piece>,
}

impl Model for ByNumber {
    ghost use Rattle.std.specs.Prelude.{◌≡◌, ◌-◌, [], min, vec_len, vec_capacity};
    ghost use Rattle.qs_send.specs.ByNumber.{Listed, listed_code, AreRising};

    ghost Value = { Listed };

    ghost coded = { listed_code };

    ghost view = { λ b. record { records = b.records.items; spare = min (vec_capacity b.records - vec_len b.records) (vec_capacity b.spare) } };

    ghost invariant = { λ b. AreRising 0 b.records.items × (b.spare.items ≡ []) };
}

impl ByNumber {
    pub(crate) fn new(alloc: Global) -> Self
        ensures { map_of result.records ≡ fmap.empty }
    {
        ByNumber {
            alloc,
            records: Vec::new(alloc),
            spare: Vec::new(alloc),
        }
    }

    /// Apart from `add`, so that a caller asks for memory before it moves a piece.
    pub(crate) fn reserve(&mut self, number: u64) -> Result<(), NoMemory>
        ensures same { map_of self.new.records ≡ map_of self.old.records }
        ensures ok { OnOk result (0 < room_for self.new number) }
        ensures more { (n : ℕ) → room_for self.old n ≤ room_for self.new n }
        ensures stands { OnErr result (room_for self.old number ≡ 0) }
    {
        match self.place_of(number) {
            Ok(place) => self.records[place].reserve(),
            Err(_) => self.reserve_record(),
        }
    }

    pub(crate) fn add(&mut self, number: u64, piece: Piece)
        requires { 0 < room_for self.old number }
        ensures { map_of self.new.records ≡ with_piece (map_of self.old.records) number piece (fmap.get (map_of self.old.records) number) }
    {
        match self.place_of(number) {
            Ok(place) => self.records[place].push(piece),
            Err(place) => self.insert(place, number, piece),
        }
    }

    pub(crate) fn first(&self, number: u64) -> Option<Piece>
        ensures { result ≡ first_piece (fmap.get (map_of self.now.records) number) }
    {
        match self.place_of(number) {
            Ok(place) => self.records[place].first(),
            Err(_) => None,
        }
    }

    pub(crate) fn drop_first(&mut self, number: u64)
        ensures { map_of self.new.records ≡ without_first (map_of self.old.records) number (fmap.get (map_of self.old.records) number) }
    {
        if let Ok(place) = self.place_of(number) {
            if self.records[place].is_last() {
                self.remove(number);
            } else {
                self.records[place].drop_first();
            }
        }
    }

    /// Little memory stays for the next record's pieces; much would stay for ever.
    pub(crate) fn remove(&mut self, number: u64)
        ensures { map_of self.new.records ≡ fmap.remove (map_of self.old.records) number }
    {
        if let Ok(place) = self.place_of(number) {
            self.spare = self.records.remove(place).emptied();
        }
    }

    pub(crate) fn is_held(&self, number: u64) -> bool
        ensures { result ≡ fmap.contains_key (map_of self.now.records) number }
    {
        self.place_of(number).is_ok()
    }

    /// Looks at the place `near` first, and leaves there the place of the next one below: a pass goes from high numbers to low.
    pub(crate) fn below(&self, number: u64, near: &mut usize) -> Option<u64>
        ensures found { IfSome result (IsGreatestBelow (map_of self.now.records) number) }
        ensures none { IfNone result ((k : ℕ) → k < number → fmap.contains_key (map_of self.now.records) k ≡ false) }
    {
        let records = &self.records;
        let count = self.count_near(number, *near);
        if count == 0 {
            return None;
        }
        *near = count - 1;
        Some(records[count - 1].number())
    }

    // An ACK names runs of numbers, so the next record mostly stands beside the last one, and a search is spared.
    fn count_near(&self, number: u64, near: usize) -> usize
        ensures cut { IsCut number self.now.records result }
        ensures within { result ≤ length self.now.records }
    {
        if self.parts_at(number, near) {
            return near;
        }
        self.count_below(number)
    }

    fn parts_at(&self, number: u64, count: usize) -> bool
        ensures cut { result ≡ true → IsCut number self.now.records count }
        ensures within { result ≡ true → count ≤ length self.now.records }
    {
        let records = &self.records;
        if count > records.len() {
            return false;
        }
        if count > 0 && records[count - 1].number() >= number {
            return false;
        }
        if count < records.len() && records[count].number() < number {
            return false;
        }
        true
    }

    #[tactic(auto, using(crate::proofs::Outstanding::cut_at, crate::proofs::Outstanding::cut_gap))]
    fn count_below(&self, number: u64) -> usize
        ensures cut { IsCut number self.now.records result }
        ensures within { result ≤ length self.now.records }
    {
        match self.place_of(number) {
            Ok(place) => place,
            Err(place) => place,
        }
    }

    // No search past the last record and at the first: lost packets mostly go in at the back, and the oldest leaves at the front.
    fn place_of(&self, number: u64) -> Result<usize, usize>
        ensures found { IfOk result (IsAt number self.now.records) }
        ensures gap { IfErr result (IsGapAt number self.now.records) }
        ensures is { is_ok result ≡ fmap.contains_key (map_of self.now.records) number }
        ensures none { IfErr result (λ _. lookup number self.now.records ≡ None) }
        ensures held { IfOk result (λ place. place < length self.now.records) }
        ensures free { IfErr result (λ place. place ≤ length self.now.records) }
    {
        let records = &self.records;
        let count = records.len();
        if count > 0 && records[count - 1].number() < number {
            return Err(count);
        }
        if count > 0 && records[0].number() == number {
            return Ok(0);
        }
        self.search_for(number)
    }

    #[inline(never)]
    fn search_for(&self, number: u64) -> Result<usize, usize>
        ensures found { IfOk result (IsAt number self.now.records) }
        ensures gap { IfErr result (IsGapAt number self.now.records) }
        ensures is { is_ok result ≡ fmap.contains_key (map_of self.now.records) number }
        ensures none { IfErr result (λ _. lookup number self.now.records ≡ None) }
        ensures held { IfOk result (λ place. place < length self.now.records) }
        ensures free { IfErr result (λ place. place ≤ length self.now.records) }
    {
        self.records
            .binary_search_by_key(&number, |record| record.number())
    }

    fn reserve_record(&mut self) -> Result<(), NoMemory>
        ensures same { self.new.records ≡ self.old.records }
        ensures ok { OnOk result (0 < self.new.spare) }
        ensures more { self.old.spare ≤ self.new.spare }
        ensures stands { OnErr result (self.old.spare ≡ 0) }
    {
        self.records.reserve(1)?;
        self.spare.reserve(1)?;
        Ok(())
    }

    fn insert(&mut self, place: usize, number: u64, piece: Piece)
        requires gap { IsGapAt number self.old.records place }
        requires within { place ≤ length self.old.records }
        requires room { 0 < self.old.spare }
        ensures { map_of self.new.records ≡ with_piece (map_of self.old.records) number piece (fmap.get (map_of self.old.records) number) }
    {
        hold(&mut self.spare, piece);
        let pieces = mem::replace(&mut self.spare, Vec::new(self.alloc));
        let _ = self.records.insert(place, LostRecord::new(number, pieces));
    }
}
