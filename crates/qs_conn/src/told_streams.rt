//! Which streams were reported to the application.
ghost use Rattle.std.specs.Prelude.{◌≡◌, ◌<◌, ℕ, Bool, false, None, Some, OnOk, OnErr, ◌⊎◌, ◌++◌, ◌+◌, ◌-◌, ◌/◌, ◌≤◌, ◌^◌, [], true, length, slice_get, slice_set, replicate, take};
ghost use Rattle.qs_machine.specs.Tables.{no_streams, table, lookup};
ghost use Rattle.qs_machine.specs.Heard.{is_told, IsToldBeside, IsForgotten};
ghost use Rattle.qs_conn.specs.Marks.{IsClear, is_marked, IsMarkedBeside, IsUnmarkedBeside, AreFull, AreMarkedBelow, AreUnmarkedFrom};

use crate::bits::{Bits, FLAGS_PER_WORD, Row};
use crate::marks::Marks;
use qs_ranges::{NoMemory, lowest_bit};
use qs_streams::{index_of, type_of};
use qs_wire::StreamId;
use std::alloc::Global;
use std::marker::Model;

/// A mark for each stream that was reported, by type and index. One without a place wasn't, so marks take memory only up to the highest.
#[derive(Drop)]
pub(crate) struct ToldStreams {
    // In the order of the two lowest bits of a stream's number.
    types: [ToldMarks; 4],
}

impl Model for ToldStreams {
    ghost use Rattle.std.specs.Prelude.{◌≡◌, length, Bool};
    ghost use Rattle.std.specs.Coded.{coded_bool};
    ghost use Rattle.qs_machine.specs.Tables.{Tables};
    ghost use Rattle.qs_machine.specs.EndCodes.{tables_code};
    ghost use Rattle.qs_machine.specs.Sums.{tables_of};

    ghost Value = { Tables Bool };

    ghost coded = { tables_code coded_bool };

    ghost view = { λ t. tables_of t.types };

    ghost invariant = { λ t. length t.types ≡ 4 };
}

impl ToldStreams {
    pub(crate) fn new(alloc: Global) -> Self
        ensures { result ≡ no_streams }
    {
        ToldStreams {
            types: [
                ToldMarks::new(alloc),
                ToldMarks::new(alloc),
                ToldMarks::new(alloc),
                ToldMarks::new(alloc),
            ],
        }
    }

    #[tactic(auto, using(crate::proofs::Marked::told_read))]
    pub(crate) fn has(&self, stream: StreamId) -> bool
        ensures { result ≡ is_told self.now stream }
    {
        let marks = &self.types[type_of(stream)];
        marks.has(index_of(stream))
    }

    /// Memory only for the highest stream of its type so far.
    #[tactic(auto, using(qs_machine::proofs::TableEdits::lookup_is, qs_machine::proofs::TableEdits::on_ok, crate::proofs::Outboxes::on_error, crate::proofs::Marked::told_beside))]
    pub(crate) fn tell(&mut self, stream: StreamId) -> Result<(), NoMemory>
        ensures ok { OnOk result (IsToldBeside stream self.old self.new) }
        ensures err { OnErr result (self.new ≡ self.old) }
        ensures asks { OnErr result (lookup self.old stream ≡ None) }
    {
        let marks = &mut self.types[type_of(stream)];
        marks.tell(index_of(stream))
    }

    /// The same here and among others, or nowhere.
    #[tactic(auto, using(qs_machine::proofs::TableEdits::lookup_is, qs_machine::proofs::TableEdits::on_ok, crate::proofs::Outboxes::on_error, crate::proofs::Marked::told_beside))]
    pub(crate) fn tell_both(
        &mut self,
        others: &mut ToldStreams,
        stream: StreamId,
    ) -> Result<(), NoMemory>
        ensures here { OnOk result (IsToldBeside stream self.old self.new) }
        ensures there { OnOk result (IsToldBeside stream others.old others.new) }
        ensures err { OnErr result ((self.new ≡ self.old) × (others.new ≡ others.old)) }
        ensures asks { OnErr result ((lookup self.old stream ≡ None) ⊎ (lookup others.old stream ≡ None)) }
    {
        let marks = &mut self.types[type_of(stream)];
        let beside = &mut others.types[type_of(stream)];
        marks.tell_both(beside, index_of(stream))
    }

    #[tactic(auto, using(qs_machine::proofs::TableEdits::updated_is))]
    pub(crate) fn forget(&mut self, stream: StreamId)
        ensures { IsForgotten stream self.old self.new }
    {
        let marks = &mut self.types[type_of(stream)];
        marks.forget(index_of(stream));
    }

    /// A flag, so that mostly nothing is searched.
    #[inline(always)]
    pub(crate) fn may_have(&self) -> bool
        ensures { result ≡ false → (n : ℕ) (b : Bool) → lookup self.now n ≡ Some b → b ≡ false }
    {
        if self.types[0].may_have() {
            return true;
        }
        if self.types[1].may_have() {
            return true;
        }
        if self.types[2].may_have() {
            return true;
        }
        self.types[3].may_have()
    }

    pub(crate) fn of_type(&self, stream_type: usize) -> &ToldMarks
        requires { stream_type < 4 }
        ensures { result.now ≡ table self.now stream_type }
    {
        &self.types[stream_type]
    }
}

/// A mark for each index, and a flag for each word of marks of which every index has one: so a search for what wasn't reported passes 4,096
/// that were by one look.
#[derive(Drop)]
pub(crate) struct ToldMarks {
    marks: Marks,
    // Each index of a word with a flag is marked.
    full: Bits,
    // Each word below it has a flag: a search passes what was told long ago at once.
    first: usize,
}

impl Model for ToldMarks {
    ghost use Rattle.std.specs.Prelude.{List, Bool};
    ghost use Rattle.std.specs.Coded.{coded_list, coded_bool};
    ghost use Rattle.qs_conn.specs.Marks.{AreFull, AreMarkedBelow};

    ghost Value = { List Bool };

    ghost coded = { coded_list coded_bool };

    ghost view = { λ t. t.marks };

    ghost invariant = { λ t. AreFull t.marks t.full × AreMarkedBelow t.full t.first };
}

impl ToldMarks {
    pub(crate) fn new(alloc: Global) -> Self
        ensures { result ≡ [] }
    {
        ToldMarks {
            marks: Marks::new(alloc),
            full: Bits::new(alloc),
            first: 0,
        }
    }

    pub(crate) fn len(&self) -> usize
        ensures { result ≡ length self.now }
    {
        self.marks.len()
    }

    pub(crate) fn has(&self, index: usize) -> bool
        ensures { result ≡ is_marked self.now index }
    {
        self.bits().has(index)
    }

    pub(crate) fn open_to(&mut self, count: usize) -> Result<(), NoMemory>
        requires { count ≤ 2 ^ 60 }
        ensures ok { OnOk result (self.new ≡ self.old ++ replicate (count - length self.old) false) }
        ensures err { OnErr result (self.new ≡ self.old) }
        ensures asks { OnErr result (length self.old < count) }
    {
        if count <= self.marks.len() {
            return Ok(());
        }
        // More flags than there are words of marks say the same of the same words.
        self.full.open_to(count.div_ceil(FLAGS_PER_WORD))?;
        self.marks.open_to(count)
    }

    // Takes away what `open_to` gave.
    fn close_to(&mut self, count: usize)
        requires { AreUnmarkedFrom self.old count }
        ensures { self.new ≡ take count self.old }
    {
        self.marks.close_to(count);
    }

    #[tactic(auto, using(crate::proofs::Marked::full_here, crate::proofs::Marked::full_less, crate::proofs::Marked::full_more, crate::proofs::Marked::below_more, crate::proofs::Marked::below_next))]
    pub(crate) fn set(&mut self, index: usize, is_marked: bool)
        requires { index < length self.old }
        ensures { self.new ≡ slice_set self.old index is_marked }
    {
        if self.marks.has(index) == is_marked {
            return;
        }
        self.marks.set(index, is_marked);
        let word = index / FLAGS_PER_WORD;
        if !is_marked {
            self.full.set(word, false);
            self.first = self.first.min(word);
        } else if self.marks.bits().word(word) == u64::MAX {
            self.full.set(word, true);
            if self.first == word {
                self.first = word + 1;
            }
        }
    }

    #[inline(always)]
    pub(crate) fn may_have(&self) -> bool
        ensures { result ≡ false → IsClear self.now }
    {
        self.marks.may_have()
    }

    /// Room up to it: memory is taken only past the last.
    #[tactic(auto, using(crate::proofs::Marked::marked_beside))]
    pub(crate) fn tell(&mut self, index: usize) -> Result<(), NoMemory>
        requires { index < 2 ^ 60 }
        ensures ok { OnOk result (IsMarkedBeside index self.old self.new) }
        ensures err { OnErr result (self.new ≡ self.old) }
        ensures asks { OnErr result (slice_get self.old index ≡ None) }
    {
        self.open_to(index + 1)?;
        self.set(index, true);
        Ok(())
    }

    /// The same here and among others, or nowhere.
    #[tactic(auto, using(crate::proofs::Marked::marked_beside, crate::proofs::Marked::opened_clear, crate::proofs::Marked::closed_back))]
    pub(crate) fn tell_both(&mut self, others: &mut ToldMarks, index: usize) -> Result<(), NoMemory>
        requires { index < 2 ^ 60 }
        ensures here { OnOk result (IsMarkedBeside index self.old self.new) }
        ensures there { OnOk result (IsMarkedBeside index others.old others.new) }
        ensures err { OnErr result ((self.new ≡ self.old) × (others.new ≡ others.old)) }
        ensures asks { OnErr result ((slice_get self.old index ≡ None) ⊎ (slice_get others.old index ≡ None)) }
    {
        let count = others.len();
        others.open_to(index + 1)?;
        if let Err(refused) = self.tell(index) {
            others.close_to(count);
            return Err(refused);
        }
        others.set(index, true);
        Ok(())
    }

    pub(crate) fn forget(&mut self, index: usize)
        ensures { IsUnmarkedBeside index self.old self.new }
    {
        if index < self.len() {
            self.set(index, false);
        }
    }

    pub(crate) fn marks(&self) -> &Marks
        ensures { result.now ≡ self.now }
    {
        &self.marks
    }

    pub(crate) fn bits(&self) -> &Bits
        ensures { result.now ≡ self.now }
    {
        self.marks.bits()
    }

    pub(crate) fn full(&self) -> &Bits
        ensures { AreFull self.now result.now }
    {
        &self.full
    }

    /// An index below which each was told.
    #[tactic(auto, using(crate::proofs::Marked::below_here))]
    pub(crate) fn first(&self) -> usize
        ensures { AreMarkedBelow self.now result }
    {
        let untold = !self.bits().word(self.first);
        let below = lowest_bit(untold, 0).unwrap_or(FLAGS_PER_WORD);
        self.first
            .saturating_mul(FLAGS_PER_WORD)
            .saturating_add(below)
    }
}
