//! Which streams of one type may have something to send or to tell.
ghost use Rattle.std.specs.Prelude.{List, Bool, None, ◌≡◌, ◌++◌, ◌+◌, ◌*◌, ◌-◌, ◌<◌, ◌≤◌, ◌^◌, ℕ, [], true, false, Some, length, slice_set, option_map, replicate, take, IfSome, OnOk, OnErr};
ghost use Rattle.qs_machine.specs.News.{IsLeast};
ghost use Rattle.qs_conn.specs.Marks.{IsClear, is_marked, HasRoom, IsClearedFrom, IsWider, IsNextMark, IsMarkedOf, AreSummed, AreUnmarkedFrom, both, untold};
ghost use Rattle.qs_streams.specs.Flags.{least_of};

use crate::bits::{Bits, Both, FLAGS_PER_WORD, Left, Row};
use crate::told_streams::ToldMarks;
use qs_ranges::{NoMemory, lowest_bit};
use qs_streams::index_from;
use std::alloc::Global;
use std::marker::Model;

/// A mark for each index of the streams of one type, and a flag for each word of marks that has one: so a search looks at one word of flags
/// for 4,096 indexes without a mark, and at none if no index has one.
#[derive(Drop)]
pub(crate) struct Marks {
    marks: Bits,
    // A word without a flag has no mark.
    words: Bits,
    // The least one with a mark.
    first: Option<usize>,
    // No index past it has a mark.
    last: usize,
}

impl Model for Marks {
    ghost use Rattle.std.specs.Prelude.{◌+◌, ◌≤◌, ◌^◌, List, Bool, length};
    ghost use Rattle.std.specs.Coded.{coded_list, coded_bool};
    ghost use Rattle.qs_conn.specs.Marks.{AreSummed, AreUnmarkedFrom, IsNextMark};

    ghost Value = { List Bool };

    ghost coded = { coded_list coded_bool };

    ghost view = { λ m. m.marks };

    ghost invariant = { λ m. AreSummed m.marks m.words × AreUnmarkedFrom m.marks (m.last + 1) × IsNextMark m.marks 0 m.first × (length m.marks ≤ 2 ^ 60) };
}

impl Marks {
    pub(crate) fn new(alloc: Global) -> Self
        ensures { result ≡ [] }
    {
        Marks {
            marks: Bits::new(alloc),
            words: Bits::new(alloc),
            first: None,
            last: 0,
        }
    }

    /// Whether some index has a mark.
    #[inline(always)]
    pub(crate) fn may_have(&self) -> bool
        ensures { result ≡ false → IsClear self.now }
    {
        self.first.is_some()
    }

    pub(crate) fn has(&self, index: usize) -> bool
        ensures { result ≡ is_marked self.now index }
    {
        self.marks.has(index)
    }

    pub(crate) fn len(&self) -> usize
        ensures { result ≡ length self.now }
    {
        self.marks.len()
    }

    pub(crate) fn bits(&self) -> &Bits
        ensures { result.now ≡ self.now }
    {
        &self.marks
    }

    pub(crate) fn open_to(&mut self, count: usize) -> Result<(), NoMemory>
        requires { count ≤ 2 ^ 60 }
        ensures ok { OnOk result (self.new ≡ self.old ++ replicate (count - length self.old) false) }
        ensures err { OnErr result (self.new ≡ self.old) }
    {
        if count <= self.len() {
            return Ok(());
        }
        // More words than there are marks for sum up the same marks.
        self.words.open_to(count.div_ceil(FLAGS_PER_WORD))?;
        self.marks.open_to(count)
    }

    /// Takes away the indexes from one on, none of which is marked.
    pub(crate) fn close_to(&mut self, count: usize)
        requires { AreUnmarkedFrom self.old count }
        ensures { self.new ≡ take count self.old }
    {
        self.marks.close_to(count);
    }

    /// Makes room for an index, where all below it have room. It comes in blocks, so that mostly it is there.
    #[inline(always)]
    #[tactic(auto, using(crate::proofs::Marked::wider_same, crate::proofs::Marked::wider_opened, crate::proofs::Marked::room_opened))]
    pub(crate) fn make_room(&mut self, index: usize) -> Result<(), NoMemory>
        requires { index < 2 ^ 60 }
        ensures wider { IsWider self.old self.new }
        ensures ok { OnOk result (HasRoom index self.old → HasRoom (index + 1) self.new) }
    {
        if index % FLAGS_PER_WORD > 0 {
            return Ok(());
        }
        self.open_to(index + FLAGS_PER_WORD)
    }

    /// Takes away each mark from an index on.
    pub(crate) fn clear_from(&mut self, count: usize)
        ensures { IsClearedFrom count self.old self.new }
    {
        for index in count..self.len() {
            self.set(index, false);
        }
    }

    /// Where there is room for the index: past it none is marked.
    #[inline(always)]
    #[tactic(auto, using(crate::proofs::Marked::marked_below))]
    pub(crate) fn set(&mut self, index: usize, is_marked: bool)
        ensures { self.new ≡ slice_set self.old index is_marked }
    {
        // Most marks stay as they are.
        if self.marks.has(index) == is_marked {
            return;
        }
        if is_marked {
            self.turn_on(index);
        } else {
            self.turn_off(index);
        }
    }

    // Both apart, so that a caller that changes nothing pays for one look at the mark.
    #[inline(never)]
    #[tactic(auto, using(crate::proofs::Marked::summed_set, crate::proofs::Marked::next_marked, crate::proofs::Marked::unmarked_set, std::proofs::lemmas::List::set_past))]
    fn turn_on(&mut self, index: usize)
        ensures { self.new ≡ slice_set self.old index true }
    {
        if index >= self.len() {
            return;
        }
        self.marks.set(index, true);
        self.words.set(index / FLAGS_PER_WORD, true);
        self.first = least_index(self.first, index);
        self.last = self.last.max(index);
    }

    #[inline(never)]
    fn turn_off(&mut self, index: usize)
        requires { index < length self.old }
        ensures { self.new ≡ slice_set self.old index false }
    {
        self.marks.set(index, false);
        let word = index / FLAGS_PER_WORD;
        self.words.set(word, self.marks.word(word) != 0);
        if self.first == Some(index) {
            self.first = least_left(index, self.last, &self.marks, &self.words);
        }
    }

    #[tactic(auto, using(crate::proofs::Marked::next_small))]
    pub(crate) fn next(&self, from: usize) -> Option<usize>
        ensures next { IsNextMark self.now from result }
        ensures small { IfSome result (λ n. n < 2 ^ 60) }
    {
        match self.first {
            Some(first) if first < from => least_from(from, &self.marks, &self.words),
            first => first,
        }
    }

    /// The same of the streams of a type, by number.
    pub(crate) fn next_stream(&self, stream_type: usize, from: u64) -> Option<u64>
        requires stream_type { stream_type < 4 }
        requires from { from ≤ 2 ^ 62 }
        ensures least { IsLeast (IsMarkedOf self.now stream_type) from result }
        ensures small { IfSome result (λ n. n < 2 ^ 62) }
    {
        numbered(stream_type, self.next(index_from(stream_type, from)))
    }

    /// The least stream of a type with both marks, by number.
    #[inline(never)]
    #[tactic(auto, using(crate::proofs::Marked::next_small, crate::proofs::Boths::both_len))]
    pub(crate) fn next_both(&self, others: &Marks, stream_type: usize) -> Option<u64>
        requires { stream_type < 4 }
        ensures least { IsLeast (IsMarkedOf (both self.now others.now) stream_type) 0 result }
        ensures small { IfSome result (λ n. n < 2 ^ 62) }
    {
        if !self.may_have() {
            return None;
        }
        if !others.may_have() {
            return None;
        }
        let summary = Both {
            marks: &self.words,
            others: &others.words,
        };
        let row = Both {
            marks: &self.marks,
            others: &others.marks,
        };
        numbered(stream_type, search(0, self.marks.words(), &summary, &row))
    }

    /// The least stream of a type from a number on with both marks that wasn't told. If only these marks count, they are both, so that one
    /// search serves all.
    #[inline(always)]
    pub(crate) fn next_untold(
        &self,
        others: &Marks,
        told: &ToldMarks,
        stream_type: usize,
        from: u64,
    ) -> Option<u64>
        requires stream_type { stream_type < 4 }
        requires from { from ≤ 2 ^ 62 }
        ensures least { IsLeast (IsMarkedOf (untold (both self.now others.now) told.now) stream_type) from result }
        ensures small { IfSome result (λ n. n < 2 ^ 62) }
    {
        let first = self.first?;
        let below = told.first();
        // Mostly all with a mark were told.
        if self.last < below {
            return None;
        }
        let start = index_from(stream_type, from).max(first).max(below);
        numbered(stream_type, self.least_untold(others, told, start))
    }

    #[inline(always)]
    #[tactic(auto, using(crate::proofs::Marked::left_small))]
    fn least_untold(&self, others: &Marks, told: &ToldMarks, from: usize) -> Option<usize>
        ensures next { IsNextMark (untold (both self.now others.now) told.now) from result }
        ensures small { IfSome result (λ n. n < 2 ^ 60) }
    {
        let words = Both {
            marks: &self.words,
            others: &others.words,
        };
        let marks = Both {
            marks: &self.marks,
            others: &others.marks,
        };
        let summary = Left {
            shared: words,
            told: told.full(),
        };
        let row = Left {
            shared: marks,
            told: told.bits(),
        };
        search(from, self.marks.words(), &summary, &row)
    }
}

// The stream of a type that has an index.
fn numbered(stream_type: usize, index: Option<usize>) -> Option<u64>
    requires stream_type { stream_type < 4 }
    requires index { IfSome index (λ i. i < 2 ^ 60) }
    ensures value { result ≡ option_map (λ i. i * 4 + stream_type) index }
    ensures small { IfSome result (λ n. n < 2 ^ 62) }
{
    match index {
        Some(index) => Some((index * 4 + stream_type) as u64),
        None => None,
    }
}

// The lesser of an index and another one, where there is one.
fn least_index(first: Option<usize>, index: usize) -> Option<usize>
    ensures { result ≡ least_of first (Some index) }
{
    match first {
        Some(first) => Some(first.min(index)),
        None => Some(index),
    }
}

// The least marked index from one on that has lost its mark. Mostly it was the only one.
fn least_left(index: usize, last: usize, marks: &Bits, words: &Bits) -> Option<usize>
    requires summed { AreSummed marks.now words.now }
    requires lost { is_marked marks.now index ≡ false }
    requires last { AreUnmarkedFrom marks.now (last + 1) }
    ensures { IsNextMark marks.now index result }
{
    if last == index {
        return None;
    }
    least_from(index, marks, words)
}

// The least marked index from an index on. It stands apart, so that where no search is wanted a caller doesn't pay for its room.
#[inline(never)]
fn least_from(from: usize, marks: &Bits, words: &Bits) -> Option<usize>
    requires { AreSummed marks.now words.now }
    ensures { IsNextMark marks.now from result }
{
    search(from, marks.words(), words, marks)
}

/// The least flag of a row from an index on, within a count of words. In a word without a flag in the summary there is none.
#[inline(always)]
fn search<S: Row, R: Row>(from: usize, words: usize, summary: &S, row: &R) -> Option<usize>
    requires few { words ≤ 2 ^ 58 }
    requires within { length (R.flags row.now) ≤ 64 * words }
    requires summed { AreSummed (R.flags row.now) (S.flags summary.now) }
    ensures { IsNextMark (R.flags row.now) from result }
{
    let mut place = from / FLAGS_PER_WORD;
    let mut bit = from % FLAGS_PER_WORD;
    while place < words {
        if let Some(flag) = lowest_bit(row.word(place), bit) {
            return Some(place * FLAGS_PER_WORD + flag);
        }
        place = next_word(place + 1, words, summary);
        bit = 0;
    }
    None
}

// The least word from one on that has a flag in the summary, or one past the last.
#[inline(always)]
fn next_word<S: Row>(from: usize, words: usize, summary: &S) -> usize
    requires { words ≤ 2 ^ 58 }
    ensures from { from ≤ result }
    ensures passed { (word : ℕ) → from ≤ word → word < result → is_marked (S.flags summary.now) word ≡ false }
{
    let mut bit = from % FLAGS_PER_WORD;
    for place in from / FLAGS_PER_WORD..words.div_ceil(FLAGS_PER_WORD) {
        if let Some(flag) = lowest_bit(summary.word(place), bit) {
            return place * FLAGS_PER_WORD + flag;
        }
        bit = 0;
    }
    from.max(words)
}
