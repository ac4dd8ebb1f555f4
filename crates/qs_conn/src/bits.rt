//! Flags of indexes, as bits of words.
ghost use Rattle.std.specs.Prelude.{◌≡◌, ◌++◌, ◌*◌, ◌-◌, ◌<◌, ◌≤◌, ◌==◌, ◌^◌, [], List, Bool, false, length, slice_set, replicate, take, OnOk, OnErr};
ghost use Rattle.std.specs.Int.{bit_at};
ghost use Rattle.qs_conn.specs.Marks.{is_marked, both, untold, AreUnmarkedFrom};
ghost use Rattle.qs_conn.specs.Words.{IsWordOf};

use qs_ranges::{NoMemory, with_bit};
use std::alloc::Global;
use std::marker::Model;

pub(crate) const FLAGS_PER_WORD: usize = 64;

/// A flag for each index. A search looks at a word of them at a time.
#[derive(Drop)]
pub(crate) struct Bits {
    words: Vec<u64>,
    count: usize,
}

impl Model for Bits {
    ghost use Rattle.std.specs.Prelude.{List, Bool};
    ghost use Rattle.std.specs.Coded.{coded_list, coded_bool};
    ghost use Rattle.qs_conn.specs.Words.{flags, AreFlags};

    ghost Value = { List Bool };

    ghost coded = { coded_list coded_bool };

    ghost view = { λ m. flags m.words.items m.count };

    ghost invariant = { λ m. AreFlags m.words.items m.count };
}

impl Bits {
    pub(crate) fn new(alloc: Global) -> Self
        ensures { result ≡ [] }
    {
        Bits {
            words: Vec::new(alloc),
            count: 0,
        }
    }

    #[tactic(auto, using(crate::proofs::Marked::flags_len))]
    pub(crate) fn len(&self) -> usize
        ensures value { result ≡ length self.now }
        ensures small { result < 2 ^ 64 }
    {
        self.count
    }

    /// How many words they take.
    #[tactic(auto, using(crate::proofs::Marked::flags_len))]
    pub(crate) fn words(&self) -> usize
        ensures room { length self.now ≤ 64 * result }
        ensures few { result ≤ 2 ^ 58 }
    {
        self.words.len()
    }

    #[inline(always)]
    #[tactic(auto, using(crate::proofs::Marked::flags_len, crate::proofs::Marked::none_opened, crate::proofs::Marked::flags_room))]
    pub(crate) fn open_to(&mut self, count: usize) -> Result<(), NoMemory>
        ensures ok { OnOk result (self.new ≡ self.old ++ replicate (count - length self.old) false) }
        ensures err { OnErr result (self.new ≡ self.old) }
    {
        if count <= self.count {
            return Ok(());
        }
        // Mostly the last word has room.
        if (count - 1) / FLAGS_PER_WORD < self.words.len() {
            self.count = count;
            return Ok(());
        }
        self.grow_to(count)
    }

    #[inline(never)]
    fn grow_to(&mut self, count: usize) -> Result<(), NoMemory>
        requires { length self.old < count }
        ensures ok { OnOk result (self.new ≡ self.old ++ replicate (count - length self.old) false) }
        ensures err { OnErr result (self.new ≡ self.old) }
    {
        let words = count.div_ceil(FLAGS_PER_WORD).max(self.words.len());
        match self.words.resize(words, 0) {
            Ok(()) => {
                self.count = count;
                Ok(())
            }
            Err(_refused) => Err(NoMemory),
        }
    }

    /// Takes away the flags from an index on, none of which is set.
    pub(crate) fn close_to(&mut self, count: usize)
        requires { AreUnmarkedFrom self.old count }
        ensures { self.new ≡ take count self.old }
    {
        if count < self.count {
            self.words.truncate(count.div_ceil(FLAGS_PER_WORD));
            self.count = count;
        }
    }

    #[tactic(auto, using(crate::proofs::Marked::mark_in))]
    #[inline(always)]
    pub(crate) fn has(&self, index: usize) -> bool
        ensures { result ≡ is_marked self.now index }
    {
        let word = self.word(index / FLAGS_PER_WORD);
        has_bit(word, index % FLAGS_PER_WORD)
    }

    #[inline(always)]
    pub(crate) fn set(&mut self, index: usize, is_marked: bool)
        requires { index < length self.old }
        ensures { self.new ≡ slice_set self.old index is_marked }
    {
        let place = index / FLAGS_PER_WORD;
        self.words[place] = with_bit(self.words[place], index % FLAGS_PER_WORD, is_marked);
    }
}

/// Flags that are read a word at a time.
pub(crate) trait Row {
    ghost flags: { Self → List Bool };

    /// The flags of 64 indexes: past the last one none is set.
    fn word(&self, place: usize) -> u64
        ensures { IsWordOf (flags self.now) place result };
}

impl Row for Bits {
    ghost flags = { λ m. m };

    #[inline(always)]
    #[tactic(auto, using(crate::proofs::Marked::word_there, crate::proofs::Marked::word_past))]
    fn word(&self, place: usize) -> u64 {
        if place >= self.words.len() {
            return 0;
        }
        self.words[place]
    }
}

/// The flags that two rows share.
#[derive(Drop)]
pub(crate) struct Both<'a> {
    pub(crate) marks: &'a Bits,
    pub(crate) others: &'a Bits,
}

impl Row for Both<'_> {
    ghost flags = { λ r. both r.marks.now r.others.now };

    #[tactic(auto, using(crate::proofs::Boths::word_both))]
    fn word(&self, place: usize) -> u64 {
        self.marks.word(place) & self.others.word(place)
    }
}

/// The same, without those of a third one.
#[derive(Drop)]
pub(crate) struct Left<'a> {
    pub(crate) shared: Both<'a>,
    pub(crate) told: &'a Bits,
}

impl Row for Left<'_> {
    ghost flags = { λ r. untold (both r.shared.marks.now r.shared.others.now) r.told.now };

    #[tactic(auto, using(crate::proofs::Boths::word_both, crate::proofs::Boths::word_untold))]
    fn word(&self, place: usize) -> u64 {
        self.shared.word(place) & !self.told.word(place)
    }
}

#[inline(always)]
fn has_bit(word: u64, bit: usize) -> bool
    requires { bit < 64 }
    ensures { result ≡ (bit_at word bit == 1) }
{
    (word >> bit) & 1 == 1
}
