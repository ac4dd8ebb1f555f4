//! Which slots are empty, as far as it was noted: a bit for each, and a bit for each word in which all are. With hints alone no clause of
//! the records speaks of them, and none of their memory has to be there.
ghost use Rattle.std.specs.Prelude.{◌≡◌, ◌≤◌, ◌<◌, ◌≢◌, ◌+◌, ◌-◌, ◌/◌, ◌%◌, ℕ, [], drop, max, true, false};
ghost use Rattle.qs_send.specs.AckPass.{more_turns};
ghost use Rattle.qs_send.specs.Gone.{is_gone};

use crate::ack_pass::one_more;
use qs_ranges::{lowest_bit, with_bit};
use std::alloc::Global;
use std::collections::VecDeque;
use std::marker::Model;

pub(crate) const PER_WORD: usize = 64;

pub(crate) const PER_GROUP: usize = PER_WORD * PER_WORD;

#[derive(Drop)]
pub(crate) struct Gone {
    words: VecDeque<u64>,
    // A search over many empty slots passes 4,096 by one look.
    full: VecDeque<u64>,
}

impl Model for Gone {
    ghost use Rattle.std.specs.Prelude.{ℕ, List};
    ghost use Rattle.std.specs.Coded.{coded_ℕ, coded_list};
    ghost use Rattle.qs_send.specs.Gone.{AreFull};

    ghost Value = { List ℕ };

    ghost coded = { coded_list coded_ℕ };

    ghost view = { λ g. g.words.items };

    ghost invariant = { λ g. AreFull g.full.items g.words.items };
}

impl Gone {
    pub(crate) fn new(alloc: Global) -> Self
        ensures { result ≡ [] }
    {
        Gone {
            words: VecDeque::new(alloc),
            full: VecDeque::new(alloc),
        }
    }

    pub(crate) fn clear(&mut self)
        ensures { self.new ≡ [] }
    {
        self.words.clear();
        self.full.clear();
    }

    /// If memory is refused, slots are looked at themselves: slower, and right.
    pub(crate) fn make_room(&mut self, index: usize)
        ensures { self.new ≡ self.old }
    {
        if index / PER_WORD >= self.words.len() {
            make_room(&mut self.words, index);
            make_room(&mut self.full, index / PER_WORD);
        }
    }

    pub(crate) fn begin(&mut self, index: usize)
        ensures here { is_gone self.new index ≡ false }
        ensures others { (i : ℕ) → i ≢ index → is_gone self.new i ≡ is_gone self.old i }
    {
        if self.is_begun(index) {
            return;
        }
        begin(&mut self.full, index / PER_WORD);
        begin(&mut self.words, index);
    }

    // Mostly so, since a word begins with no bit.
    fn is_begun(&self, index: usize) -> bool
        ensures { result ≡ true → is_gone self.now index ≡ false }
    {
        let place = index / PER_WORD;
        place < self.words.len() && (self.words[place] >> bit_of(index)) & 1 == 0
    }

    pub(crate) fn note(&mut self, index: usize)
        ensures { (i : ℕ) → i ≢ index → is_gone self.new i ≡ is_gone self.old i }
    {
        note(&mut self.words, index);
        let place = index / PER_WORD;
        if is_full(&self.words, place) {
            note(&mut self.full, place);
        }
    }

    /// In groups, so that the words of the words move along by whole words.
    pub(crate) fn drop_group(&mut self)
        ensures { self.new ≡ drop 64 self.old }
    {
        drop_words(&mut self.words);
        let _ = self.full.pop_front();
    }

    /// Each look is counted in `looks`: at a word, together with the word of words and the slot before the end that these lead to, or at
    /// that slot if it has no bit. So the count of a pass stays below that of the slots.
    pub(crate) fn end_of_left(&self, low: usize, end: usize, looks: &mut u64) -> usize
        ensures below { result ≤ end }
        ensures gone { (i : ℕ) → result ≤ i → i < end → is_gone self.now i ≡ true }
        ensures looks { looks.new + max low (result - 1) ≤ looks.old + max low end }
        ensures one { low < end → more_turns looks.old 1 ≤ looks.new }
        ensures counted { looks.old ≤ looks.new }
    {
        let mut left = end;
        while left > low {
            *looks = one_more(*looks);
            let next = end_in_word(&self.words, left);
            if next == left || next % PER_WORD > 0 {
                return next;
            }
            left = end_in_word(&self.full, next / PER_WORD) * PER_WORD;
        }
        left
    }
}

fn make_room(words: &mut VecDeque<u64>, index: usize)
    ensures { words.new.items ≡ words.old.items }
{
    let place = index / PER_WORD;
    if place >= words.len() {
        let _refused = words.reserve(place - words.len() + 1);
    }
}

fn begin(words: &mut VecDeque<u64>, index: usize)
    ensures here { is_gone words.new.items index ≡ false }
    ensures others { (i : ℕ) → i ≢ index → is_gone words.new.items i ≡ is_gone words.old.items i }
{
    let place = index / PER_WORD;
    if place < words.len() {
        words[place] = with_bit(words[place], bit_of(index), false);
    } else if place == words.len() && words.len() < words.capacity() {
        words.push_back_reserved(0);
    }
}

fn note(words: &mut VecDeque<u64>, index: usize)
    ensures more { (i : ℕ) → is_gone words.old.items i ≡ true → is_gone words.new.items i ≡ true }
    ensures others { (i : ℕ) → i ≢ index → is_gone words.new.items i ≡ is_gone words.old.items i }
{
    let place = index / PER_WORD;
    if place < words.len() {
        words[place] = with_bit(words[place], bit_of(index), true);
    }
}

fn drop_words(words: &mut VecDeque<u64>)
    ensures { words.new.items ≡ drop 64 words.old.items }
{
    let mut left = PER_WORD;
    while left > 0 {
        let _ = words.pop_front();
        left -= 1;
    }
}

#[tactic(auto, using(std::proofs::lemmas::Bool::Decides::nat_tests, crate::proofs::Outstanding::full_word))]
fn is_full(words: &VecDeque<u64>, place: usize) -> bool
    ensures { result ≡ true → (i : ℕ) → i / 64 ≡ place → is_gone words.now.items i ≡ true }
{
    place < words.len() && words[place] == u64::MAX
}

fn end_in_word(words: &VecDeque<u64>, end: usize) -> usize
    ensures below { result ≤ end }
    ensures gone { (i : ℕ) → result ≤ i → i < end → is_gone words.now.items i ≡ true }
{
    if end == 0 {
        return 0;
    }
    let last = end - 1;
    let place = last / PER_WORD;
    if place >= words.len() {
        return end;
    }
    match lowest_bit(!words[place], bit_of(last)) {
        Some(bit) => place * PER_WORD + (PER_WORD - bit),
        None => place * PER_WORD,
    }
}

// The lower index has the higher bit, so that a search for the greatest index is one for the lowest bit.
fn bit_of(index: usize) -> usize
    ensures { result ≡ 63 - index % 64 }
{
    PER_WORD - 1 - index % PER_WORD
}
