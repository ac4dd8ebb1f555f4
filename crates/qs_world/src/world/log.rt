//! The log of a world, in which a payload is found by its number.
ghost use Rattle.std.specs.Prelude.{◌≡◌, ◌+◌, ◌<◌, ◌≤◌, ◌^◌, ◌++◌, ◌∷◌, [], length, reverse, true, Some, None, IfSome, IfNone, OnOk, OnErr, vec_len, vec_capacity, slice_get, if◌then◌else◌};
ghost use Rattle.qs_runs.specs.Logs.{made, payload, same_side, ping_text};
ghost use Rattle.qs_runs.specs.Events.{happened};
ghost use Rattle.qs_world.specs.Places.{ArePlaces, IsPlaceOf, makes, makes_by, text_of};

use qs_calls::{Act, Answer, Event, Side};
use std::alloc::{AllocError, Global};
use std::marker::Model;

/// The places of payloads are kept beside, so that a payload stands in memory once and is found in constant time.
///
/// Contracts see the log, the newest first, and whether there is room for one event more.
#[derive(Drop)]
pub(crate) struct Log {
    entries: Vec<(Event, Answer)>,
    made_a: Vec<usize>,
    made_b: Vec<usize>,
}

impl Model for Log {
    ghost use Rattle.std.specs.Prelude.{◌&&◌, reverse, nat_lt, vec_len, vec_capacity};
    ghost use Rattle.qs_calls.specs.declared.event.Side.TheVariants.{A, B};
    ghost use Rattle.qs_runs.specs.Logs.{made};
    ghost use Rattle.qs_runs.specs.Events.{happened};
    ghost use Rattle.qs_world.specs.Places.{Logged, logged_code, ArePlaces};
    ghost use Rattle.qs_calls.specs.contracts.event.Event as event;
    ghost use Rattle.qs_calls.specs.contracts.answer.Answer as answer;

    ghost Value = { Logged };

    ghost coded = { logged_code event.the_row.coded answer.the_row.coded };

    ghost view = { λ l. record {
      history = reverse l.entries.items;
      ready = nat_lt (vec_len l.entries) (vec_capacity l.entries) && (nat_lt (vec_len l.made_a) (vec_capacity l.made_a) && nat_lt (vec_len l.made_b) (vec_capacity l.made_b));
    } };

    ghost invariant = { λ l. ArePlaces l.entries.items l.made_a.items (made A (happened (reverse l.entries.items))) × ArePlaces l.entries.items l.made_b.items (made B (happened (reverse l.entries.items))) };
}

impl Log {
    pub(crate) fn new(alloc: Global) -> Log
        ensures { result.history ≡ [] }
    {
        Log {
            entries: Vec::new(alloc),
            made_a: Vec::new(alloc),
            made_b: Vec::new(alloc),
        }
    }

    pub(crate) fn len(&self) -> usize
        ensures value { result ≡ length self.now.history }
        ensures small { result < 2 ^ 63 }
    {
        self.entries.len()
    }

    #[tactic(auto, using(crate::proofs::Places::places_count))]
    pub(crate) fn made(&self, end: Side) -> u64
        ensures { result ≡ length (made end (happened self.now.history)) }
    {
        self.places(end).len() as u64
    }

    pub(crate) fn payload(&self, end: Side, number: u64) -> Option<&[u8]>
        ensures found { IfSome result (λ text. payload end number (happened self.now.history) ≡ Some text.now) }
        ensures none { IfNone result (payload end number (happened self.now.history) ≡ None) }
    {
        let Some(place) = self.place(end, number) else {
            return None;
        };
        text_of(&self.entries[place].1)
    }

    #[tactic(auto, using(crate::proofs::Places::is_place_of, crate::proofs::Places::no_place_of))]
    fn place(&self, end: Side, number: u64) -> Option<usize>
        ensures found { IfSome result (IsPlaceOf end number self.now.history) }
        ensures none { IfNone result (payload end number (happened self.now.history) ≡ None) }
    {
        nth(self.places(end), number)
    }

    fn places(&self, end: Side) -> &[usize]
        ensures { ArePlaces (reverse self.now.history) result.now (made end (happened self.now.history)) }
    {
        match end {
            Side::A => &self.made_a,
            Side::B => &self.made_b,
        }
    }

    /// It stays until the next `push`, so that what happened is always logged.
    pub(crate) fn make_room(&mut self) -> Result<(), AllocError>
        ensures same { self.new.history ≡ self.old.history }
        ensures ok { OnOk result (self.new.ready ≡ true) }
    {
        self.entries.reserve(1)?;
        self.made_a.reserve(1)?;
        self.made_b.reserve(1)?;
        Ok(())
    }

    /// It takes no memory: `make_room` did.
    pub(crate) fn push(&mut self, event: Event, answer: Answer)
        requires { self.old.ready ≡ true }
        ensures { self.new.history ≡ (event, answer) ∷ self.old.history }
    {
        let place = self.entries.len();
        let by_a = makes(Side::A, &event, &answer);
        let by_b = makes(Side::B, &event, &answer);
        note(&mut self.made_a, by_a, place);
        note(&mut self.made_b, by_b, place);
        add(&mut self.entries, event, answer);
    }

    pub(crate) fn entries(&self) -> &[(Event, Answer)]
        ensures { result.now ≡ reverse self.now.history }
    {
        &self.entries
    }

    pub(crate) fn into_entries(self) -> Vec<(Event, Answer)>
        ensures { result.items ≡ reverse self.history }
    {
        self.entries
    }
}

fn nth(numbers: &[usize], place: u64) -> Option<usize>
    ensures { result ≡ slice_get numbers.now place }
{
    numbers.get(place as usize).copied()
}

// Under a claimed number the transport sends a packet of its own: a PING.
fn ping_text() -> &'static [u8]
    ensures { result.now ≡ ping_text }
{
    b"\x01"
}

fn text_of(answer: &Answer) -> Option<&[u8]>
    ensures found { IfSome result (λ text. text_of answer.now ≡ Some text.now) }
    ensures none { IfNone result (text_of answer.now ≡ None) }
{
    match answer {
        Answer::Make(_, text) => Some(text),
        Answer::Claim(_) => Some(ping_text()),
        _ => None,
    }
}

fn makes(end: Side, event: &Event, answer: &Answer) -> bool
    ensures { result ≡ makes end event.now answer.now }
{
    if same_side(end, event.end) {
        makes_by(&event.act, answer)
    } else {
        false
    }
}

fn makes_by(act: &Act, answer: &Answer) -> bool
    ensures { result ≡ makes_by act.now answer.now }
{
    match (act, answer) {
        (Act::Make(_), Answer::Make(Ok(Some(_)), _)) => true,
        (Act::Claim, Answer::Claim(Ok(_))) => true,
        _ => false,
    }
}

pub(super) fn same_side(a: Side, b: Side) -> bool
    ensures { result ≡ same_side a b }
{
    match (a, b) {
        (Side::A, Side::A) => true,
        (Side::B, Side::B) => true,
        _ => false,
    }
}

fn note(places: &mut Vec<usize>, made: bool, place: usize)
    requires { vec_len places.old < vec_capacity places.old }
    ensures { places.new.items ≡ (if made then places.old.items ++ place ∷ [] else places.old.items) }
{
    if made {
        let _ = places.push(place);
    }
}

fn add(entries: &mut Vec<(Event, Answer)>, event: Event, answer: Answer)
    requires { vec_len entries.old < vec_capacity entries.old }
    ensures { entries.new.items ≡ entries.old.items ++ (event, answer) ∷ [] }
{
    let _ = entries.push((event, answer));
}
