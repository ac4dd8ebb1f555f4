ghost use Rattle.std.specs.Prelude.{◌≡◌, [], ◌∷◌, IfOk, IfSome, true, length, take, suc, option_map};
ghost use Rattle.qs_calls.specs.Events.{act_fits, fits};
ghost use Rattle.qs_script.specs.Scripts.{all_verbs, verb_among, name_of, kinds_of, values_of, words_of, said, verb_in, values_in, event_of, line_says, is_comment, Reads};

use crate::script::Reason;
use crate::script::words::{
    count_words, next_word, parse_bytes, parse_dir, parse_number, parse_side, parse_size,
    parse_stream,
};
use qs_calls::{Act, Event, MAX_BYTES, MAX_ROOM, MAX_VARINT, MIN_ROOM};
use std::alloc::Global;

/// The first word of a line.
#[derive(Clone, Copy)]
enum Verb {
    Open,
    Accept,
    Write,
    Finish,
    Reset,
    Stop,
    Read,
    Make,
    Lose,
    Claim,
    Deliver,
}

impl Verb {
    const ALL: [Verb; 11] = [
        Verb::Open,
        Verb::Accept,
        Verb::Write,
        Verb::Finish,
        Verb::Reset,
        Verb::Stop,
        Verb::Read,
        Verb::Make,
        Verb::Lose,
        Verb::Claim,
        Verb::Deliver,
    ];

    fn parse(word: &[u8]) -> Result<Verb, Reason>
        ensures { result ≡ verb_among all_verbs word.now }
    {
        for verb in &Verb::ALL {
            if word == verb.name() {
                return Ok(*verb);
            }
        }
        Err(Reason::UnknownWord)
    }

    fn name(self) -> &'static [u8]
        ensures { result.now ≡ name_of self }
    {
        match self {
            Verb::Open => b"open",
            Verb::Accept => b"accept",
            Verb::Write => b"write",
            Verb::Finish => b"finish",
            Verb::Reset => b"reset",
            Verb::Stop => b"stop",
            Verb::Read => b"read",
            Verb::Make => b"make",
            Verb::Lose => b"lose",
            Verb::Claim => b"claim",
            Verb::Deliver => b"deliver",
        }
    }

    /// Counted before any word is read, so that a line with too many is told by that.
    fn more_words(self) -> usize
        ensures { result ≡ suc (length (kinds_of self)) }
    {
        match self {
            Verb::Accept | Verb::Claim => 1,
            Verb::Open | Verb::Finish | Verb::Make | Verb::Lose | Verb::Deliver => 2,
            Verb::Write | Verb::Reset | Verb::Stop | Verb::Read => 3,
        }
    }
}

/// The event of a line, or `None` where it has no word or is a comment.
pub fn parse_line(alloc: Global, line: &[u8]) -> Result<Option<Event>, Reason>
    ensures read { Reads (option_map said) (line_says line.now) result }
    ensures fits { IfOk result (λ event. IfSome event (λ event. fits event ≡ true)) }
{
    if is_comment(line) {
        return Ok(None);
    }
    let (first, rest) = next_word(line);
    if first.is_empty() {
        return Ok(None);
    }
    match parse_event(alloc, first, rest) {
        Ok(event) => Ok(Some(event)),
        Err(reason) => Err(reason),
    }
}

fn is_comment(line: &[u8]) -> bool
    ensures { result ≡ is_comment line.now }
{
    matches!(line.first(), Some(b'#'))
}

fn parse_event(alloc: Global, first: &[u8], rest: &[u8]) -> Result<Event, Reason>
    ensures read { Reads said (event_of first.now (words_of rest.now)) result }
    ensures fits { IfOk result (λ event. fits event ≡ true) }
{
    let verb = Verb::parse(first)?;
    if count_words(rest) != verb.more_words() {
        return Err(Reason::WordCount);
    }
    let (end, rest) = next_word(rest);
    let end = parse_side(end)?;
    let act = parse_act(alloc, verb, rest)?;
    Ok(Event { end, act })
}

fn parse_act(alloc: Global, verb: Verb, words: &[u8]) -> Result<Act, Reason>
    requires { length (words_of words.now) ≡ length (kinds_of verb) }
    ensures said { Reads values_in (values_of (kinds_of verb) (words_of words.now)) result }
    ensures verb { IfOk result (λ act. verb_in act ≡ verb) }
    ensures fits { IfOk result (λ act. act_fits act ≡ true) }
{
    let (third, rest) = next_word(words);
    let (fourth, _) = next_word(rest);
    parse_words(alloc, verb, third, fourth)
}

fn parse_words(alloc: Global, verb: Verb, third: &[u8], fourth: &[u8]) -> Result<Act, Reason>
    ensures said { Reads values_in (values_of (kinds_of verb) (take (length (kinds_of verb)) (third.now ∷ fourth.now ∷ []))) result }
    ensures verb { IfOk result (λ act. verb_in act ≡ verb) }
    ensures fits { IfOk result (λ act. act_fits act ≡ true) }
{
    match verb {
        Verb::Open => Ok(Act::OpenStream(parse_dir(third)?)),
        Verb::Accept => Ok(Act::Accept),
        Verb::Write => {
            let id = parse_stream(third)?;
            Ok(Act::Write(id, parse_bytes(alloc, fourth)?))
        }
        Verb::Finish => Ok(Act::Finish(parse_stream(third)?)),
        Verb::Reset => {
            let id = parse_stream(third)?;
            Ok(Act::Reset(id, parse_number(fourth, 0, MAX_VARINT)?))
        }
        Verb::Stop => {
            let id = parse_stream(third)?;
            Ok(Act::Stop(id, parse_number(fourth, 0, MAX_VARINT)?))
        }
        Verb::Read => {
            let id = parse_stream(third)?;
            Ok(Act::ReadUpTo(id, parse_size(fourth, 0, MAX_BYTES)?))
        }
        Verb::Make => Ok(Act::Make(parse_size(third, MIN_ROOM, MAX_ROOM)?)),
        Verb::Lose => Ok(Act::Lose(parse_number(third, 0, MAX_VARINT)?)),
        Verb::Claim => Ok(Act::Claim),
        Verb::Deliver => Ok(Act::Deliver(parse_number(third, 0, MAX_VARINT)?)),
    }
}
