//! Scripts: lines of words, of which each line is an event.

ghost use Rattle.std.specs.Prelude.{◌≡◌, ◌≤◌, ◌<◌, ◌∷◌, ◌++◌, [], length, map, drop, take, IfOk, IfErr, OnOk, true, Ok, None, MatchOption, position, ◌==◌, option_to_list, option_map};
ghost use Rattle.std.specs.List.{list_all};
ghost use Rattle.qs_calls.specs.Events.{fits};
ghost use Rattle.qs_script.specs.Scripts.{lines_of, line_says, bare, script_of, said, Pushes, IsFaultOf, reason_number};

mod line;
mod words;

use line::parse_line;
use qs_calls::Event;
use std::alloc::Global;
use thiserror::Error;

/// Why a line is no event.
#[derive(Clone, Copy, Debug, PartialEq, Eq, Drop, Error)]
pub enum Reason {
    #[error("unknown first word")]
    UnknownWord,
    #[error("wrong number of words")]
    WordCount,
    #[error("an end is A or B")]
    BadEnd,
    #[error("a direction is bidi or uni")]
    BadDir,
    /// A number has 1 to 19 decimal digits.
    #[error("no number")]
    NoNumber,
    #[error("number out of range")]
    OutOfRange,
    /// An even number of hex digits, or a dash for no bytes.
    #[error("bad hex")]
    BadHex,
    #[error("a write of more than 65535 bytes")]
    LongWrite,
    #[error("out of memory")]
    NoMemory,
}

impl Reason {
    /// The reasons counted from 1, as messages name them.
    pub fn number(self) -> u64
        ensures { result ≡ reason_number self }
    {
        match self {
            Reason::UnknownWord => 1,
            Reason::WordCount => 2,
            Reason::BadEnd => 3,
            Reason::BadDir => 4,
            Reason::NoNumber => 5,
            Reason::OutOfRange => 6,
            Reason::BadHex => 7,
            Reason::LongWrite => 8,
            Reason::NoMemory => 9,
        }
    }
}

/// The first line of a script that is no event. Lines are counted from 1.
#[derive(Clone, Copy, Debug, PartialEq, Eq, Drop, Error)]
#[error("line {line}: {reason}")]
pub struct ScriptFault {
    pub line: usize,
    pub reason: Reason,
}

/// The events of a script, in order, or its first faulty line. The time is linear in the bytes.
pub fn parse_script(alloc: Global, script: &[u8]) -> Result<Vec<Event>, ScriptFault>
    ensures fit { IfOk result (λ events. list_all fits events.items ≡ true) }
    ensures events { IfOk result (λ events. script_of script.now ≡ Ok (map said events.items)) }
    ensures fault { IfErr result (λ fault. IsFaultOf script.now fault) }
    ensures counted { IfErr result (λ fault. (1 ≤ fault.line) × (fault.line ≤ length (lines_of script.now))) }
{
    let mut events = Vec::new(alloc);
    let mut rest = script;
    let mut line = 0;
    while !rest.is_empty() {
        let (text, after) = split_line(rest);
        line += 1;
        if let Err(reason) = push_event(alloc, &mut events, text) {
            return Err(ScriptFault { line, reason });
        }
        rest = after;
    }
    Ok(events)
}

/// Without its end: a carriage return before the line feed goes, too, and only one.
fn split_line(text: &[u8]) -> (&[u8], &[u8])
    requires { 0 < length text.now }
    ensures lines { lines_of text.now ≡ result.0.now ∷ lines_of result.1.now }
    ensures shorter { length result.1.now < length text.now }
{
    match line_feed(text) {
        Some(place) => {
            let (line, rest) = text.split_at(place);
            let (_, after) = rest.split_at(1);
            (without_return(line), after)
        }
        None => (text, &[]),
    }
}

fn line_feed(text: &[u8]) -> Option<usize>
    ensures { result ≡ position (λ byte. byte == 10) text.now }
{
    text.iter().position(|byte| *byte == b'\n')
}

#[tactic(auto, using(crate::proofs::ScriptLines::bare_cut, crate::proofs::ScriptLines::bare_whole))]
fn without_return(line: &[u8]) -> &[u8]
    ensures { result.now ≡ bare line.now }
{
    if line.is_empty() {
        return line;
    }
    let last = line.len() - 1;
    if line[last] != b'\r' {
        return line;
    }
    let (text, _) = line.split_at(last);
    text
}

/// Memory is asked for last, so that a faulty line is named whatever memory there is.
fn push_event(alloc: Global, events: &mut Vec<Event>, line: &[u8]) -> Result<(), Reason>
    requires { list_all fits events.old.items ≡ true }
    ensures fit { OnOk result (list_all fits events.new.items ≡ true) }
    ensures said { Pushes (map said events.old.items) (line_says line.now) result (map said events.new.items) }
{
    let Some(event) = parse_line(alloc, line)? else {
        return Ok(());
    };
    match events.push(event) {
        Ok(()) => Ok(()),
        Err(_) => Err(Reason::NoMemory),
    }
}
