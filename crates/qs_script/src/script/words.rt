ghost use Rattle.std.specs.Prelude.{◌≡◌, ◌+◌, ◌≤◌, [], ◌==◌, not, length, IfOk, drop, get_or, true, is_ok};
ghost use Rattle.std.specs.List.{list_all, position, position_or_len};
ghost use Rattle.hex.specs.Hex.{decode_of, is_hex_digit};
ghost use Rattle.std.specs.Char.{is_ascii_digit};
ghost use Rattle.std.specs.Str.Parse.{digits_value};
ghost use Rattle.qs_ranges.specs.Numbers.{MAX_VARINT};
ghost use Rattle.qs_script.specs.Scripts.{words_of, side_of, dir_of, number_of, bytes_of, Reads};

use crate::script::Reason;
use qs_calls::{MAX_BYTES, MAX_VARINT, Side};
use qs_wire::{Dir, StreamId};
use std::alloc::Global;

/// The largest of 62 bits has 19 digits. With 20 it is no number, however small its value, so no sum overflows.
const MAX_DIGITS: usize = 19;

/// The next word of a line, empty where there is none, and what follows it.
pub fn next_word(line: &[u8]) -> (&[u8], &[u8])
    ensures word { result.0.now ≡ get_or (words_of line.now) 0 [] }
    ensures rest { words_of result.1.now ≡ drop 1 (words_of line.now) }
    ensures shorter { length result.0.now + length result.1.now ≤ length line.now }
{
    let (_, text) = line.split_at(spaces(line));
    text.split_at(word_len(text))
}

/// How many words a line has.
pub fn count_words(line: &[u8]) -> usize
    ensures { result ≡ length (words_of line.now) }
{
    let mut count = 0;
    let mut rest = line;
    loop {
        let (word, after) = next_word(rest);
        if word.is_empty() {
            return count;
        }
        count += 1;
        rest = after;
    }
}

#[tactic(auto, using(crate::proofs::ScriptWords::or_len))]
fn spaces(line: &[u8]) -> usize
    ensures place { result ≡ position_or_len (λ byte. not (byte == 32)) line.now }
    ensures within { result ≤ length line.now }
{
    first_other(line).unwrap_or(line.len())
}

fn first_other(line: &[u8]) -> Option<usize>
    ensures { result ≡ position (λ byte. not (byte == 32)) line.now }
{
    line.iter().position(|byte| *byte != b' ')
}

#[tactic(auto, using(crate::proofs::ScriptWords::or_len))]
fn word_len(text: &[u8]) -> usize
    ensures place { result ≡ position_or_len (λ byte. byte == 32) text.now }
    ensures within { result ≤ length text.now }
{
    first_space(text).unwrap_or(text.len())
}

fn first_space(text: &[u8]) -> Option<usize>
    ensures { result ≡ position (λ byte. byte == 32) text.now }
{
    text.iter().position(|byte| *byte == b' ')
}

pub fn parse_side(word: &[u8]) -> Result<Side, Reason>
    ensures { result ≡ side_of word.now }
{
    if word == b"A".as_slice() {
        Ok(Side::A)
    } else if word == b"B".as_slice() {
        Ok(Side::B)
    } else {
        Err(Reason::BadEnd)
    }
}

pub fn parse_dir(word: &[u8]) -> Result<Dir, Reason>
    ensures { result ≡ dir_of word.now }
{
    if word == b"bidi".as_slice() {
        Ok(Dir::Bidi)
    } else if word == b"uni".as_slice() {
        Ok(Dir::Uni)
    } else {
        Err(Reason::BadDir)
    }
}

/// A number from `least` to `most`.
pub fn parse_number(word: &[u8], least: u64, most: u64) -> Result<u64, Reason>
    ensures read { result ≡ number_of least most word.now }
    ensures range { IfOk result (λ number. (least ≤ number) × (number ≤ most)) }
{
    if word.is_empty() || word.len() > MAX_DIGITS || !are_digits(word) {
        return Err(Reason::NoNumber);
    }
    let number = decimal(word);
    if least <= number && number <= most {
        Ok(number)
    } else {
        Err(Reason::OutOfRange)
    }
}

fn are_digits(word: &[u8]) -> bool
    ensures { result ≡ list_all is_ascii_digit word.now }
{
    word.iter().all(|byte| byte.is_ascii_digit())
}

fn decimal(digits: &[u8]) -> u64
    requires digits { list_all is_ascii_digit digits.now ≡ true }
    requires short { length digits.now ≤ 19 }
    ensures { result ≡ digits_value 10 digits.now }
{
    let mut number = 0;
    for digit in digits {
        number = number * 10 + u64::from(*digit - b'0');
    }
    number
}

pub fn parse_stream(word: &[u8]) -> Result<StreamId, Reason>
    ensures { result ≡ number_of 0 MAX_VARINT word.now }
{
    StreamId::new(parse_number(word, 0, MAX_VARINT)?).ok_or(Reason::OutOfRange)
}

/// A number from `least` to `most`.
pub fn parse_size(word: &[u8], least: usize, most: usize) -> Result<usize, Reason>
    ensures read { result ≡ number_of least most word.now }
    ensures range { IfOk result (λ size. (least ≤ size) × (size ≤ most)) }
{
    Ok(parse_number(word, least as u64, most as u64)? as usize)
}

/// The bytes that a word spells in hex, a dash being none. At most 65,535.
pub fn parse_bytes(alloc: Global, word: &[u8]) -> Result<Vec<u8>, Reason>
    ensures read { Reads (λ bytes. bytes.items) (bytes_of word.now) result }
    ensures short { IfOk result (λ bytes. length bytes.items ≤ MAX_BYTES) }
{
    if word == b"-".as_slice() {
        return Ok(Vec::new(alloc));
    }
    if !is_hex(word) {
        return Err(Reason::BadHex);
    }
    if word.len() / 2 > MAX_BYTES {
        return Err(Reason::LongWrite);
    }
    let Ok(mut bytes) = vec![in alloc; 0; word.len() / 2] else {
        return Err(Reason::NoMemory);
    };
    match hex::decode_to_slice(word, &mut bytes) {
        Ok(()) => Ok(bytes),
        Err(_) => Err(Reason::BadHex),
    }
}

/// Before memory is asked for.
fn is_hex(word: &[u8]) -> bool
    ensures { result ≡ is_ok (decode_of word.now) }
{
    word.len() % 2 == 0 && are_hex(word)
}

fn are_hex(word: &[u8]) -> bool
    ensures { result ≡ list_all is_hex_digit word.now }
{
    word.iter().all(|byte| byte.is_ascii_hexdigit())
}
