//! Shows the frames of a payload.

ghost use Rattle.std.specs.Prelude.{◌≡◌, true, false, is_some};
ghost use Rattle.std.specs.List.{list_all};
ghost use Rattle.hex.specs.Hex.{is_hex_digit};
ghost use Rattle.qs_cli.specs.declared.status.Status.TheVariants.{Success, FaultShown};
ghost use Rattle.qs_cli.specs.Runs.{AnswersFrames, IsPayload};

use crate::scripts::show;
use crate::status::Status;
use qs_text::payload_text;
use std::alloc::Global;
use std::io;

/// The most bytes that a payload has.
const MAX_PAYLOAD: usize = 65_535;

/// Writes the frames of the payload that the word spells in hex, a line for each, and then its
/// canonical text or the fault that ends it. `BadUsage` where the word spells no payload of at most 65,535 bytes.
///
/// It is written once the text stands whole: `NoMemory` where memory was refused, and then nothing was written, and `Failed` where
/// writing failed.
pub fn run_frames<W: io::Write>(alloc: Global, word: &str, out: &mut W) -> Status
    ensures { AnswersFrames result word.now (W.contents out.old) (W.contents out.new) }
{
    if payload_fault(word.as_bytes()).is_some() {
        return Status::BadUsage;
    }
    let Ok(payload) = hex::decode(alloc, word) else {
        return Status::NoMemory;
    };
    match payload_text(alloc, &payload) {
        Ok((text, fault)) => show(&text, status_of(fault), out),
        Err(_) => Status::NoMemory,
    }
}

fn status_of(fault: bool) -> Status
    ensures fault { fault ≡ true → result ≡ FaultShown }
    ensures none { fault ≡ false → result ≡ Success }
{
    if fault {
        Status::FaultShown
    } else {
        Status::Success
    }
}

/// Why a word spells no payload of at most 65,535 bytes in hex, if it doesn't. It is judged before memory is asked for, so that such a word is
/// bad usage whatever memory there is.
pub fn payload_fault(word: &[u8]) -> Option<&'static str>
    ensures payload { is_some result ≡ false → IsPayload word.now }
    ensures none { is_some result ≡ true → IsPayload word.now → ⊥ }
{
    if word.len() % 2 != 0 {
        return Some("an odd number of hex digits");
    }
    if word.len() / 2 > MAX_PAYLOAD {
        return Some("more than 65535 bytes");
    }
    if are_hex(word) {
        return None;
    }
    Some("a character is no hex digit")
}

fn are_hex(word: &[u8]) -> bool
    ensures { result ≡ list_all is_hex_digit word.now }
{
    word.iter().all(|byte| byte.is_ascii_hexdigit())
}
