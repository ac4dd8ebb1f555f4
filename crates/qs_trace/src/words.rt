//! Words of a trace.

ghost use Rattle.std.specs.Prelude.{◌≡◌, ◌++◌, OnOk};
ghost use Rattle.std.specs.String.{string_bytes};
ghost use Rattle.qs_runs.specs.Logs.{same_side};
ghost use Rattle.qs_trace.specs.FrameJson.{naming, quoted, empty_member, number_member, word_member, bytes_member, dir_json, flag_json};

use qs_calls::Side;
use qs_wire::Dir;
use std::alloc::{AllocError, Global};

/// Appends the name of a further member of an object.
#[tactic(auto, unfolding(crate::specs::FrameJson::naming))]
pub fn push_name(text: &mut String, name: &str) -> Result<(), AllocError>
    ensures { OnOk result (string_bytes text.new ≡ string_bytes text.old ++ naming name.now) }
{
    text.push_str(",\"")?;
    text.push_str(name)?;
    text.push_str("\":")
}

/// Appends a word between quotation marks.
#[tactic(auto, unfolding(crate::specs::FrameJson::quoted))]
pub fn push_quoted(text: &mut String, word: &str) -> Result<(), AllocError>
    ensures { OnOk result (string_bytes text.new ≡ string_bytes text.old ++ quoted word.now) }
{
    text.push_str("\"")?;
    text.push_str(word)?;
    text.push_str("\"")
}

/// Appends a member that is a number.
#[tactic(auto, unfolding(crate::specs::FrameJson::number_member))]
pub fn push_number(text: &mut String, name: &str, number: u64) -> Result<(), AllocError>
    ensures { OnOk result (string_bytes text.new ≡ string_bytes text.old ++ number_member name.now number) }
{
    push_name(text, name)?;
    write!(text, "{number}")
}

/// Appends a member that is an object without members.
#[tactic(auto, unfolding(crate::specs::FrameJson::empty_member))]
pub fn push_empty(text: &mut String, name: &str) -> Result<(), AllocError>
    ensures { OnOk result (string_bytes text.new ≡ string_bytes text.old ++ empty_member name.now) }
{
    push_name(text, name)?;
    text.push_str("{}")
}

/// Appends a member that is a word.
#[tactic(auto, unfolding(crate::specs::FrameJson::word_member))]
pub fn push_word(text: &mut String, name: &str, word: &str) -> Result<(), AllocError>
    ensures { OnOk result (string_bytes text.new ≡ string_bytes text.old ++ word_member name.now word.now) }
{
    push_name(text, name)?;
    push_quoted(text, word)
}

/// Appends a member that is bytes, as lower-case hex.
#[tactic(auto, unfolding(crate::specs::FrameJson::bytes_member))]
pub fn push_bytes(
    alloc: Global,
    text: &mut String,
    name: &str,
    bytes: &[u8],
) -> Result<(), AllocError>
    ensures { OnOk result (string_bytes text.new ≡ string_bytes text.old ++ bytes_member name.now bytes.now) }
{
    let encoded = hex::encode(alloc, bytes)?;
    push_word(text, name, encoded.as_str())
}

pub fn flag_name(flag: bool) -> &'static str
    ensures { result.now ≡ flag_json flag }
{
    if flag { "true" } else { "false" }
}

pub fn dir_name(dir: Dir) -> &'static str
    ensures { result.now ≡ dir_json dir }
{
    match dir {
        Dir::Bidi => "bidirectional",
        Dir::Uni => "unidirectional",
    }
}

pub fn is_same(a: Side, b: Side) -> bool
    ensures { result ≡ same_side a b }
{
    match (a, b) {
        (Side::A, Side::A) => true,
        (Side::A, Side::B) => false,
        (Side::B, Side::A) => false,
        (Side::B, Side::B) => true,
    }
}
