//! Words and bytes as text.

ghost use Rattle.std.specs.Prelude.{◌≡◌, ◌++◌, OnOk};
ghost use Rattle.std.specs.String.{string_bytes};
ghost use Rattle.qs_text.specs.EventText.{hex_text, code_text, side_text, dir_text, yes_text, closing_text};

use qs_calls::{Closing, Side};
use qs_wire::Dir;
use std::alloc::{AllocError, Global};

/// Appends bytes as lower-case hex, or a dash where there are none.
pub fn push_hex(alloc: Global, text: &mut String, bytes: &[u8]) -> Result<(), AllocError>
    ensures { OnOk result (string_bytes text.new ≡ string_bytes text.old ++ hex_text bytes.now) }
{
    if bytes.is_empty() {
        return text.push_str("-");
    }
    let encoded = hex::encode(alloc, bytes)?;
    text.push_str(encoded.as_str())
}

/// Appends a code or a type: at least two lower-case hex digits.
pub fn push_code(text: &mut String, code: u64) -> Result<(), AllocError>
    ensures { OnOk result (string_bytes text.new ≡ string_bytes text.old ++ code_text code) }
{
    if code < 16 {
        write!(text, "0x0{code:x}")
    } else {
        write!(text, "0x{code:x}")
    }
}

pub fn yes_no(flag: bool) -> &'static str
    ensures { result.now ≡ yes_text flag }
{
    if flag { "yes" } else { "no" }
}

pub fn dir_name(dir: Dir) -> &'static str
    ensures { result.now ≡ dir_text dir }
{
    match dir {
        Dir::Bidi => "bidi",
        Dir::Uni => "uni",
    }
}

pub fn side_name(side: Side) -> &'static str
    ensures { result.now ≡ side_text side }
{
    match side {
        Side::A => "A",
        Side::B => "B",
    }
}

/// Appends why an end closed.
pub fn push_closing(text: &mut String, closing: Closing) -> Result<(), AllocError>
    ensures { OnOk result (string_bytes text.new ≡ string_bytes text.old ++ closing_text closing) }
{
    text.push_str("closing ")?;
    push_code(text, closing.code)?;
    text.push_str(" ")?;
    push_code(text, closing.frame_type)?;
    write!(text, " {}", closing.place)
}
