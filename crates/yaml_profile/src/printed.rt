//! Scalars as they are printed (YAML 1.2, "Flow Scalar Styles").

ghost use Rattle.std.specs.Prelude.{◌≡◌, ◌++◌, ◌<◌, IfOk, OnOk};
ghost use Rattle.std.specs.Char.{is_ascii_control};
ghost use Rattle.std.specs.List.{list_any, list_all, flat_map};
ghost use Rattle.std.specs.Str.{str_eq_ignore_ascii_case};
ghost use Rattle.yaml_profile.specs.Printed.{begins_plain, is_plain_byte, is_reserved, is_plain, doubled, single_quoted, hex_digit, escaped, double_quoted, printed_scalar};

use ifs_bytes::{Memory, Text};
use std::alloc::Global;

/// The text of a scalar as it is printed. The only error is want of memory.
pub fn scalar_text(alloc: Global, scalar: &[u8]) -> Result<Text, Memory>
    ensures { IfOk result (λ text. text ≡ printed_scalar scalar.now) }
{
    let mut text = Text::new(alloc);
    append_scalar(&mut text, scalar)?;
    Ok(text)
}

/// Appends a scalar as it is printed. The only error is want of memory; what `out` holds then is left open,
/// so the caller drops it.
pub fn append_scalar(out: &mut Text, scalar: &[u8]) -> Result<(), Memory>
    ensures { OnOk result (out.new ≡ out.old ++ printed_scalar scalar.now) }
{
    if stands_plain(scalar) {
        out.append(scalar)
    } else if has_control(scalar) {
        append_double_quoted(out, scalar)
    } else {
        append_single_quoted(out, scalar)
    }
}

// Whether a text stands for itself.
#[tactic(auto, unfolding(crate::specs::Printed::is_plain))]
fn stands_plain(text: &[u8]) -> bool
    ensures { result ≡ is_plain text.now }
{
    match text {
        [] => false,
        [first, rest @ ..] => starts_plain(*first) && all_plain(rest) && !spells_reserved(text),
    }
}

// Whether a plain text may begin with a byte.
#[tactic(auto, unfolding(crate::specs::Printed::begins_plain))]
fn starts_plain(byte: u8) -> bool
    ensures { result ≡ begins_plain byte }
{
    byte.is_ascii_alphabetic() || byte == b'_'
}

// Whether a plain text may have a byte.
#[tactic(auto, unfolding(crate::specs::Printed::is_plain_byte))]
fn may_stand_plain(byte: u8) -> bool
    ensures { result ≡ is_plain_byte byte }
{
    byte.is_ascii_alphanumeric() || byte == b'_' || byte == b'.' || byte == b'-'
}

// Whether a plain text may have each of these bytes.
fn all_plain(bytes: &[u8]) -> bool
    ensures { result ≡ list_all is_plain_byte bytes.now }
{
    bytes.iter().all(|byte| may_stand_plain(*byte))
}

// Whether a text is one of the reserved words, whatever the case of its letters.
#[tactic(auto, unfolding(crate::specs::Printed::is_reserved))]
fn spells_reserved(text: &[u8]) -> bool
    ensures { result ≡ is_reserved text.now }
{
    spells(text, b"true")
        || spells(text, b"false")
        || spells(text, b"null")
        || spells(text, b"yes")
        || spells(text, b"no")
        || spells(text, b"on")
        || spells(text, b"off")
}

// Whether a text is a word, whatever the case of its letters.
fn spells(text: &[u8], word: &[u8]) -> bool
    ensures { result ≡ str_eq_ignore_ascii_case text.now word.now }
{
    text.eq_ignore_ascii_case(word)
}

// Whether a text has a byte below 0x20 or the byte 0x7f, which only double quotes can show.
fn has_control(text: &[u8]) -> bool
    ensures { result ≡ list_any is_ascii_control text.now }
{
    text.iter().any(|byte| byte.is_ascii_control())
}

// Appends a text in single quotes.
fn append_single_quoted(out: &mut Text, text: &[u8]) -> Result<(), Memory>
    ensures { OnOk result (out.new ≡ out.old ++ single_quoted text.now) }
{
    out.push(b'\'')?;
    append_doubling(out, text)?;
    out.push(b'\'')
}

// Appends a text with each single quote doubled.
fn append_doubling(out: &mut Text, text: &[u8]) -> Result<(), Memory>
    ensures { OnOk result (out.new ≡ out.old ++ flat_map doubled text.now) }
{
    for byte in text {
        append_doubled(out, *byte)?;
    }
    Ok(())
}

// Appends a byte of a text in single quotes.
#[tactic(auto, unfolding(crate::specs::Printed::doubled))]
fn append_doubled(out: &mut Text, byte: u8) -> Result<(), Memory>
    ensures { OnOk result (out.new ≡ out.old ++ doubled byte) }
{
    if byte == b'\'' {
        out.append(b"''")
    } else {
        out.push(byte)
    }
}

// Appends a text in double quotes.
fn append_double_quoted(out: &mut Text, text: &[u8]) -> Result<(), Memory>
    ensures { OnOk result (out.new ≡ out.old ++ double_quoted text.now) }
{
    out.push(b'"')?;
    append_escaping(out, text)?;
    out.push(b'"')
}

// Appends a text with its escapes.
fn append_escaping(out: &mut Text, text: &[u8]) -> Result<(), Memory>
    ensures { OnOk result (out.new ≡ out.old ++ flat_map escaped text.now) }
{
    for byte in text {
        append_escaped(out, *byte)?;
    }
    Ok(())
}

// Appends a byte of a text in double quotes.
#[tactic(auto, unfolding(crate::specs::Printed::escaped))]
fn append_escaped(out: &mut Text, byte: u8) -> Result<(), Memory>
    ensures { OnOk result (out.new ≡ out.old ++ escaped byte) }
{
    if byte == b'\\' {
        out.append(b"\\\\")
    } else if byte == b'"' {
        out.append(b"\\\"")
    } else if byte.is_ascii_control() {
        out.append(&[b'\\', b'x', digit(byte / 16), digit(byte % 16)])
    } else {
        out.push(byte)
    }
}

// The digit of a number below 16.
fn digit(number: u8) -> u8
    requires { number < 16 }
    ensures { result ≡ hex_digit number }
{
    if number < 10 {
        b'0' + number
    } else {
        b'a' + number - 10
    }
}
