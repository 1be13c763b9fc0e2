//! Plain and quoted scalars on a line (YAML 1.2, "Flow Scalar Styles").

ghost use Rattle.std.specs.Prelude.{◌≡◌, ◌≤◌, ◌<◌, ◌++◌, length, zero, false, OnOk, IfSome};
ghost use Rattle.yaml_tokens.specs.Scalars.{gap, is_dubious, is_indicator, begins_plain, ends_plain, plain_size, single_size, double_size, within, kept, undoubled, escape_text, next_text, next_size, unescaped, is_bad_escape, bad_escape};

use crate::byte::{begins_with, behind, is_blank, is_flow, is_left_out, is_quote};
use crate::escape::{Escape, escape_at};
use ifs_bytes::{Memory, Text};

// Whether a blank or the line's end stands first, or an indicator of flow where flow is.
#[tactic(auto, unfolding(crate::specs::Scalars::gap))]
fn gap(flow: bool, rest: &[u8]) -> bool
    ensures { result ≡ gap flow rest.now }
{
    match rest {
        [] => true,
        [byte, ..] => is_blank(*byte) || flow && is_flow(*byte),
    }
}

// Whether a byte begins a plain scalar only where no gap follows.
#[tactic(auto, unfolding(crate::specs::Scalars::is_dubious))]
fn is_dubious(byte: u8) -> bool
    ensures { result ≡ is_dubious byte }
{
    byte == b'-' || byte == b'?' || byte == b':'
}

// Whether a byte never begins a plain scalar.
#[tactic(auto, unfolding(crate::specs::Scalars::is_indicator))]
fn is_indicator(byte: u8) -> bool
    ensures { result ≡ is_indicator byte }
{
    is_quote(byte) || is_flow(byte) || is_left_out(byte) || byte == b'#'
}

/// Whether a byte other than a blank begins a plain scalar.
#[tactic(auto, unfolding(crate::specs::Scalars::begins_plain))]
pub fn begins_plain(flow: bool, byte: u8, rest: &[u8]) -> bool
    ensures { result ≡ begins_plain flow byte rest.now }
{
    if is_dubious(byte) {
        !gap(flow, rest)
    } else {
        !is_indicator(byte)
    }
}

// Whether a plain scalar ends before a byte.
#[tactic(auto, unfolding(crate::specs::Scalars::ends_plain))]
fn ends_plain(flow: bool, byte: u8, rest: &[u8]) -> bool
    ensures { result ≡ ends_plain flow byte rest.now }
{
    byte == b':' && gap(flow, rest)
        || is_blank(byte) && begins_with(rest, b'#')
        || flow && is_flow(byte)
}

/// How many bytes of a plain scalar stand at the front, without blanks at its end.
#[tactic(auto, using(crate::proofs::Sizes::plain_turn))]
pub fn plain_size(flow: bool, bytes: &[u8]) -> usize
    ensures value { result ≡ plain_size flow bytes.now }
    ensures within { result ≤ length bytes.now }
{
    let mut size = 0;
    let mut seen = 0;
    let mut rest = bytes;
    while let [byte, after @ ..] = rest {
        if ends_plain(flow, *byte, after) {
            break;
        }
        seen += 1;
        if !is_blank(*byte) {
            size = seen;
        }
        rest = after;
    }
    size
}

/// How many bytes stand up to a closing single quote, with it.
#[tactic(auto, using(crate::proofs::Sizes::shifted))]
pub fn single_size(bytes: &[u8]) -> Option<usize>
    ensures value { result ≡ single_size false bytes.now }
    ensures within { IfSome result (λ n. n ≤ length bytes.now) }
{
    let mut seen = 0;
    let mut taken = false;
    let mut rest = bytes;
    while let [byte, after @ ..] = rest {
        let quote = *byte == b'\'' && !taken;
        seen += 1;
        if quote && !begins_with(after, b'\'') {
            return Some(seen);
        }
        taken = quote;
        rest = after;
    }
    None
}

/// How many bytes stand up to a closing double quote, with it.
#[tactic(auto, using(crate::proofs::Sizes::shifted))]
pub fn double_size(bytes: &[u8]) -> Option<usize>
    ensures value { result ≡ double_size false bytes.now }
    ensures within { IfSome result (λ n. n ≤ length bytes.now) }
{
    let mut seen = 0;
    let mut taken = false;
    let mut rest = bytes;
    while let [byte, after @ ..] = rest {
        seen += 1;
        if *byte == b'"' && !taken {
            return Some(seen);
        }
        taken = *byte == b'\\' && !taken;
        rest = after;
    }
    None
}

/// The bytes between the quotes of a scalar.
pub fn within(bytes: &[u8]) -> &[u8]
    ensures { result.now ≡ within bytes.now }
{
    match bytes {
        [] => bytes,
        [_] => &[],
        [_, middle @ .., _] => middle,
    }
}

/// Appends the text between single quotes; where memory runs out, what `out` holds is left open.
pub fn append_undoubled(out: &mut Text, bytes: &[u8]) -> Result<(), Memory>
    ensures { OnOk result (out.new ≡ out.old ++ undoubled false bytes.now) }
{
    let mut second = false;
    let mut rest = bytes;
    while let [byte, after @ ..] = rest {
        let quote = *byte == b'\'';
        keep(out, *byte, quote && second)?;
        second = quote && !second;
        rest = after;
    }
    Ok(())
}

// Appends a byte that isn't left out.
fn keep(out: &mut Text, byte: u8, left_out: bool) -> Result<(), Memory>
    ensures { OnOk result (out.new ≡ out.old ++ kept left_out byte) }
{
    if left_out { Ok(()) } else { out.push(byte) }
}

/// Appends the text between double quotes; where memory runs out, what `out` holds is left open.
#[tactic(auto, using(crate::proofs::Sizes::unescaped_behind))]
pub fn append_unescaped(out: &mut Text, bytes: &[u8]) -> Result<(), Memory>
    ensures { OnOk result (out.new ≡ out.old ++ unescaped zero bytes.now) }
{
    let mut rest = bytes;
    while let [byte, after @ ..] = rest {
        append_next(out, *byte, after)?;
        rest = behind(after, next_size(*byte, after));
    }
    Ok(())
}

// Appends what a byte stands for, or the escape that it begins.
#[tactic(auto, unfolding(crate::specs::Scalars::next_text))]
fn append_next(out: &mut Text, byte: u8, after: &[u8]) -> Result<(), Memory>
    ensures { OnOk result (out.new ≡ out.old ++ next_text byte after.now) }
{
    if byte == b'\\' {
        append_escape(out, escape_at(after))
    } else {
        out.push(byte)
    }
}

// Appends what an escape stands for.
fn append_escape(out: &mut Text, escape: Option<Escape>) -> Result<(), Memory>
    ensures { OnOk result (out.new ≡ out.old ++ escape_text escape) }
{
    match escape {
        None => Ok(()),
        Some(escape) => {
            let mut buffer = [0; 4];
            out.append(escape.character.encode_utf8(&mut buffer).as_bytes())
        }
    }
}

// How many bytes belong to a byte or the escape that it begins.
#[tactic(auto, unfolding(crate::specs::Scalars::next_size))]
fn next_size(byte: u8, after: &[u8]) -> usize
    ensures { result ≡ next_size byte after.now }
{
    if byte == b'\\' {
        match escape_at(after) {
            None => 1,
            Some(escape) => escape.size,
        }
    } else {
        0
    }
}

// Whether a byte is a backslash that begins no escape.
#[tactic(auto, unfolding(crate::specs::Scalars::is_bad_escape))]
fn is_bad_escape(byte: u8, after: &[u8]) -> bool
    ensures { result ≡ is_bad_escape byte after.now }
{
    byte == b'\\' && escape_at(after).is_none()
}

/// The place of the first backslash between double quotes that begins no escape.
#[tactic(auto, using(crate::proofs::Sizes::bad_escape_behind, crate::proofs::Sizes::next_fits))]
pub fn bad_escape(bytes: &[u8]) -> Option<usize>
    ensures value { result ≡ bad_escape zero 0 bytes.now }
    ensures within { IfSome result (λ n. n < length bytes.now) }
{
    let mut at = 0;
    let mut rest = bytes;
    while let [byte, after @ ..] = rest {
        if is_bad_escape(*byte, after) {
            return Some(at);
        }
        let size = next_size(*byte, after);
        rest = behind(after, size);
        at += 1 + size;
    }
    None
}
