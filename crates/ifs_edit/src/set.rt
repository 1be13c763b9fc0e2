//! How a set in brackets is read.

ghost use Rattle.std.specs.Prelude.{◌≡◌, ◌≤◌, IfOk, IfSome, drop, length};
ghost use Rattle.ifs_edit.specs.Elements.{item_at, items_from, set_of};

use crate::element::Span;
use ifs_bytes::{List, Memory};
use std::alloc::Global;

// What stands behind the first `count` bytes, or nothing where there are no more.
pub(crate) fn behind(bytes: &[u8], count: usize) -> &[u8]
    ensures { result.now ≡ drop count bytes.now }
{
    if count <= bytes.len() {
        let (_, rest) = bytes.split_at(count);
        rest
    } else {
        &[]
    }
}

// The byte or range that begins with a byte, before others, and how many bytes it has behind its first; None where it
// is a range that falls.
fn item_at(byte: u8, rest: &[u8]) -> Option<(Span, usize)>
    ensures { result ≡ item_at byte rest.now }
{
    let (last, more) = match rest {
        [b'-', last, ..] if *last != b']' => (*last, 2),
        _ => (byte, 0),
    };
    if byte > last {
        return None;
    }
    Some((Span { first: byte, last }, more))
}

// The items up to `]`, and how many bytes of the pattern they have with it; None where none stands there, or a
// range falls.
fn items(alloc: Global, bytes: &[u8]) -> Result<Option<(List<Span>, usize)>, Memory>
    ensures value { IfOk result (λ set. set ≡ items_from 0 bytes.now) }
    ensures within { IfOk result (λ set. IfSome set (λ s. s.1 ≤ length bytes.now)) }
{
    let mut spans = Vec::new(alloc);
    let mut rest = bytes;
    while let [byte, after @ ..] = rest {
        if *byte == b']' {
            return Ok(Some((List::from_vec(spans), bytes.len() - after.len())));
        }
        match item_at(*byte, after) {
            Some(item) => {
                spans.push(item.0)?;
                rest = behind(after, item.1);
            }
            None => return Ok(None),
        }
    }
    Ok(None)
}

// The set that stands behind its bracket, and how many bytes of the pattern it has; None where it is broken.
pub(crate) fn set_of(alloc: Global, bytes: &[u8]) -> Result<Option<(List<Span>, usize)>, Memory>
    ensures value { IfOk result (λ set. set ≡ set_of bytes.now) }
    ensures within { IfOk result (λ set. IfSome set (λ s. s.1 ≤ length bytes.now)) }
{
    match bytes {
        [b']', ..] => Ok(None),
        _ => items(alloc, bytes),
    }
}
