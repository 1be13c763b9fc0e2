//! The element at the front of a pattern.

ghost use Rattle.std.specs.Prelude.{◌≡◌, IfOk};
ghost use Rattle.ifs_edit.specs.Pattern.{negates};
ghost use Rattle.ifs_edit.specs.Elements.{bracketed, escaped, element_at, one_byte};

use crate::element::Element;
use crate::set::set_of;
use ifs_bytes::Memory;
use std::alloc::Global;

// An element of one byte of the pattern.
fn one_byte(element: Element) -> Option<(Element, usize)>
    ensures { result ≡ one_byte element }
{
    Some((element, 0))
}

// The byte behind a backslash, which stands for itself; None where there is none.
fn escaped(rest: &[u8]) -> Option<(Element, usize)>
    ensures { result ≡ escaped rest.now }
{
    match rest {
        [] => None,
        [byte, ..] => Some((Element::Byte(*byte), 1)),
    }
}

// Whether a byte behind a bracket makes the element stand for bytes outside its set.
fn negates(byte: u8) -> bool
    ensures { result ≡ negates byte }
{
    byte == b'!' || byte == b'^'
}

// What a bracket begins, and how many bytes it has behind it; None where it is broken.
fn bracketed(alloc: Global, rest: &[u8]) -> Result<Option<(Element, usize)>, Memory>
    ensures { IfOk result (λ front. front ≡ bracketed rest.now) }
{
    let Some(byte) = rest.first() else {
        return Ok(None);
    };
    if negates(*byte) {
        let (_, inner) = rest.split_at(1);
        return match set_of(alloc, inner)? {
            Some((spans, size)) => Ok(Some((Element::NotIn(spans), size + 1))),
            None => Ok(None),
        };
    }
    match set_of(alloc, rest)? {
        Some((spans, size)) => Ok(Some((Element::In(spans), size))),
        None => Ok(None),
    }
}

// The element that begins with a byte, before others, and how many bytes of the pattern it has behind its first; None
// where it is broken.
pub(crate) fn element_at(
    alloc: Global,
    byte: u8,
    rest: &[u8],
) -> Result<Option<(Element, usize)>, Memory>
    ensures { IfOk result (λ front. front ≡ element_at byte rest.now) }
{
    match byte {
        b'*' => Ok(one_byte(Element::Any)),
        b'?' => Ok(one_byte(Element::One)),
        b'\\' => Ok(escaped(rest)),
        b'[' => bracketed(alloc, rest),
        _ => Ok(one_byte(Element::Byte(byte))),
    }
}
