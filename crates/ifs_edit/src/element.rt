//! The elements of a pattern.

ghost use Rattle.std.specs.Prelude.{◌≡◌};
ghost use Rattle.ifs_edit.specs.Glob.{is_any, is_in, stands_for};

use ifs_bytes::List;

/// The bytes from one to another, both among them.
#[derive(Clone, Copy, Debug, PartialEq, Eq)]
pub struct Span {
    /// The least of them.
    pub first: u8,
    /// The greatest of them.
    pub last: u8,
}

/// An element of a pattern.
#[derive(Debug, PartialEq, Eq, Drop)]
pub enum Element {
    /// `*`, any bytes, or none.
    Any,
    /// `?`, one byte.
    One,
    /// A byte that stands for itself.
    Byte(u8),
    /// `[..]`, one byte of a set.
    In(List<Span>),
    /// `[!..]` or `[^..]`, one byte outside a set.
    NotIn(List<Span>),
}

// Whether a byte is in a set.
fn is_in(spans: &[Span], byte: u8) -> bool
    ensures { result ≡ is_in spans.now byte }
{
    spans
        .iter()
        .any(|span| span.first <= byte && byte <= span.last)
}

impl Element {
    // Whether it is `*`.
    pub(crate) fn is_any(&self) -> bool
        ensures { result ≡ is_any self.now }
    {
        match self {
            Element::Any => true,
            Element::One | Element::Byte(_) | Element::In(_) | Element::NotIn(_) => false,
        }
    }

    // Whether it is an element of one byte and stands for this one.
    pub(crate) fn stands_for(&self, byte: u8) -> bool
        ensures { result ≡ stands_for self.now byte }
    {
        match self {
            Element::Any => false,
            Element::One => true,
            Element::Byte(own) => *own == byte,
            Element::In(spans) => is_in(spans.as_slice(), byte),
            Element::NotIn(spans) => !is_in(spans.as_slice(), byte),
        }
    }
}
