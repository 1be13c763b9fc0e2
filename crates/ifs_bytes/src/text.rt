//! A text: bytes that a value owns.

ghost use Rattle.std.specs.Prelude.{◌≡◌, ◌∷◌, [], refl, nat_eq, IfOk, is_ok, take, Some};
ghost use Rattle.ifs_bytes.specs.Outcome.{appended};
ghost use Rattle.std.specs.Ordering.{nat_cmp};
ghost use Rattle.std.specs.Cmp.Lexicographic.{pointwise, slice_cmp, nat_list_eq_equiv, nat_list_cmp_total, texts_ties, texts_po};
ghost use Rattle.std.specs.Cmp.{partial_equiv_from_equiv};

use crate::memory::Memory;
use std::alloc::Global;
use std::cmp::Ordering;
use std::marker::Model;

/// Bytes that are text by convention, UTF-8 or not. A contract sees the list of them, and texts are
/// compared byte by byte.
#[derive(Debug, Drop)]
pub struct Text {
    bytes: Vec<u8>,
}

impl Model for Text {
    ghost use Rattle.std.specs.Prelude.{ℕ, List};

    ghost Value = { List ℕ };

    ghost view = { λ t. t.bytes.items };
}

impl Text {
    /// The empty text, which takes no memory.
    pub fn new(alloc: Global) -> Text
        ensures { result ≡ [] }
    {
        Text {
            bytes: Vec::new(alloc),
        }
    }

    /// A copy of the bytes.
    pub fn from_slice(alloc: Global, bytes: &[u8]) -> Result<Text, Memory>
        ensures { IfOk result (λ text. text ≡ bytes.now) }
    {
        Ok(Text {
            bytes: Vec::from_slice(alloc, bytes)?,
        })
    }

    /// The bytes of a vector, which isn't copied.
    pub fn from_vec(bytes: Vec<u8>) -> Text
        ensures { result ≡ bytes.items }
    {
        Text { bytes }
    }

    /// The vector of the bytes, which aren't copied.
    pub fn into_vec(self) -> Vec<u8>
        ensures { result.items ≡ self }
    {
        let Text { bytes } = self;
        bytes
    }

    /// The bytes.
    pub fn as_bytes(&self) -> &[u8]
        ensures { result.now ≡ self.now }
    {
        self.bytes.as_slice()
    }

    /// A text of the same bytes.
    pub fn copy(&self, alloc: Global) -> Result<Text, Memory>
        ensures { IfOk result (λ copy. copy ≡ self.now) }
    {
        Text::from_slice(alloc, self.as_bytes())
    }

    /// Appends a byte; where memory runs out the text stays as it was.
    pub fn push(&mut self, byte: u8) -> Result<(), Memory>
        ensures { self.new ≡ appended (is_ok result) self.old (byte ∷ []) }
    {
        Ok(self.bytes.push(byte)?)
    }

    /// Appends bytes; where memory runs out the text stays as it was.
    pub fn append(&mut self, bytes: &[u8]) -> Result<(), Memory>
        ensures { self.new ≡ appended (is_ok result) self.old bytes.now }
    {
        Ok(self.bytes.extend_from_slice(bytes)?)
    }

    /// Keeps the first `len` bytes, or all where there are no more.
    pub fn truncate(&mut self, len: usize)
        ensures { self.new ≡ take len self.old }
    {
        self.bytes.truncate(len);
    }
}

impl PartialEq for Text {
    ghost eq = { pointwise nat_eq };

    ghost laws = { partial_equiv_from_equiv nat_list_eq_equiv };

    fn eq(&self, other: &Text) -> bool {
        self.as_bytes() == other.as_bytes()
    }
}

impl Eq for Text {
    ghost laws = { nat_list_eq_equiv };
}

impl PartialOrd for Text {
    ghost partial_cmp = { λ x y. Some (slice_cmp nat_cmp x y) };

    ghost laws = { texts_po };

    fn partial_cmp(&self, other: &Text) -> Option<Ordering> {
        Some(self.cmp(other))
    }
}

impl Ord for Text {
    ghost cmp = { slice_cmp nat_cmp };

    ghost total = { nat_list_cmp_total };

    ghost matches_partial_cmp = { λ x y. refl };

    ghost matches_eq = { texts_ties };

    fn cmp(&self, other: &Text) -> Ordering {
        self.as_bytes().cmp(other.as_bytes())
    }
}
