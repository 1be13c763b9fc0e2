//! Where the names of a string table start, and how long they are. Names may overlap, so that together they have far
//! more bytes than their table: so no name is looked at from its start to its end.

ghost use Rattle.std.specs.Prelude.{◌≡◌, ◌==◌, ◌+◌, ◌≤◌, ℕ, IfOk, length, is_none, slice_index};
ghost use Rattle.std.specs.List.{position_or_len};
ghost use Rattle.elf_dyn.specs.NameEnds.{StartBefore, AreFar, distance};
ghost use Rattle.elf_dyn.specs.Strings.{StringsLie, string_table, name_of, bytes_of};

use crate::places::Strings;
use crate::strings::table_of;
use ifs_bytes::Memory;
use memchr::{memchr, memrchr};
use std::alloc::Global;

/// The names of a string table of the file: they start before the place behind its last NUL.
#[derive(Clone, Copy)]
pub struct Names<'a> {
    pub bytes: &'a [u8],
    pub strings: Strings,
    end: u64,
    ghost lie: { StringsLie bytes.now strings },
    ghost start: { StartBefore (string_table bytes.now strings) end },
}

impl<'a> Names<'a> {
    /// The names of a string table.
    pub fn new(bytes: &'a [u8], strings: Strings) -> Names<'a>
        requires { StringsLie bytes.now strings }
        ensures bytes { result.bytes.now ≡ bytes.now }
        ensures strings { result.strings ≡ strings }
    {
        Names {
            bytes,
            strings,
            end: end_of(table_of(bytes, strings)),
        }
    }

    /// Whether no name starts at a place.
    #[tactic(auto, unfolding(crate::specs::Strings::name_of))]
    pub fn none_at(&self, at: u64) -> bool
        ensures { result ≡ is_none (name_of self.now.bytes.now self.now.strings at) }
    {
        self.end <= at
    }
}

// The place behind the last NUL, 0 where there is none.
fn end_of(table: &[u8]) -> u64
    ensures { StartBefore table.now result }
{
    match memrchr(0, table) {
        Some(place) => place as u64 + 1,
        None => 0,
    }
}

/// The names of a string table, with how far the next NUL is from every 64th of its places.
#[derive(Drop)]
pub struct Lengths<'a> {
    pub names: Names<'a>,
    far: Vec<usize>,
    ghost distances: { AreFar (string_table names.bytes.now names.strings) far.items },
}

impl<'a> Lengths<'a> {
    /// The lengths of the names of a string table.
    pub fn new(alloc: Global, bytes: &'a [u8], strings: Strings) -> Result<Lengths<'a>, Memory>
        requires { StringsLie bytes.now strings }
        ensures bytes { IfOk result (λ lengths. lengths.names.bytes.now ≡ bytes.now) }
        ensures strings { IfOk result (λ lengths. lengths.names.strings ≡ strings) }
    {
        let names = Names::new(bytes, strings);
        let far = distances(alloc, table_of(bytes, strings))?;
        Ok(Lengths { names, far })
    }

    /// How many bytes the name at a place has, 0 where none starts there.
    #[tactic(auto, unfolding(crate::specs::Strings::name_of))]
    pub fn at(&self, at: u64) -> u64
        ensures { result ≡ bytes_of (name_of self.now.names.bytes.now self.now.names.strings at) }
    {
        if self.names.none_at(at) {
            return 0;
        }
        let table = table_of(self.names.bytes, self.names.strings);
        distance_at(table, self.far.as_slice(), at as usize) as u64
    }
}

// The place of the first NUL, or how many bytes there are.
fn nul_or_end(bytes: &[u8]) -> usize
    ensures place { result ≡ position_or_len (λ b. b == 0) bytes.now }
    ensures within { result ≤ length bytes.now }
{
    match memchr(0, bytes) {
        Some(place) => place,
        None => bytes.len(),
    }
}

// The place of the first NUL from `from` on, or the end; `found` is that of an earlier place.
fn next_nul(table: &[u8], from: usize, found: usize) -> usize
    requires within { from ≤ length table.now }
    requires found { from ≤ found → found ≡ from + distance table.now from }
    ensures place { result ≡ from + distance table.now from }
    ensures within { result ≤ length table.now }
{
    if from <= found {
        return found;
    }
    let (_, rest) = table.split_at(from);
    from + nul_or_end(rest)
}

// How far the next NUL is from every 64th place.
fn distances(alloc: Global, table: &[u8]) -> Result<Vec<usize>, Memory>
    ensures { IfOk result (λ far. AreFar table.now far.items) }
{
    let count = table.len() / 64 + 1;
    let mut far = Vec::with_capacity(alloc, count)?;
    let mut found = nul_or_end(table);
    for k in 0..count {
        found = next_nul(table, 64 * k, found);
        far.push(found - 64 * k)?;
    }
    Ok(far)
}

// How far the next NUL is from the 64th place of this number.
fn far_at(far: &[usize], k: usize) -> usize
    ensures { result ≡ slice_index far.now k }
{
    match far.get(k) {
        Some(distance) => *distance,
        None => 0,
    }
}

// How far the next NUL is from a place: it is looked for up to the next 64th place.
fn distance_at(table: &[u8], far: &[usize], at: usize) -> usize
    requires within { at ≤ length table.now }
    requires far { AreFar table.now far.now }
    ensures { result ≡ distance table.now at }
{
    let next = at / 64 + 1;
    let (_, rest) = table.split_at(at);
    let (near, _) = rest.split_at(rest.len().min(64 * next - at));
    let found = nul_or_end(near);
    if found < near.len() {
        found
    } else {
        found + far_at(far, next)
    }
}
