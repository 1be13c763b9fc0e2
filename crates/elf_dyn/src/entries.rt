//! The dynamic entries (gABI, "Dynamic Section").

ghost use Rattle.std.specs.Prelude.{◌≡◌, ◌==◌, ◌&&◌, ◌<◌, ◌≤◌, ◌++◌, is_none, IfOk, IfSome, OnOk, Result};
ghost use Rattle.std.specs.Option.{option_copied, option_to_list};
ghost use Rattle.elf_dyn.specs.Entries.{EntriesLie, entry, entry_name, is_named, is_place, entry_count, first_with, value_with, bad_entry, unless_bad, soname_of, needed_at, needed_of, needed_bytes, needed_count};
ghost use Rattle.ifs_bytes.specs.Carried.{carried};
ghost use Rattle.elf_dyn.specs.Strings.{StringsLie, bytes_of};

use crate::constants::{DT_NEEDED, DT_NULL, DT_SONAME};
use crate::names::{Lengths, Names};
use crate::places::{Entries, Strings};
use crate::strings::{name_of, unless_empty};
use elf_file::{Dyn, ElfCause, NamePlace, dynamic_entry_at, dynamic_size};
use ifs_bytes::{Memory, Text};
use std::alloc::Global;

/// Entry `i`.
pub fn entry(bytes: &[u8], entries: Entries, i: u64) -> Dyn
    requires lie { EntriesLie bytes.now entries }
    requires within { i < entries.room }
    ensures { result ≡ entry bytes.now entries i }
{
    let at = entries.from as usize + i as usize * dynamic_size(entries.width);
    dynamic_entry_at(bytes, at, entries.order, entries.width)
}

// Whether entry `i` has a tag.
fn has_tag(bytes: &[u8], entries: Entries, i: u64, tag: u64) -> bool
    requires lie { EntriesLie bytes.now entries }
    requires within { i < entries.room }
    ensures { result ≡ ((entry bytes.now entries i).tag == tag) }
{
    entry(bytes, entries, i).tag == tag
}

/// How many entries count.
#[tactic(auto, unfolding(crate::specs::Entries::entry_count), using(ifs_bytes::proofs::Range::find_here, ifs_bytes::proofs::Range::find_later, ifs_bytes::proofs::Range::find_end))]
pub fn entry_count(bytes: &[u8], entries: Entries) -> u64
    requires { EntriesLie bytes.now entries }
    ensures exact { result ≡ entry_count bytes.now entries }
    ensures within { result ≤ entries.room }
{
    for i in 0..entries.room {
        if has_tag(bytes, entries, i, DT_NULL) {
            return i;
        }
    }
    entries.room
}

/// The first entry with a tag, of the `count` that count.
#[tactic(auto, unfolding(crate::specs::Entries::first_with), using(ifs_bytes::proofs::Range::find_here, ifs_bytes::proofs::Range::find_later, ifs_bytes::proofs::Range::find_end))]
pub fn first_with(bytes: &[u8], entries: Entries, count: u64, tag: u64) -> Option<u64>
    requires lie { EntriesLie bytes.now entries }
    requires within { count ≤ entries.room }
    ensures exact { result ≡ first_with bytes.now entries count tag }
    ensures counts { IfSome result (λ i. i < count) }
{
    for i in 0..count {
        if has_tag(bytes, entries, i, tag) {
            return Some(i);
        }
    }
    None
}

/// The value of the first entry with a tag, of the `count` that count.
pub fn value_with(bytes: &[u8], entries: Entries, count: u64, tag: u64) -> Option<u64>
    requires lie { EntriesLie bytes.now entries }
    requires within { count ≤ entries.room }
    ensures { result ≡ value_with bytes.now entries count tag }
{
    match first_with(bytes, entries, count, tag) {
        Some(i) => Some(entry(bytes, entries, i).value),
        None => None,
    }
}

// Whether entry `i` is named, where the first DT_SONAME stands at `soname`, and its name is bad.
fn is_bad(names: &Names, entries: Entries, soname: Option<u64>, i: u64) -> bool
    requires lie { EntriesLie names.now.bytes.now entries }
    requires within { i < entries.room }
    ensures { result ≡ (is_named names.now.bytes.now entries soname i
        && is_none (entry_name names.now.bytes.now entries names.now.strings i)) }
{
    let found = entry(names.bytes, entries, i);
    let named = found.tag == DT_NEEDED || is_place(soname, i);
    named && names.none_at(found.value)
}

fn is_place(place: Option<u64>, i: u64) -> bool
    ensures { result ≡ is_place place i }
{
    match place {
        Some(place) => i == place,
        None => false,
    }
}

// The first named entry whose name is bad, of the `count` that count.
#[tactic(auto, unfolding(crate::specs::Entries::bad_entry), using(ifs_bytes::proofs::Range::find_here, ifs_bytes::proofs::Range::find_later, ifs_bytes::proofs::Range::find_end))]
fn bad_entry(names: &Names, entries: Entries, count: u64) -> Option<u64>
    requires lie { EntriesLie names.now.bytes.now entries }
    requires within { count ≤ entries.room }
    ensures { result ≡ bad_entry names.now.bytes.now entries names.now.strings count }
{
    let soname = first_with(names.bytes, entries, count, DT_SONAME);
    for i in 0..count {
        if is_bad(names, entries, soname, i) {
            return Some(i);
        }
    }
    None
}

/// Looks at the names of the `count` entries that count: the soname and those of needed libraries.
pub fn check_names(
    bytes: &[u8],
    entries: Entries,
    strings: Strings,
    count: u64,
) -> Result<(), ElfCause>
    requires lie { EntriesLie bytes.now entries }
    requires strings_lie { StringsLie bytes.now strings }
    requires within { count ≤ entries.room }
    ensures { result ≡ unless_bad (bad_entry bytes.now entries strings count) }
{
    let names = Names::new(bytes, strings);
    match bad_entry(&names, entries, count) {
        Some(i) => Err(ElfCause::BadName(NamePlace::Dynamic(i))),
        None => Ok(()),
    }
}

/// The soname, unless it's empty.
#[tactic(auto, unfolding(crate::specs::Entries::soname_of))]
pub fn soname_of(bytes: &[u8], entries: Entries, strings: Strings, count: u64) -> Option<&[u8]>
    requires lie { EntriesLie bytes.now entries }
    requires strings_lie { StringsLie bytes.now strings }
    requires within { count ≤ entries.room }
    ensures { option_copied result ≡ soname_of bytes.now entries strings count }
{
    match first_with(bytes, entries, count, DT_SONAME) {
        Some(i) => unless_empty(name_of(bytes, strings, entry(bytes, entries, i).value)),
        None => None,
    }
}

/// The name of entry `i`, where that is DT_NEEDED and its name isn't empty.
pub fn needed_at(bytes: &[u8], entries: Entries, strings: Strings, i: u64) -> Option<&[u8]>
    requires lie { EntriesLie bytes.now entries }
    requires strings_lie { StringsLie bytes.now strings }
    requires within { i < entries.room }
    ensures { option_copied result ≡ needed_at bytes.now entries strings i }
{
    let found = entry(bytes, entries, i);
    if found.tag == DT_NEEDED {
        unless_empty(name_of(bytes, strings, found.value))
    } else {
        None
    }
}

// Appends a copy of the name, if there is one.
fn push_name(names: &mut Vec<Text>, alloc: Global, name: Option<&[u8]>) -> Result<(), Memory>
    ensures { OnOk result
        (names.new.items ≡ names.old.items ++ option_to_list (option_copied name.entry)) }
{
    if let Some(bytes) = name {
        names.push(Text::from_slice(alloc, bytes)?)?;
    }
    Ok(())
}

/// The names of the needed libraries, in order.
#[tactic(auto, unfolding(crate::specs::Entries::needed_of), using(ifs_bytes::proofs::Range::filter_map_more, ifs_bytes::proofs::Range::filter_map_end))]
pub fn needed_of(
    alloc: Global,
    bytes: &[u8],
    entries: Entries,
    strings: Strings,
    count: u64,
) -> Result<Vec<Text>, Memory>
    requires lie { EntriesLie bytes.now entries }
    requires strings_lie { StringsLie bytes.now strings }
    requires within { count ≤ entries.room }
    ensures { IfOk result (λ names. names.items ≡ needed_of bytes.now entries strings count) }
{
    let mut names = Vec::new(alloc);
    for i in 0..count {
        push_name(&mut names, alloc, needed_at(bytes, entries, strings, i))?;
    }
    Ok(names)
}

// How many bytes the name of entry `i` has, where that is DT_NEEDED.
#[tactic(auto, using(crate::proofs::Distances::empty_has_none))]
fn needed_size(lengths: &Lengths, entries: Entries, i: u64) -> u64
    requires lie { EntriesLie lengths.now.names.bytes.now entries }
    requires within { i < entries.room }
    ensures { result
        ≡ bytes_of (needed_at lengths.now.names.bytes.now entries lengths.now.names.strings i) }
{
    let found = entry(lengths.names.bytes, entries, i);
    if found.tag == DT_NEEDED {
        lengths.at(found.value)
    } else {
        0
    }
}

// How many bytes the names of the needed libraries have together; 2^64 - 1 stands for any more.
#[tactic(auto, unfolding(crate::specs::Entries::needed_bytes), using(ifs_bytes::proofs::Range::sum_more, ifs_bytes::proofs::Range::sum_end))]
fn needed_total(lengths: &Lengths, entries: Entries, count: u64) -> u64
    requires lie { EntriesLie lengths.now.names.bytes.now entries }
    requires within { count ≤ entries.room }
    ensures { result ≡ carried
        (needed_bytes lengths.now.names.bytes.now entries lengths.now.names.strings count) }
{
    let mut total = 0u64;
    for i in 0..count {
        total = total.saturating_add(needed_size(lengths, entries, i));
    }
    total
}

/// How many bytes the names of the needed libraries have together; 2^64 - 1 stands for any more.
pub fn needed_bytes(
    alloc: Global,
    bytes: &[u8],
    entries: Entries,
    strings: Strings,
    count: u64,
) -> Result<u64, Memory>
    requires lie { EntriesLie bytes.now entries }
    requires strings_lie { StringsLie bytes.now strings }
    requires within { count ≤ entries.room }
    ensures { IfOk result (λ total. total ≡ carried (needed_bytes bytes.now entries strings count)) }
{
    let lengths = Lengths::new(alloc, bytes, strings)?;
    Ok(needed_total(&lengths, entries, count))
}

/// How many entries are DT_NEEDED.
#[tactic(auto, unfolding(crate::specs::Entries::needed_count), using(ifs_bytes::proofs::Range::count_more, ifs_bytes::proofs::Range::count_end))]
pub fn needed_count(bytes: &[u8], entries: Entries, count: u64) -> u64
    requires lie { EntriesLie bytes.now entries }
    requires within { count ≤ entries.room }
    ensures exact { result ≡ needed_count bytes.now entries count }
    ensures within { result ≤ count }
{
    let mut total = 0;
    for i in 0..count {
        if has_tag(bytes, entries, i, DT_NEEDED) {
            total += 1;
        }
    }
    total
}
