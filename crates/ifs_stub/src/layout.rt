//! Where the parts of a stub file stand.

ghost use Rattle.std.specs.Prelude.{◌≡◌, ◌+◌, ◌*◌, ◌≤◌, length};
ghost use Rattle.std.specs.Option.{option_copied};
ghost use Rattle.elf_file.specs.Tables as tables;
ghost use Rattle.ifs_stub.specs.StubFile.{needed_name_bytes, soname_count, sizes_of, gap, aligned, layout_of, plan_of};
ghost use Rattle.ifs_stub.specs.Stub.{IsWithin};

use crate::limits::{needed_name_bytes, soname_bytes, symbol_name_bytes};
use elf_file::{header_size, segment_size};
use ifs_bytes::{Order, Text, Width};
use ifs_interface::Interface;

/// The machine that a stub is for.
#[derive(Clone, Copy, Debug, PartialEq, Eq)]
pub struct Form {
    /// e_machine.
    pub machine: u16,
    /// The byte order of numbers.
    pub order: Order,
    /// The size of addresses, offsets and sizes.
    pub width: Width,
}

/// What is counted in an interface: rows and entries by number, names by offsets in .dynstr.
#[derive(Clone, Copy, Debug, PartialEq, Eq)]
pub struct Sizes {
    /// The number of rows of .dynsym.
    pub rows: u32,
    /// Where the names of the needed libraries start in .dynstr.
    pub needed_names: u32,
    /// Where the soname starts in .dynstr.
    pub soname_name: u32,
    /// The size of .dynstr in bytes.
    pub strings: u32,
    /// The number of entries of .dynamic.
    pub entries: u32,
}

/// Where the parts of the file start, and their sizes where those are named; in bytes.
#[derive(Clone, Copy, Debug, PartialEq, Eq)]
pub struct Layout {
    /// The offset of .dynsym.
    pub symbols: u32,
    /// The size of .dynsym.
    pub symbols_size: u32,
    /// The offset of .dynstr.
    pub strings: u32,
    /// Where .dynstr ends.
    pub strings_end: u32,
    /// The offset of .hash.
    pub hash: u32,
    /// The size of .hash.
    pub hash_size: u32,
    /// Where .hash ends.
    pub hash_end: u32,
    /// The offset of .dynamic.
    pub dynamic: u32,
    /// The size of .dynamic.
    pub dynamic_size: u32,
    /// The offset of .shstrtab.
    pub names: u32,
    /// Where .shstrtab ends.
    pub names_end: u32,
    /// The offset of the section headers.
    pub sections: u32,
}

/// What is known of a stub file before it is written.
#[derive(Clone, Copy, Debug, PartialEq, Eq)]
pub struct Plan {
    /// The machine, byte order and width.
    pub form: Form,
    /// What is counted.
    pub sizes: Sizes,
    /// Where the parts start.
    pub layout: Layout,
}

/// How many bytes .shstrtab has.
pub const SECTION_NAMES_SIZE: u32 = 42;

/// How many bytes are missing at an offset to a multiple of a word.
pub fn gap(width: Width, at: u32) -> u32
    ensures exact { result ≡ gap width at }
    ensures small { result ≤ 7 }
{
    let word = width.bytes() as u32;
    (word - at % word) % word
}

// The next multiple of a word.
fn aligned(width: Width, at: u32) -> u32
    requires { at ≤ 1000000000 }
    ensures exact { result ≡ aligned width at }
    ensures small { result ≤ at + 7 }
{
    at + gap(width, at)
}

// How many bytes rows have.
fn rows_size(width: Width, count: u32) -> u32
    requires { count ≤ 1000001 }
    ensures exact { result ≡ count * tables.symbol_size width }
    ensures small { result ≤ 24 * count }
{
    match width {
        Width::W32 => count * 16,
        Width::W64 => count * 24,
    }
}

// How many bytes entries have.
fn entries_size(width: Width, count: u32) -> u32
    requires { count ≤ 1000007 }
    ensures exact { result ≡ count * tables.dynamic_size width }
    ensures small { result ≤ 16 * count }
{
    match width {
        Width::W32 => count * 8,
        Width::W64 => count * 16,
    }
}

// How many sonames there are.
fn soname_count(soname: Option<&Text>) -> u32
    ensures exact { result ≡ soname_count (option_copied soname.entry) }
    ensures small { result ≤ 1 }
{
    match soname {
        Some(_name) => 1,
        None => 0,
    }
}

// What is counted in an interface within the limits.
#[tactic(auto, unfolding(crate::specs::StubFile::sizes_of))]
fn sizes_of(interface: &Interface) -> Sizes
    requires { IsWithin interface.now }
    ensures exact { result ≡ sizes_of interface.now }
    ensures rows { result.rows ≤ 1000001 }
    ensures entries { result.entries ≤ 1000007 }
    ensures strings { result.strings ≤ 35000000 }
    ensures needed { result.needed_names + (length interface.now.needed + needed_name_bytes interface.now.needed) ≤ 40000000 }
{
    let soname = interface.soname();
    let needed = interface.needed_list();
    let symbols = interface.symbols();
    let rows = symbols.len() as u32 + 1;
    let needed_count = needed.len() as u32;
    let needed_names = rows + symbol_name_bytes(symbols) as u32;
    let soname_name = needed_names + (needed_count + needed_name_bytes(needed) as u32);
    Sizes {
        rows,
        needed_names,
        soname_name,
        strings: soname_name + (soname_count(soname) + soname_bytes(soname) as u32),
        entries: needed_count + soname_count(soname) + 6,
    }
}

// Where the parts start.
#[tactic(auto, unfolding(crate::specs::StubFile::layout_of))]
fn layout_of(sizes: &Sizes, width: Width) -> Layout
    requires rows { sizes.now.rows ≤ 1000001 }
    requires entries { sizes.now.entries ≤ 1000007 }
    requires strings { sizes.now.strings ≤ 35000000 }
    ensures { result ≡ layout_of sizes.now width }
{
    let symbols = header_size(width) as u32 + 2 * segment_size(width) as u32;
    let symbols_size = rows_size(width, sizes.rows);
    let strings = symbols + symbols_size;
    let strings_end = strings + sizes.strings;
    let hash = aligned(width, strings_end);
    let hash_size = 4 * (sizes.rows + 3);
    let hash_end = hash + hash_size;
    let dynamic = aligned(width, hash_end);
    let dynamic_size = entries_size(width, sizes.entries);
    let names = dynamic + dynamic_size;
    let names_end = names + SECTION_NAMES_SIZE;
    Layout {
        symbols,
        symbols_size,
        strings,
        strings_end,
        hash,
        hash_size,
        hash_end,
        dynamic,
        dynamic_size,
        names,
        names_end,
        sections: aligned(width, names_end),
    }
}

/// What is known of the stub file of an interface within the limits.
pub fn plan_of(interface: &Interface, form: Form) -> Plan
    requires { IsWithin interface.now }
    ensures exact { result ≡ plan_of interface.now form }
    ensures needed { result.sizes.needed_names + (length interface.now.needed + needed_name_bytes interface.now.needed) ≤ 40000000 }
{
    let sizes = sizes_of(interface);
    Plan {
        form,
        sizes,
        layout: layout_of(&sizes, form.width),
    }
}
