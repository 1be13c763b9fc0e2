//! What is counted of a link before places are known.

ghost use Rattle.std.specs.Prelude.{◌≡◌, ◌≤◌, ◌+◌, ◌<◌, ◌^◌, length, nat_lt};
ghost use Rattle.link_core.specs.Contents as contents;
ghost use Rattle.link_tables.specs.Capped.{capped};
ghost use Rattle.link_tables.specs.Counts as meant;

use crate::fills::{fills_in, words_in};
use crate::names::{is_defined, soname_of, strings_room};
use elf_object::Object;
use link_core::{EM_X86_64, LinkOptions, Machine, NameRow, Plan, Resolution};

/// What .dynamic speaks of beside names and needs.
#[derive(Clone, Copy, Debug, PartialEq, Eq)]
pub struct Present {
    /// There is an output section .preinit_array.
    pub preinit_array: bool,
    /// There is an output section .init_array.
    pub init_array: bool,
    /// There is an output section .fini_array.
    pub fini_array: bool,
    /// DT_FLAGS isn't 0.
    pub flags: bool,
}

/// What is counted of a link before places are known. 2^128 - 1 stands for any greater number.
#[derive(Clone, Copy, Debug, PartialEq, Eq)]
pub struct Counts {
    /// Whether a program is made.
    pub program: bool,
    /// How many bytes .interp has in a program.
    pub interpreter: u128,
    /// How many rows .dynsym has.
    pub rows: u128,
    /// How many bytes .dynstr has.
    pub strings: u128,
    /// How many relocations .rela.dyn has.
    pub moves: u128,
    /// How many entries .plt has.
    pub calls: u128,
    /// How many words .got has.
    pub words: u128,
    /// How many entries .dynamic has.
    pub entries: u128,
    /// How many bytes the header of .plt has.
    pub header: u64,
}

// A number, where something is there.
fn count_if(there: bool, count: u128) -> u128
    ensures exact { result ≡ meant.count_if there count }
    ensures small { result ≤ count }
{
    if there { count } else { 0 }
}

// How many entries .dynamic has.
#[tactic(auto, unfolding(crate::specs::Counts::entry_count))]
fn entry_count(
    options: &LinkOptions,
    names: &[NameRow],
    present: Present,
    needed: usize,
    moves: bool,
    calls: bool,
) -> u128
    ensures { result ≡ meant.entry_count options.now names.now present needed moves calls }
{
    let program = !options.kind.is_shared();
    needed as u128
        + 7
        + count_if(soname_of(options).is_some(), 1)
        + count_if(options.runpath.is_some(), 1)
        + count_if(is_defined(names, b"_init"), 1)
        + count_if(is_defined(names, b"_fini"), 1)
        + count_if(present.preinit_array && program, 2)
        + count_if(present.init_array, 2)
        + count_if(present.fini_array, 2)
        + count_if(moves, 3)
        + count_if(calls, 3)
        + count_if(present.flags, 1)
        + count_if(program, 1)
}

// How many bytes .interp has: the path that was given, or the machine's usual one, and a NUL.
fn interpreter_room(options: &LinkOptions, number: u16) -> u128
    ensures { result ≡ meant.interpreter_room options.now number }
{
    match &options.interp {
        Some(path) => path.as_bytes().len() as u128 + 1,
        None => { if number == EM_X86_64 { 28 } else { 27 } }
    }
}

// The counts, for the machine of a number and a header length.
#[tactic(auto, unfolding(crate::specs::Counts::counts_by))]
fn counts_by(
    number: u16,
    header: u64,
    options: &LinkOptions,
    objects: &[Object],
    r: &Resolution,
    p: &Plan,
    present: Present,
) -> Counts
    ensures { result ≡ meant.counts_by number header options.now objects.now r.now p.now present }
{
    let names = r.names.as_slice();
    let got = p.got.as_slice();
    let calls = p.plt.as_slice().len() as u128;
    let moves = fills_in(objects, names, options.kind, got).saturating_add(
        p.moves.as_slice().len() as u128,
    );
    let needed = r.needed.as_slice().len();
    Counts {
        program: !options.kind.is_shared(),
        interpreter: interpreter_room(options, number),
        rows: 1 + p.imports.as_slice().len() as u128 + p.exports.as_slice().len() as u128,
        strings: strings_room(options, r, p),
        moves,
        calls,
        words: words_in(got),
        entries: entry_count(options, names, present, needed, moves > 0, calls > 0),
        header,
    }
}

/// What is counted of a link. `present` says which output sections there are, and whether there are flags.
pub fn count_all<M: Machine>(
    machine: &M,
    options: &LinkOptions,
    objects: &[Object],
    r: &Resolution,
    p: &Plan,
    present: Present,
) -> Counts
    requires { present ≡ meant.present_in (record { rules = M.rules; options = options.now; objects = objects.now; names = r.now; plan = p.now }) }
    ensures { result ≡ meant.counts_of (record { rules = M.rules; options = options.now; objects = objects.now; names = r.now; plan = p.now }) }
{
    counts_by(
        machine.number(),
        machine.header_len(),
        options,
        objects,
        r,
        p,
        present,
    )
}
