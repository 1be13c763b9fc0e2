//! The places of the tables among the sections of a layout.

ghost use Rattle.std.specs.Prelude.{◌≡◌, ◌<◌, ◌≤◌, ◌^◌, length, position, slice_get};
ghost use Rattle.std.specs.List.{position_or_len};
ghost use Rattle.std.specs.Option.{option_map_or};
ghost use Rattle.link_core.specs.Exports as exports;
ghost use Rattle.link_core.specs.Places as places;
ghost use Rattle.link_core.specs.Planned.{Planned};
ghost use Rattle.link_where.specs.Tables as meant;

use link_core::{Layout, OutKind, OutSection, Plan, SHF_EXECINSTR, SHF_TLS, SHF_WRITE};

/// What is only read.
const READ: u64 = 2;
/// What is executed.
const CODE: u64 = READ + SHF_EXECINSTR;
/// Thread-local data.
const THREAD: u64 = READ + SHF_WRITE + SHF_TLS;

/// The positions of the tables among the sections of a layout; for a table that isn't there, the number of sections.
#[derive(Clone, Copy, Debug, PartialEq, Eq)]
pub struct TablePositions {
    /// That of .interp.
    pub interp: usize,
    /// That of .dynsym.
    pub dynsym: usize,
    /// That of .dynstr.
    pub dynstr: usize,
    /// That of .hash.
    pub hash: usize,
    /// That of .rela.dyn.
    pub rela_dyn: usize,
    /// That of .rela.plt.
    pub rela_plt: usize,
    /// That of .plt.
    pub plt: usize,
    /// That of .dynamic.
    pub dynamic: usize,
    /// That of .got.
    pub got: usize,
    /// That of .got.plt.
    pub got_plt: usize,
}

// Whether a section is neither only read, nor executed alone, nor of threads.
fn is_data(s: &OutSection) -> bool
    ensures { result ≡ meant.is_data s.now.flags }
{
    s.flags != READ && s.flags != CODE && s.flags != THREAD
}

// The place of the first section of code.
fn code_place(sections: &[OutSection]) -> Option<usize>
    ensures { result ≡ position (λ s. meant.is_code s.flags) sections.now }
{
    sections.iter().position(|s| s.flags == CODE)
}

// The same, or the number of sections.
#[tactic(auto, using(crate::proofs::Tabled::place_or_len, crate::proofs::Tabled::place_within))]
fn first_code(sections: &[OutSection]) -> usize
    ensures first { result ≡ position_or_len (λ s. meant.is_code s.flags) sections.now }
    ensures within { result ≤ length sections.now }
{
    code_place(sections).unwrap_or(sections.len())
}

// The place of the first section of data.
fn data_place(sections: &[OutSection]) -> Option<usize>
    ensures { result ≡ position (λ s. meant.is_data s.flags) sections.now }
{
    sections.iter().position(is_data)
}

// The same, or the number of sections.
#[tactic(auto, using(crate::proofs::Tabled::place_or_len, crate::proofs::Tabled::place_within))]
fn first_data(sections: &[OutSection]) -> usize
    ensures first { result ≡ position_or_len (λ s. meant.is_data s.flags) sections.now }
    ensures within { result ≤ length sections.now }
{
    data_place(sections).unwrap_or(sections.len())
}

pub(crate) fn count_if(there: bool) -> usize
    ensures { result ≡ meant.count_if there }
{
    if there { 1 } else { 0 }
}

fn at_if(there: bool, at: usize, count: usize) -> usize
    ensures { result ≡ meant.at_if there at count }
{
    if there { at } else { count }
}

// The positions, by what is there and where code and data start.
#[tactic(auto, unfolding(crate::specs::Tables::positions_by))]
fn positions_by(there: There, count: usize, code: usize, written: usize) -> TablePositions
    requires { written < 2 ^ 63 }
    ensures { result ≡ meant.positions_by there count code written }
{
    let front = count_if(there.program);
    let calls = front + 3 + count_if(there.moves);
    TablePositions {
        interp: at_if(there.program, 0, count),
        dynsym: front,
        dynstr: front + 1,
        hash: front + 2,
        rela_dyn: at_if(there.moves, front + 3, count),
        rela_plt: at_if(there.calls, calls, count),
        plt: at_if(there.calls, code, count),
        dynamic: written,
        got: at_if(there.words, written + 1, count),
        got_plt: written + 1 + count_if(there.words),
    }
}

// Which tables are there, of those that need not be.
#[derive(Clone, Copy)]
pub(crate) struct There {
    pub(crate) program: bool,
    pub(crate) moves: bool,
    pub(crate) calls: bool,
    pub(crate) words: bool,
}

/// The positions of the tables in a layout of this kind of file, by this plan. `moves_there` says whether there are
/// dynamic relocations besides those of .plt, and `words_there` whether .got has words.
pub fn table_positions(
    kind: OutKind,
    p: &Plan,
    moves_there: bool,
    words_there: bool,
    l: &Layout,
) -> TablePositions
    ensures { (j : Planned) → meant.IsOf j kind p.now moves_there words_there l.now → result ≡ meant.positions j }
{
    let sections = l.sections.as_slice();
    let there = There {
        program: !kind.is_shared(),
        moves: moves_there,
        calls: p.plt.as_slice().len() > 0,
        words: words_there,
    };
    positions_by(
        there,
        sections.len(),
        first_code(sections),
        first_data(sections),
    )
}

/// The address of the section at a position, 0 where there is none.
pub fn table_address(l: &Layout, at: usize) -> u64
    ensures { result ≡ option_map_or (λ s. s.address) (slice_get l.now.sections at) 0 }
{
    match l.sections.as_slice().get(at) {
        Some(section) => section.address,
        None => 0,
    }
}

/// The size of the section at a position, 0 where there is none.
pub fn table_size(l: &Layout, at: usize) -> u64
    ensures { result ≡ option_map_or (λ s. s.size) (slice_get l.now.sections at) 0 }
{
    match l.sections.as_slice().get(at) {
        Some(section) => section.size,
        None => 0,
    }
}
