//! Where the parts of the made file end.

ghost use Rattle.std.specs.Prelude.{◌≡◌, ◌<◌, ◌^◌};
ghost use Rattle.std.specs.List.{All};
ghost use Rattle.link_core.specs.Places.{code_segment_end, file_end, read_segment_end, section_end, zeros_start};
ghost use Rattle.link_where.specs.Ends as meant;

use link_core::{Layout, OutSection, SHF_EXECINSTR, SHF_TLS, SHF_WRITE};

/// Zeros, which have no bytes in the file.
const SHT_NOBITS: u32 = 8;
/// What is only read.
const READ: u64 = 2;
/// What is executed.
const CODE: u64 = READ + SHF_EXECINSTR;
/// Thread-local data.
const THREAD: u64 = READ + SHF_WRITE + SHF_TLS;

/// Where the parts of the made file end, as addresses.
#[derive(Clone, Copy, Debug, PartialEq, Eq)]
pub struct Ends {
    /// The end of what is only read.
    pub read: u64,
    /// The end of code, or of what is only read where there is no code.
    pub code: u64,
    /// The end of what has bytes in the file.
    pub file: u64,
    /// Where zeros start: the first section of them that isn't of threads, or the end of what has bytes.
    pub zeros: u64,
}

// The same, of some sections; no zeros where none of them has any.
#[derive(Clone, Copy)]
struct Met {
    read: u64,
    code: u64,
    file: u64,
    zeros: Option<u64>,
}

// The later end, where a section counts.
fn later(counts: bool, end: u64, so_far: u64) -> u64
    ensures { result ≡ meant.later counts end so_far }
{
    if counts { end } else { so_far }
}

// The first start, where a section counts.
fn first(counts: bool, start: u64, so_far: Option<u64>) -> Option<u64>
    ensures { result ≡ meant.first counts start so_far }
{
    match so_far {
        Some(found) => Some(found),
        None => if counts { Some(start) } else { None },
    }
}

// Whether a section is only read, or executed.
fn has_code(s: &OutSection) -> bool
    ensures { result ≡ meant.has_code s.now }
{
    s.flags == READ || s.flags == CODE
}

// Whether a section is zeros, and not of threads.
fn is_zeroed(s: &OutSection) -> bool
    ensures { result ≡ meant.is_zeroed s.now }
{
    s.kind == SHT_NOBITS && s.flags != THREAD
}

// One section more.
#[tactic(auto, unfolding(crate::specs::Ends::and_section))]
fn and_section(met: Met, s: &OutSection) -> Met
    requires { section_end s.now < 2 ^ 64 }
    ensures { result ≡ meant.and_section met s.now }
{
    let end = s.address + s.size;
    Met {
        read: later(s.flags == READ, end, met.read),
        code: later(has_code(s), end, met.code),
        file: later(s.kind != SHT_NOBITS, end, met.file),
        zeros: first(is_zeroed(s), s.address, met.zeros),
    }
}

// All sections.
#[tactic(auto, using(crate::proofs::Ending::none_met, crate::proofs::Ending::next_met))]
fn meet(sections: &[OutSection]) -> Met
    requires { All (λ s. section_end s < 2 ^ 64) sections.now }
    ensures { result ≡ meant.met sections.now }
{
    let mut met = Met {
        read: 0,
        code: 0,
        file: 0,
        zeros: None,
    };
    for section in sections {
        met = and_section(met, section);
    }
    met
}

impl Ends {
    /// Where the parts of a layout end. No section ends at 2^64 or above.
    #[tactic(auto, unfolding(crate::specs::Ends::met, link_core::specs::Places::read_segment_end, link_core::specs::Places::code_segment_end, link_core::specs::Places::file_end, link_core::specs::Places::zeros_start))]
    pub fn of(l: &Layout) -> Ends
        requires { All (λ s. section_end s < 2 ^ 64) l.now.sections }
        ensures read { result.read ≡ read_segment_end l.now }
        ensures code { result.code ≡ code_segment_end l.now }
        ensures file { result.file ≡ file_end l.now }
        ensures zeros { result.zeros ≡ zeros_start l.now }
    {
        let met = meet(l.sections.as_slice());
        Ends {
            read: met.read,
            code: met.code,
            file: met.file,
            zeros: met.zeros.unwrap_or(met.file),
        }
    }
}
