//! Which program headers there are, and what they allow.

ghost use Rattle.std.specs.Prelude.{◌≡◌, ◌≤◌, not};
ghost use Rattle.std.specs.List.{list_any};
ghost use Rattle.link_core.specs.Exports as exports;
ghost use Rattle.link_core.specs.Headers as meant;
ghost use Rattle.link_core.specs.Layout as layout;
ghost use Rattle.link_core.specs.Places as places;
ghost use Rattle.link_placed.specs.Made.{link_of};
ghost use Rattle.link_segments.specs.Written.{is_executed_write};

use link_core::{Layout, Machine, OutClass, PF_R, PF_W, PF_X, SHF_EXECINSTR, SHF_TLS, SHF_WRITE};
use link_placed::Link;
use link_tables::FilledOutput;

/// What is only read.
const READ: u64 = 2;
/// What is executed.
const CODE: u64 = READ + SHF_EXECINSTR;
/// Thread-local data.
const THREAD: u64 = READ + SHF_WRITE + SHF_TLS;

/// Whether a program is made, and no library.
pub(crate) fn is_program<M: Machine>(p: &Link<'_, M>) -> bool
    ensures { result ≡ not (exports.is_shared (link_of M.rules p.now).options.kind) }
{
    !p.options().kind.is_shared()
}

/// Whether there is code.
pub(crate) fn has_code(l: &Layout) -> bool
    ensures { result ≡ list_any places.is_code l.now.sections }
{
    l.sections.as_slice().iter().any(|s| s.flags == CODE)
}

/// Whether there is thread-local data.
pub(crate) fn has_threads(l: &Layout) -> bool
    ensures { result ≡ list_any places.is_thread l.now.sections }
{
    l.sections.as_slice().iter().any(|s| s.flags == THREAD)
}

// 1 where something is there, else 0.
fn count_if(there: bool) -> u64
    ensures { result ≡ layout.count_if there }
{
    if there { 1 } else { 0 }
}

/// How many program headers there are.
pub fn segment_count<M: Machine>(p: &Link<'_, M>) -> u64
    ensures is { result ≡ layout.segment_count (link_of M.rules p.now) }
    ensures few { result ≤ 8 }
{
    p.is_made();
    let program = count_if(is_program(p));
    let code = count_if(has_code(p.layout()));
    let threads = count_if(has_threads(p.layout()));
    program + program + code + threads + 4
}

// Whether a class is written.
fn is_written_class(class: OutClass) -> bool
    ensures { result ≡ meant.is_written_class class }
{
    match class {
        OutClass::R | OutClass::X => false,
        OutClass::W | OutClass::T | OutClass::Z | OutClass::B => true,
    }
}

// Whether an output section that is written has something that is executed.
fn is_executed_write(output: &FilledOutput) -> bool
    ensures { result ≡ is_executed_write output.now }
{
    output.executable && is_written_class(output.class)
}

// Whether one of these does.
fn has_executed_writes(outputs: &[FilledOutput]) -> bool
    ensures { result ≡ list_any is_executed_write outputs.now }
{
    outputs.iter().any(|output| is_executed_write(output))
}

/// What may be done in the segment that is written.
#[tactic(auto, unfolding(link_core::specs::Headers::written_segment_flags), using(crate::proofs::Executed::writes_are))]
pub(crate) fn written_flags<M: Machine>(p: &Link<'_, M>) -> u32
    ensures { result ≡ meant.written_segment_flags (link_of M.rules p.now) }
{
    if has_executed_writes(p.outputs()) {
        PF_R + PF_W + PF_X
    } else {
        PF_R + PF_W
    }
}
