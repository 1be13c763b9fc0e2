//! Where segments start and end.

ghost use Rattle.std.specs.Prelude.{◌≡◌, ◌<◌, ◌^◌};
ghost use Rattle.link_core.specs.Aligned.{aligned};
ghost use Rattle.link_core.specs.Headers as meant;
ghost use Rattle.link_core.specs.Layout as layout;
ghost use Rattle.link_core.specs.Places as places;
ghost use Rattle.link_placed.specs.Made.{link_of};

use link_core::{Machine, OutKind};
use link_placed::Link;

/// Where the image starts: a program at fixed addresses at 4 MiB, all else at 0.
pub(crate) fn base_of(kind: OutKind) -> u64
    ensures is { result ≡ layout.base_of kind }
    ensures low { result < 2 ^ 33 }
{
    match kind {
        OutKind::Exec => 0x40_0000,
        OutKind::Pie | OutKind::Shared => 0,
    }
}

/// The offset in the file of what stands at an address.
pub fn offset_of<M: Machine>(p: &Link<'_, M>, address: u64) -> u64
    ensures { result ≡ meant.offset_of (link_of M.rules p.now) address }
{
    address.saturating_sub(base_of(p.options().kind))
}

// The size of pages, in bytes. It is below the end of each image.
fn page<M: Machine>(p: &Link<'_, M>) -> u64
    ensures is { result ≡ (link_of M.rules p.now).rules.page }
    ensures low { result < 2 ^ 33 }
{
    p.is_made();
    p.machine().page()
}

// The start of the next page.
#[tactic(auto, unfolding(link_core::specs::Aligned::aligned))]
fn next_page<M: Machine>(p: &Link<'_, M>, at: u64) -> u64
    requires { at < 2 ^ 33 }
    ensures { result ≡ aligned (link_of M.rules p.now).rules.page at }
{
    let page = page(p).max(1);
    (at + (page - 1)) / page * page
}

/// The end of what is only read.
pub(crate) fn read_end<M: Machine>(p: &Link<'_, M>) -> u64
    ensures is { result ≡ places.read_segment_end p.now.layout }
    ensures low { result < 2 ^ 33 }
{
    p.is_made();
    p.ends().read
}

/// The end of code, or of what is only read where there is no code.
pub(crate) fn code_end<M: Machine>(p: &Link<'_, M>) -> u64
    ensures is { result ≡ places.code_segment_end p.now.layout }
    ensures low { result < 2 ^ 33 }
{
    p.is_made();
    p.ends().code
}

/// Where code starts: on the page behind what is only read.
#[tactic(auto, unfolding(link_core::specs::Headers::code_address))]
pub(crate) fn code_address<M: Machine>(p: &Link<'_, M>) -> u64
    ensures { result ≡ meant.code_address (link_of M.rules p.now) p.now.layout }
{
    next_page(p, read_end(p))
}

/// Where what is written starts: on the page behind code.
#[tactic(auto, unfolding(link_core::specs::Headers::written_address))]
pub(crate) fn written_address<M: Machine>(p: &Link<'_, M>) -> u64
    ensures { result ≡ meant.written_address (link_of M.rules p.now) p.now.layout }
{
    next_page(p, code_end(p))
}
