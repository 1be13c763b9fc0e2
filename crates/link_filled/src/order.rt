//! Pieces in the order of their priorities.

ghost use Rattle.std.specs.Prelude.{◌≡◌, IfOk, Some};
ghost use Rattle.std.specs.Ordering.{is_lt};
ghost use Rattle.link_core.specs.OutputNames as meant;
ghost use Rattle.link_filled.specs.Fills.{before};

use ifs_bytes::Memory;
use link_outputs::{Piece, priority};
use std::alloc::Global;
use std::cmp::Ordering;

// Whether a piece of the priority `one` goes before one of the priority `other`.
fn goes_before(one: Option<u32>, other: Option<u32>) -> bool
    ensures { result ≡ meant.goes_before one other }
{
    match one {
        None => false,
        Some(n) => is_under(n, other),
    }
}

// Whether a priority is under another, or there is no other.
fn is_under(n: u32, other: Option<u32>) -> bool
    ensures { result ≡ meant.goes_before (Some n) other }
{
    match other {
        None => true,
        Some(m) => n < m,
    }
}

// Whether a piece goes before another.
fn before(one: &Piece<'_>, other: &Piece<'_>) -> bool
    ensures { result ≡ before one.now other.now }
{
    goes_before(
        priority(one.input.name.as_bytes()),
        priority(other.input.name.as_bytes()),
    )
}

// Two pieces in their order.
fn order(one: &Piece<'_>, other: &Piece<'_>) -> Ordering
    ensures { is_lt result ≡ before one.now other.now }
{
    if before(one, other) {
        Ordering::Less
    } else if before(other, one) {
        Ordering::Greater
    } else {
        Ordering::Equal
    }
}

// The pieces once more.
fn copied<'a>(alloc: Global, pieces: &[Piece<'a>]) -> Result<Vec<Piece<'a>>, Memory>
    ensures { IfOk result (λ all. all.items ≡ pieces.now) }
{
    let mut all = Vec::with_capacity(alloc, pieces.len())?;
    for piece in pieces {
        all.push(Piece {
            object: piece.object,
            section: piece.section,
            input: piece.input,
        })?;
    }
    Ok(all)
}

/// The pieces by priority, and those of one priority in their order.
pub fn ordered<'a>(alloc: Global, pieces: &[Piece<'a>]) -> Result<Vec<Piece<'a>>, Memory>
    ensures { IfOk result (λ all. all.items ≡ meant.by_priority pieces.now) }
{
    let mut all = copied(alloc, pieces)?;
    all.sort_by(|one, other| order(one, other))?;
    Ok(all)
}
