//! The references of a section among all.

ghost use Rattle.std.specs.Prelude.{◌≡◌, ◌≤◌, length};
ghost use Rattle.link_order.specs.Order as meant;
ghost use Rattle.link_order.specs.Found.{IsRunOf};

use crate::referring::Referring;
use link_core::At;

// Whether a place stands before those of a section.
fn is_before(object: u32, section: u32, at: &At) -> bool
    ensures { result ≡ meant.is_before object section at.now }
{
    at.object < object || (at.object == object && at.section < section)
}

// Whether a place is one of a section.
fn is_of(object: u32, section: u32, at: &At) -> bool
    ensures { result ≡ meant.is_of object section at.now }
{
    at.object == object && at.section == section
}

/// Where the references of a section start among all references of a link, and where they end. Two binary
/// searches; where the section has no references, both are the place that they would have.
pub fn run_of<T: Referring>(items: &[T], object: u32, section: u32) -> (usize, usize)
    ensures ordered { result.0 ≤ result.1 }
    ensures within { result.1 ≤ length items.now }
    ensures run { IsRunOf T.use_of items.now object section result.0 result.1 }
{
    let start = items.partition_point(|item| is_before(object, section, &item.at()));
    let (_, rest) = items.split_at(start);
    let count = rest.partition_point(|item| is_of(object, section, &item.at()));
    (start, start + count)
}
