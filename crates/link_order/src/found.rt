//! The reference of a place.

ghost use Rattle.std.specs.Prelude.{◌≡◌, slice_get};
ghost use Rattle.std.specs.Option.{option_copied};
ghost use Rattle.link_core.specs.References.{at_of};
ghost use Rattle.link_core.specs.Relocations.{same_place};
ghost use Rattle.link_order.specs.Order as meant;
ghost use Rattle.link_order.specs.Found.{IsFoundAt, if_at};

use crate::referring::Referring;
use link_core::At;

// Whether a place stands before another.
fn at_before(a: &At, b: &At) -> bool
    ensures { result ≡ meant.at_before a.now b.now }
{
    a.object < b.object
        || (a.object == b.object
            && (a.section < b.section || (a.section == b.section && a.index < b.index)))
}

// The item at a position, if its reference is at the place.
fn item_if_at<'a, T: Referring>(items: &'a [T], position: usize, at: &At) -> Option<&'a T>
    ensures { option_copied result
        ≡ if_at (λ x. same_place (at_of (T.use_of x)) at.now) (slice_get items.now position) }
{
    let item = items.get(position)?;
    if item.at() == *at { Some(item) } else { None }
}

/// The item whose reference is the one of a place, among all references of a link. One binary search.
pub fn found_at<'a, T: Referring>(items: &'a [T], at: &At) -> Option<&'a T>
    ensures { IsFoundAt T.use_of items.now at.now (option_copied result) }
{
    let position = items.partition_point(|item| at_before(&item.at(), at));
    item_if_at(items, position, at)
}
