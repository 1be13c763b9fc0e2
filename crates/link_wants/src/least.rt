//! The least name that a library wants in vain.

ghost use Rattle.std.specs.Prelude.{◌≡◌, ◌<◌, true, not, ◌&&◌, length, map, option_map, slice_get};
ghost use Rattle.std.specs.Option.{option_copied, option_flatten};
ghost use Rattle.ifs_interface.specs.Interface.{ascends, comes_before};
ghost use Rattle.ifs_interface.specs.Wanted.{seen};
ghost use Rattle.link_binding.specs.Libraries.{libraries_seen};
ghost use Rattle.link_core.specs.Lists.{first_some};
ghost use Rattle.link_names.specs.Bounds.{AreInOrder};
ghost use Rattle.link_wants.specs.Least.{is_missing_by, least_from, lesser, missing_place, missing_wanted};

use ifs_interface::{SharedLib, Wanted};
use link_binding::{HeldLib, is_defined_by_one};
use link_checks::is_offered_among;
use link_names::{Name, is_provided};
use std::cmp::Ordering;

// Whether a name comes before another, byte by byte.
fn comes_before(name: &[u8], other: &[u8]) -> bool
    ensures { result ≡ comes_before name.now other.now }
{
    match name.cmp(other) {
        Ordering::Less => true,
        Ordering::Equal => false,
        Ordering::Greater => false,
    }
}

// The lesser of two names, where there are any.
fn lesser<'a>(one: Option<&'a [u8]>, other: Option<&'a [u8]>) -> Option<&'a [u8]>
    ensures { option_copied result ≡ lesser (option_copied one.entry) (option_copied other.entry) }
{
    match one {
        None => other,
        Some(a) => match other {
            None => Some(a),
            Some(b) => { if comes_before(b, a) { Some(b) } else { Some(a) } }
        },
    }
}

// Whether nothing is there for a name that a library wants.
fn is_missing<S: SharedLib>(
    names: &[Name],
    libs: &[HeldLib<S>],
    sections: &[&[u8]],
    name: &[u8],
) -> bool
    requires names { ascends (map (λ n. n.row.name) names.now) ≡ true }
    requires order { AreInOrder sections.now }
    ensures { result ≡ is_missing_by names.now (libraries_seen S.facts libs.now) sections.now name.now }
{
    !is_defined_by_one(libs, name) && !is_provided(sections, name) && !is_offered_among(names, name)
}

// The name that stands at a place, where it is wanted strongly and in vain.
fn missing_at<'a, S: SharedLib>(
    names: &[Name],
    libs: &[HeldLib<S>],
    sections: &[&[u8]],
    place: Option<Wanted<'a>>,
) -> Option<&'a [u8]>
    requires names { ascends (map (λ n. n.row.name) names.now) ≡ true }
    requires order { AreInOrder sections.now }
    ensures { option_copied result ≡ missing_place (is_missing_by names.now (libraries_seen S.facts libs.now) sections.now) (option_map seen place.entry) }
{
    match place {
        Some(wanted) => {
            if wanted.strong && is_missing(names, libs, sections, wanted.name) {
                Some(wanted.name)
            } else {
                None
            }
        }
        None => None,
    }
}

/// The least name that the library wants strongly and in vain. The names of the link, and those of its output
/// sections, stand in byte order.
pub fn least_missing<'a, S: SharedLib>(
    names: &[Name],
    libs: &[HeldLib<S>],
    sections: &[&[u8]],
    lib: &'a S,
) -> Option<&'a [u8]>
    requires names { ascends (map (λ n. n.row.name) names.now) ≡ true }
    requires order { AreInOrder sections.now }
    ensures { option_copied result ≡ first_some (missing_wanted (is_missing_by names.now (libraries_seen S.facts libs.now) sections.now)) (S.facts lib.now).wanted }
{
    let mut least = None;
    let mut i = lib.wanted_len();
    while i > 0 {
        i -= 1;
        least = lesser(missing_at(names, libs, sections, lib.wanted(i)), least);
    }
    least
}
