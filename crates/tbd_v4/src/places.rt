//! What a library has that a text of version 4 has no place for.

ghost use Rattle.std.specs.Prelude.{◌≡◌};
ghost use Rattle.std.specs.List.{list_any};
ghost use Rattle.std.specs.Option.{option_copied};
ghost use Rattle.tbd_v4.specs.Places.{has_least, is_partial, has_partial_flag, has_rpath, is_known, has_segment, in_any, without_place};

use tbd_core::{Dylib, Named, Part, Tbd};

// Whether a target says the least version that it runs on.
fn has_least(dylib: &Dylib) -> bool
    ensures { result ≡ has_least dylib.now }
{
    dylib
        .parts()
        .targets
        .as_slice()
        .iter()
        .any(|target| target.min.is_some())
}

// Whether one of these flags isn't for as many targets as there are.
fn any_partial(flags: &[Named], count: usize) -> bool
    ensures { result ≡ list_any (is_partial count) flags.now }
{
    flags
        .iter()
        .any(|flag| flag.targets.as_slice().len() != count)
}

// Whether a flag isn't for all targets.
fn has_partial_flag(dylib: &Dylib) -> bool
    ensures { result ≡ has_partial_flag dylib.now }
{
    let parts = dylib.parts();
    any_partial(parts.flags.as_slice(), parts.targets.as_slice().len())
}

fn has_rpath(dylib: &Dylib) -> bool
    ensures { result ≡ has_rpath dylib.now }
{
    !dylib.parts().rpaths.as_slice().is_empty()
}

fn is_known(part: Part) -> bool
    ensures { result ≡ is_known part }
{
    match part {
        Part::Any => false,
        Part::Data => true,
        Part::Code => true,
    }
}

// Whether a symbol is in a part that is known.
fn has_segment(dylib: &Dylib) -> bool
    ensures { result ≡ has_segment dylib.now }
{
    dylib
        .parts()
        .symbols
        .as_slice()
        .iter()
        .any(|symbol| is_known(symbol.segment))
}

fn any_least(dylibs: &[Dylib]) -> bool
    ensures { result ≡ list_any has_least dylibs.now }
{
    dylibs.iter().any(|dylib| has_least(dylib))
}

fn in_any_least(tbd: &Tbd) -> bool
    ensures { result ≡ in_any has_least tbd.now }
{
    has_least(&tbd.main) || any_least(tbd.inlined.as_slice())
}

fn any_partial_flag(dylibs: &[Dylib]) -> bool
    ensures { result ≡ list_any has_partial_flag dylibs.now }
{
    dylibs.iter().any(|dylib| has_partial_flag(dylib))
}

fn in_any_partial_flag(tbd: &Tbd) -> bool
    ensures { result ≡ in_any has_partial_flag tbd.now }
{
    has_partial_flag(&tbd.main) || any_partial_flag(tbd.inlined.as_slice())
}

fn any_rpath(dylibs: &[Dylib]) -> bool
    ensures { result ≡ list_any has_rpath dylibs.now }
{
    dylibs.iter().any(|dylib| has_rpath(dylib))
}

fn in_any_rpath(tbd: &Tbd) -> bool
    ensures { result ≡ in_any has_rpath tbd.now }
{
    has_rpath(&tbd.main) || any_rpath(tbd.inlined.as_slice())
}

fn any_segment(dylibs: &[Dylib]) -> bool
    ensures { result ≡ list_any has_segment dylibs.now }
{
    dylibs.iter().any(|dylib| has_segment(dylib))
}

fn in_any_segment(tbd: &Tbd) -> bool
    ensures { result ≡ in_any has_segment tbd.now }
{
    has_segment(&tbd.main) || any_segment(tbd.inlined.as_slice())
}

/// The first of these that one of the libraries has, and that has no place in a text: a least version of a
/// target (`min_deployment`), a flag that isn't for all targets (`flags`), a run path (`rpaths`), a symbol of a
/// known part (`segment`).
#[tactic(auto, unfolding(crate::specs::Places::without_place))]
pub(crate) fn without_place(tbd: &Tbd) -> Option<&'static [u8]>
    ensures { option_copied result ≡ without_place tbd.now }
{
    if in_any_least(tbd) {
        return Some(b"min_deployment");
    }
    if in_any_partial_flag(tbd) {
        return Some(b"flags");
    }
    if in_any_rpath(tbd) {
        return Some(b"rpaths");
    }
    if in_any_segment(tbd) {
        return Some(b"segment");
    }
    None
}
