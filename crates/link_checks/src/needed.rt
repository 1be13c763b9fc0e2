//! The libraries that the made file asks for.

ghost use Rattle.std.specs.Prelude.{◌≡◌, ◌≤◌, ◌||◌, ◌++◌, ◌∷◌, [], not, IfOk, OnOk, length, map};
ghost use Rattle.std.specs.List as lists;
ghost use Rattle.ifs_interface.specs.Triple.{same_name};
ghost use Rattle.link_core.specs.Exports as exports;
ghost use Rattle.link_binding.specs.Libraries.{libraries_seen, seen};
ghost use Rattle.link_checks.specs.Needed.{has_text, is_asked, is_row_from, with_asked, with_once};

use ifs_bytes::{Memory, Text};
use ifs_interface::SharedLib;
use link_binding::HeldLib;
use link_core::{Bound, LinkOptions, NameRow};
use link_names::Name;
use std::alloc::Global;

// Appends the row of a name.
fn push_row(rows: &mut Vec<NameRow>, name: Name) -> Result<(), Memory>
    ensures { OnOk result (rows.new.items ≡ rows.old.items ++ name.row ∷ []) }
{
    let Name { row, unmet: _ } = name;
    Ok(rows.push(row)?)
}

/// The rows of the names.
pub fn rows_of(alloc: Global, names: Vec<Name>) -> Result<Vec<NameRow>, Memory>
    ensures { IfOk result (λ rows. rows.items ≡ map (λ n. n.row) names.items) }
{
    let mut rows = Vec::with_capacity(alloc, names.len())?;
    for name in names {
        push_row(&mut rows, name)?;
    }
    Ok(rows)
}

// Whether a name is the library's at this position.
fn is_from(library: u32, bound: Bound) -> bool
    ensures { result ≡ exports.is_from library bound }
{
    match bound {
        Bound::Object(_, _) => false,
        Bound::Common => false,
        Bound::Provided => false,
        Bound::Library(other) => other == library,
        Bound::Import => false,
        Bound::Zero => false,
    }
}

// Whether a name that isn't wanted weakly alone is the library's.
fn is_row_from(library: u32, row: &NameRow) -> bool
    ensures { result ≡ is_row_from library row.now }
{
    is_from(library, row.bound) && !row.weak_only
}

// Whether one of the names is.
fn is_used(rows: &[NameRow], library: u32) -> bool
    ensures { result ≡ lists.list_any (is_row_from library) rows.now }
{
    rows.iter().any(|row| is_row_from(library, row))
}

// Whether the made file asks for the library.
fn is_asked(options: &LinkOptions, rows: &[NameRow], library: u32) -> bool
    ensures { result ≡ is_asked options.now rows.now library }
{
    !options.as_needed || is_used(rows, library)
}

// Whether the texts have these bytes among them.
fn has_text(texts: &[Text], name: &[u8]) -> bool
    ensures { result ≡ has_text texts.now name.now }
{
    texts.iter().any(|text| text.as_bytes() == name)
}

// Appends a name, unless it is there.
fn push_once(alloc: Global, needed: &mut Vec<Text>, name: &[u8]) -> Result<(), Memory>
    ensures { OnOk result (needed.new.items ≡ with_once needed.old.items name.now) }
{
    if has_text(needed.as_slice(), name) {
        return Ok(());
    }
    Ok(needed.push(Text::from_slice(alloc, name)?)?)
}

// Appends the name of a library, where the made file asks for it and it isn't there.
fn push_asked(
    alloc: Global,
    options: &LinkOptions,
    rows: &[NameRow],
    needed: &mut Vec<Text>,
    library: u32,
    name: &[u8],
) -> Result<(), Memory>
    ensures { OnOk result (needed.new.items ≡ with_asked (is_asked options.now rows.now library) needed.old.items name.now) }
{
    if is_asked(options, rows, library) {
        push_once(alloc, needed, name)
    } else {
        Ok(())
    }
}

/// The names of the libraries that the made file asks for (DT_NEEDED), in order, each once.
pub fn needed_names<S: SharedLib>(
    alloc: Global,
    options: &LinkOptions,
    libs: &[HeldLib<S>],
    rows: &[NameRow],
) -> Result<Vec<Text>, Memory>
    requires { length libs.now ≤ 256 }
    ensures { IfOk result (λ needed. needed.items ≡ exports.needed_names options.now (libraries_seen S.facts libs.now) rows.now) }
{
    let mut needed = Vec::new(alloc);
    for (i, held) in libs.iter().enumerate() {
        push_asked(alloc, options, rows, &mut needed, i as u32, held.name)?;
    }
    Ok(needed)
}
