//! The names that .dynstr has.

ghost use Rattle.std.specs.Prelude.{◌≡◌, ◌≤◌};
ghost use Rattle.std.specs.Option.{option_copied};
ghost use Rattle.link_core.specs.Strings as strings;
ghost use Rattle.link_tables.specs.Capped.{capped};
ghost use Rattle.link_tables.specs.Names as meant;

use ifs_bytes::Text;
use link_core::{Bound, LinkOptions, NameRow, Plan, Resolution};

/// The soname that the made file has.
#[tactic(auto, unfolding(link_core::specs::Strings::soname_of))]
pub fn soname_of(options: &LinkOptions) -> Option<&Text>
    ensures { option_copied result ≡ strings.soname_of options.now }
{
    if options.kind.is_shared() {
        options.soname.as_ref()
    } else {
        None
    }
}

// How many bytes the name at a position has, with its NUL.
fn name_room(names: &[NameRow], n: u64) -> u128
    ensures { result ≡ meant.name_room names.now n }
{
    match names.get(n as usize) {
        None => 1,
        Some(row) => row.name.as_bytes().len() as u128 + 1,
    }
}

// How many bytes the names of rows have, each with its NUL.
fn rows_room(names: &[NameRow], rows: &[u64]) -> u128
    ensures { result ≡ capped (meant.rows_room names.now rows.now) }
{
    let mut total = 0u128;
    for n in rows {
        total = total.saturating_add(name_room(names, *n));
    }
    total
}

// How many bytes texts have, each with its NUL.
fn texts_room(texts: &[Text]) -> u128
    ensures { result ≡ capped (meant.texts_room texts.now) }
{
    let mut total = 0u128;
    for text in texts {
        total = total.saturating_add(text.as_bytes().len() as u128 + 1);
    }
    total
}

// How many bytes a text has with its NUL, if it is there.
fn option_room(text: Option<&Text>) -> u128
    ensures { result ≡ meant.option_room (option_copied text.entry) }
{
    match text {
        None => 0,
        Some(text) => text.as_bytes().len() as u128 + 1,
    }
}

/// How many bytes .dynstr has.
#[tactic(auto, unfolding(crate::specs::Names::strings_room))]
pub fn strings_room(options: &LinkOptions, r: &Resolution, p: &Plan) -> u128
    ensures { result ≡ capped (meant.strings_room options.now r.now p.now) }
{
    let names = r.names.as_slice();
    1u128
        .saturating_add(rows_room(names, p.imports.as_slice()))
        .saturating_add(rows_room(names, p.exports.as_slice()))
        .saturating_add(texts_room(r.needed.as_slice()))
        .saturating_add(option_room(soname_of(options)))
        .saturating_add(option_room(options.runpath.as_ref()))
}

// Whether an object defines the name.
fn is_of_object(bound: Bound) -> bool
    ensures { result ≡ meant.is_of_object bound }
{
    match bound {
        Bound::Object(_, _) => true,
        Bound::Common => false,
        Bound::Provided => false,
        Bound::Library(_) => false,
        Bound::Import => false,
        Bound::Zero => false,
    }
}

// Whether the row has the name, which is bound to an object.
fn is_definition(row: &NameRow, name: &[u8]) -> bool
    ensures { result ≡ meant.is_definition name.now row.now }
{
    row.name.as_bytes() == name && is_of_object(row.bound)
}

/// Whether a name is bound to an object.
pub fn is_defined(names: &[NameRow], name: &[u8]) -> bool
    ensures { result ≡ meant.is_defined names.now name.now }
{
    names.iter().any(|row| is_definition(row, name))
}
