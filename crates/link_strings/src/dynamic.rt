//! The strings of .dynstr.

ghost use Rattle.std.specs.Prelude.{◌≡◌, ◌++◌, map};
ghost use Rattle.std.specs.Option.{option_copied, option_to_list};
ghost use Rattle.std.specs.Result.{IfOk, OnOk};
ghost use Rattle.link_core.specs.Strings as strings;
ghost use Rattle.link_strings.specs.Named.{AreDynamicStrings, AreSymbolNames, name_in, strings_of};

use ifs_bytes::{Memory, Text};
use link_core::{LinkOptions, Plan, Resolution};
use std::alloc::Global;

// The soname that the made file has.
#[tactic(auto, unfolding(link_core::specs::Strings::soname_of))]
fn soname_of(options: &LinkOptions) -> Option<&Text>
    ensures { option_copied result ≡ strings.soname_of options.now }
{
    if options.kind.is_shared() {
        options.soname.as_ref()
    } else {
        None
    }
}

// The name at a position.
fn name_at(r: &Resolution, n: u64) -> &[u8]
    ensures { result.now ≡ name_in r.now n }
{
    match r.names.as_slice().get(n as usize) {
        Some(row) => row.name.as_bytes(),
        None => &[],
    }
}

// Appends the names at positions.
fn push_names<'a>(all: &mut Vec<&'a [u8]>, r: &'a Resolution, rows: &[u64]) -> Result<(), Memory>
    ensures { OnOk result (strings_of all.new.items
        ≡ strings_of all.old.items ++ map (name_in r.now) rows.now) }
{
    for n in rows {
        all.push(name_at(r, *n))?;
    }
    Ok(())
}

// Appends texts.
fn push_texts<'a>(all: &mut Vec<&'a [u8]>, texts: &'a [Text]) -> Result<(), Memory>
    ensures { OnOk result (strings_of all.new.items ≡ strings_of all.old.items ++ texts.now) }
{
    for text in texts {
        all.push(text.as_bytes())?;
    }
    Ok(())
}

// Appends a text, if it is there.
fn push_option<'a>(all: &mut Vec<&'a [u8]>, text: Option<&'a Text>) -> Result<(), Memory>
    ensures { OnOk result (strings_of all.new.items
        ≡ strings_of all.old.items ++ option_to_list (option_copied text.entry)) }
{
    match text {
        Some(text) => Ok(all.push(text.as_bytes())?),
        None => Ok(()),
    }
}

/// The names of the rows of .dynsym behind row 0, in order: the imports, then the exports.
pub fn symbol_names<'a>(alloc: Global, r: &'a Resolution, p: &Plan) -> Result<Vec<&'a [u8]>, Memory>
    ensures { IfOk result (λ names. AreSymbolNames r.now p.now (strings_of names.items)) }
{
    let mut all = Vec::new(alloc);
    push_names(&mut all, r, p.imports.as_slice())?;
    push_names(&mut all, r, p.exports.as_slice())?;
    Ok(all)
}

/// The strings of .dynstr in their order: the names of the rows of .dynsym, the needed libraries, the
/// soname and the runpath.
pub fn dynamic_strings<'a>(
    alloc: Global,
    options: &'a LinkOptions,
    r: &'a Resolution,
    p: &Plan,
) -> Result<Vec<&'a [u8]>, Memory>
    ensures { IfOk result (λ all. AreDynamicStrings options.now r.now p.now (strings_of all.items)) }
{
    let mut all = symbol_names(alloc, r, p)?;
    push_texts(&mut all, r.needed.as_slice())?;
    push_option(&mut all, soname_of(options))?;
    push_option(&mut all, options.runpath.as_ref())?;
    Ok(all)
}
