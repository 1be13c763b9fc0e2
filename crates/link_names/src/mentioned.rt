//! What objects mention.

ghost use Rattle.std.specs.Prelude.{◌≡◌, ◌≤◌, ◌<◌, ◌^◌, ◌++◌, IfOk, OnOk, length, filter_map};
ghost use Rattle.std.specs.List as lists;
ghost use Rattle.std.specs.Option.{option_to_list};
ghost use Rattle.link_core.specs.Mentions as said;
ghost use Rattle.link_names.specs.Flags.{AreSmall, has_flag, mentions_by};

use elf_object::{ObjPlace, ObjSymbol, Object};
use ifs_bytes::Memory;
use link_core::STB_LOCAL;
use link_mentions::Mention;
use std::alloc::Global;

// Whether the section of this number is kept.
fn has_flag(flags: &[bool], section: u32) -> bool
    ensures { result ≡ has_flag flags.now section }
{
    match flags.get(section as usize) {
        Some(kept) => *kept,
        None => false,
    }
}

// Where a symbol counts as defined: nowhere where its section isn't kept.
fn counted_place(flags: &[bool], place: ObjPlace) -> ObjPlace
    ensures { result ≡ said.counted_place (has_flag flags.now) place }
{
    match place {
        ObjPlace::Undefined => ObjPlace::Undefined,
        ObjPlace::Absolute => ObjPlace::Absolute,
        ObjPlace::Common => ObjPlace::Common,
        ObjPlace::In(section) => {
            if has_flag(flags, section) {
                ObjPlace::In(section)
            } else {
                ObjPlace::Undefined
            }
        }
    }
}

// Whether a name has no bytes.
fn is_unnamed(name: &[u8]) -> bool
    ensures { result ≡ said.is_unnamed name.now }
{
    match name {
        [] => true,
        [_, ..] => false,
    }
}

// Whether its own object alone sees the symbol.
fn is_local(symbol: &ObjSymbol) -> bool
    ensures { result ≡ said.is_local symbol.now }
{
    symbol.binding == STB_LOCAL || is_unnamed(symbol.name.as_bytes())
}

// Appends what a row mentions, if it does.
fn push_mention<'a>(
    mentions: &mut Vec<Mention<'a>>,
    flags: &[bool],
    object: u32,
    row: u32,
    symbol: &'a ObjSymbol,
) -> Result<(), Memory>
    ensures { OnOk result (mentions.new.items
        ≡ mentions.old.items ++ option_to_list (said.mentioned (has_flag flags.now) object (row, symbol.now))) }
{
    if is_local(symbol) {
        return Ok(());
    }
    let place = counted_place(flags, symbol.place);
    Ok(mentions.push(Mention::new(object, row, place, symbol))?)
}

// Appends what the rows of an object mention.
fn push_mentions<'a>(
    mentions: &mut Vec<Mention<'a>>,
    flags: &[bool],
    object: u32,
    symbols: &'a [ObjSymbol],
) -> Result<(), Memory>
    requires { length symbols.now < 2 ^ 32 }
    ensures { OnOk result (mentions.new.items
        ≡ mentions.old.items ++ filter_map (said.mentioned (has_flag flags.now) object) (lists.enumerate_from 0 symbols.now)) }
{
    for (row, symbol) in symbols.iter().enumerate() {
        push_mention(mentions, flags, object, row as u32, symbol)?;
    }
    Ok(())
}

/// The mentions of all names, by object and row. `flags` says of each object which of its sections are kept.
pub fn mentions_of<'a>(
    alloc: Global,
    flags: &[Vec<bool>],
    objects: &'a [Object],
) -> Result<Vec<Mention<'a>>, Memory>
    requires few { length objects.now ≤ 4096 }
    requires small { AreSmall objects.now }
    requires long { length flags.now ≡ length objects.now }
    ensures { IfOk result (λ mentions. mentions.items ≡ mentions_by flags.now objects.now) }
{
    let mut mentions = Vec::new(alloc);
    for (i, object) in objects.iter().enumerate() {
        push_mentions(&mut mentions, &flags[i], i as u32, object.symbols())?;
    }
    Ok(mentions)
}
