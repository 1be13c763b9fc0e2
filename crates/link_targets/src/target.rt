//! The symbol of a reference.

ghost use Rattle.std.specs.Prelude.{◌≡◌, Some, option_map, slice_get, true};
ghost use Rattle.std.specs.Option.{option_map_or};
ghost use Rattle.link_core.specs.Mentions as mentions;
ghost use Rattle.link_core.specs.References as meant;
ghost use Rattle.link_targets.specs.Targets as targets;

use crate::names::name_place;
use crate::state::{is_threaded_in, is_threaded_name, state_of_name};
use elf_object::{ObjPlace, ObjSymbol, Object};
use ifs_interface::Fact;
use link_core::{NameRow, RefState, Resolution, STB_LOCAL, SymbolId};

/// The symbol of a reference, and what it is to the made file.
#[derive(Clone, Copy, Debug, PartialEq, Eq)]
pub struct Target {
    /// The symbol.
    pub symbol: SymbolId,
    /// What it is to the made file.
    pub state: RefState,
    /// Whether each thread has it for itself.
    pub threaded: bool,
    /// The class of a name, and `NoType` of a symbol that its object alone sees.
    pub class: Fact,
}

// A symbol that its object alone sees.
fn local_target(names: &Resolution, symbol: (u32, u32), state: RefState, threaded: bool) -> Target
    ensures { targets.target_seen names.now result
        ≡ meant.local_target (SymbolId.Local symbol.0 symbol.1) state threaded }
{
    let (object, row) = symbol;
    Target {
        symbol: SymbolId::Local(object, row),
        state,
        threaded,
        class: Fact::NoType,
    }
}

/// Symbol 0 of an object, which stands for all of its symbols that have no section and no value.
pub fn no_symbol(names: &Resolution, object: u32) -> Target
    ensures { targets.target_seen names.now result ≡ meant.no_symbol object }
{
    local_target(names, (object, 0), RefState::Abs, false)
}

// A symbol that its object alone sees, by its place. `kept` says whether the section of the place is kept.
fn local_at(
    names: &Resolution,
    own: &Object,
    symbol: (u32, u32),
    place: ObjPlace,
    kept: bool,
) -> Option<Target>
    requires { kept ≡ targets.is_place_kept names.now.dropped symbol.0 own.now place }
    ensures { option_map (targets.target_seen names.now) result
        ≡ meant.local_at names.now.dropped symbol.0 own.now symbol.1 place }
{
    match place {
        ObjPlace::Undefined | ObjPlace::Common => Some(no_symbol(names, symbol.0)),
        ObjPlace::Absolute => Some(local_target(names, symbol, RefState::Abs, false)),
        ObjPlace::In(section) => {
            if !kept {
                return None;
            }
            let threaded = is_threaded_in(own, section);
            Some(local_target(names, symbol, RefState::Own, threaded))
        }
    }
}

// The name at a position.
fn name_target(names: &Resolution, objects: &[Object], i: usize, row: &NameRow) -> Target
    requires { slice_get names.now.names i ≡ Some row.now }
    ensures { targets.target_seen names.now result ≡ meant.name_target objects.now i row.now }
{
    Target {
        symbol: SymbolId::Name(i as u64),
        state: state_of_name(objects, row),
        threaded: is_threaded_name(objects, row),
        class: row.class,
    }
}

// The symbol of a name.
#[tactic(auto, unfolding(link_core::specs::References::target_named))]
fn target_named(names: &Resolution, objects: &[Object], name: &[u8]) -> Option<Target>
    requires { targets.NamesAscend names.now }
    ensures { option_map (targets.target_seen names.now) result
        ≡ meant.target_named names.now objects.now name.now }
{
    let place = name_place(names, name);
    match names.names.as_slice().get(place) {
        Some(row) => Some(name_target(names, objects, place, row)),
        None => None,
    }
}

fn is_unnamed(name: &[u8]) -> bool
    ensures { result ≡ mentions.is_unnamed name.now }
{
    match name {
        [] => true,
        [_, ..] => false,
    }
}

// Whether a row is one that its own object alone sees.
fn is_local(symbol: &ObjSymbol) -> bool
    ensures { result ≡ mentions.is_local symbol.now }
{
    symbol.binding == STB_LOCAL || is_unnamed(symbol.name.as_bytes())
}

// The symbol of a row that says `row`.
fn target_in(
    names: &Resolution,
    objects: &[Object],
    own: &Object,
    symbol: (u32, u32),
    row: &ObjSymbol,
    kept: bool,
) -> Option<Target>
    requires ascend { targets.NamesAscend names.now }
    requires kept { kept ≡ targets.is_place_kept names.now.dropped symbol.0 own.now row.now.place }
    ensures { option_map (targets.target_seen names.now) result
        ≡ targets.target_in names.now objects.now symbol.0 own.now symbol.1 row.now }
{
    if is_local(row) {
        local_at(names, own, symbol, row.place, kept)
    } else {
        target_named(names, objects, row.name.as_bytes())
    }
}

/// The symbol in a row of an object, given as the position of the object and the row, or None where it lay in a
/// section that isn't kept. `kept` says whether the section of the row's place is kept, where it has one. The
/// names stand in byte order, each once.
#[tactic(auto, unfolding(crate::specs::Targets::target_at))]
pub fn target_at(
    names: &Resolution,
    objects: &[Object],
    own: &Object,
    symbol: (u32, u32),
    kept: bool,
) -> Option<Target>
    requires ascend { targets.NamesAscend names.now }
    requires kept { kept ≡ targets.is_row_kept names.now.dropped symbol.0 own.now symbol.1 }
    ensures { option_map (targets.target_seen names.now) result
        ≡ targets.target_at names.now objects.now symbol.0 own.now symbol.1 }
{
    let (object, row) = symbol;
    if row == 0 {
        return Some(no_symbol(names, object));
    }
    match own.symbols().get(row as usize) {
        Some(found) => target_in(names, objects, own, symbol, found, kept),
        None => Some(no_symbol(names, object)),
    }
}
