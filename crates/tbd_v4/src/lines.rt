//! Lines of a text of version 4.

ghost use Rattle.std.specs.Prelude.{◌≡◌, ◌++◌, map, codes, OnOk};
ghost use Rattle.std.specs.List.{flat_map, list_any};
ghost use Rattle.tbd_v4.specs.Lines.{item, items, list_line, scalar_line, name_at, targets_line, list_start, is_in, names_in, line_of, symbol_lines, common_targets, group_lines, umbrella_lines, group_text};

use crate::listed::{Listed, NameList};
use ifs_bytes::{Memory, Text};
use tbd_core::{Named, TbdTarget};
use yaml_profile::append_scalar;

// ---- compact lists

// Appends a name, with a comma before it where it is behind another.
fn append_item(out: &mut Text, behind: bool, name: &[u8]) -> Result<(), Memory>
    ensures { OnOk result (out.new ≡ out.old ++ item behind name.now) }
{
    if behind {
        out.append(b", ")?;
    }
    append_scalar(out, name)
}

// Appends the names of targets.
fn append_target_names(out: &mut Text, targets: &[TbdTarget]) -> Result<(), Memory>
    ensures { OnOk result (out.new ≡ out.old ++ items (map (λ target. target.name) targets.now)) }
{
    let mut left = targets;
    let mut behind = false;
    while let [target, others @ ..] = left {
        append_item(out, behind, target.name.as_bytes())?;
        behind = true;
        left = others;
    }
    Ok(())
}

// Appends the names of flags.
fn append_flag_names(out: &mut Text, flags: &[Named]) -> Result<(), Memory>
    ensures { OnOk result (out.new ≡ out.old ++ items (map (λ flag. flag.name) flags.now)) }
{
    let mut left = flags;
    let mut behind = false;
    while let [flag, others @ ..] = left {
        append_item(out, behind, flag.name.as_bytes())?;
        behind = true;
        left = others;
    }
    Ok(())
}

// The name of the target at a position.
#[tactic(auto, unfolding(crate::specs::Lines::name_at))]
fn name_at(targets: &[TbdTarget], place: u64) -> &[u8]
    ensures { result.now ≡ name_at targets.now place }
{
    match targets.get(place as usize) {
        Some(target) => target.name.as_bytes(),
        None => b"",
    }
}

// Appends the names of the targets at positions.
fn append_places(out: &mut Text, targets: &[TbdTarget], places: &[u64]) -> Result<(), Memory>
    ensures { OnOk result (out.new ≡ out.old ++ items (map (name_at targets.now) places.now)) }
{
    let mut left = places;
    let mut behind = false;
    while let [place, others @ ..] = left {
        append_item(out, behind, name_at(targets, *place))?;
        behind = true;
        left = others;
    }
    Ok(())
}

// Whether a name stands in a list.
fn is_in(list: NameList, entry: &Listed) -> bool
    ensures { result ≡ is_in list entry.now }
{
    entry.list().rank() == list.rank()
}

// Appends the names of a list.
fn append_names(out: &mut Text, list: NameList, group: &[Listed]) -> Result<(), Memory>
    ensures { OnOk result (out.new ≡ out.old ++ items (names_in list group.now)) }
{
    let mut left = group;
    let mut behind = false;
    while let [entry, others @ ..] = left {
        if is_in(list, entry) {
            append_item(out, behind, entry.name())?;
            behind = true;
        }
        left = others;
    }
    Ok(())
}

// ---- lines

/// Appends the line of all targets.
#[tactic(auto, unfolding(crate::specs::Lines::list_line))]
pub(crate) fn append_targets(out: &mut Text, targets: &[TbdTarget]) -> Result<(), Memory>
    ensures { OnOk result (out.new
        ≡ out.old ++ list_line (codes "targets:         [ ") (map (λ target. target.name) targets.now)) }
{
    out.append(b"targets:         [ ")?;
    append_target_names(out, targets)?;
    out.append(b" ]")?;
    out.push(b'\n')
}

/// Appends the line of flags.
#[tactic(auto, unfolding(crate::specs::Lines::list_line))]
pub(crate) fn append_flag_line(out: &mut Text, flags: &[Named]) -> Result<(), Memory>
    ensures { OnOk result (out.new
        ≡ out.old ++ list_line (codes "flags:           [ ") (map (λ flag. flag.name) flags.now)) }
{
    out.append(b"flags:           [ ")?;
    append_flag_names(out, flags)?;
    out.append(b" ]")?;
    out.push(b'\n')
}

/// Appends a line of fixed bytes and a name.
#[tactic(auto, unfolding(crate::specs::Lines::scalar_line))]
pub(crate) fn append_scalar_line(out: &mut Text, start: &[u8], name: &[u8]) -> Result<(), Memory>
    ensures { OnOk result (out.new ≡ out.old ++ scalar_line start.now name.now) }
{
    out.append(start)?;
    append_scalar(out, name)?;
    out.push(b'\n')
}

// Appends a line of fixed bytes and of the names of the targets at positions.
#[tactic(auto, unfolding(crate::specs::Lines::list_line))]
fn append_places_line(
    out: &mut Text,
    start: &[u8],
    targets: &[TbdTarget],
    places: &[u64],
) -> Result<(), Memory>
    ensures { OnOk result (out.new ≡ out.old ++ list_line start.now (map (name_at targets.now) places.now)) }
{
    out.append(start)?;
    append_places(out, targets, places)?;
    out.append(b" ]")?;
    out.push(b'\n')
}

// Appends the first line of a group.
fn append_targets_line(out: &mut Text, targets: &[TbdTarget], places: &[u64]) -> Result<(), Memory>
    ensures { OnOk result (out.new ≡ out.old ++ targets_line targets.now places.now) }
{
    append_places_line(out, b"  - targets:         [ ", targets, places)
}

// What stands before the first name of a list.
fn list_start(list: NameList) -> &'static [u8]
    ensures { result.now ≡ list_start list }
{
    match list {
        NameList::Symbols => b"    symbols:         [ ",
        NameList::ObjcClasses => b"    objc-classes:    [ ",
        NameList::ObjcEhTypes => b"    objc-eh-types:   [ ",
        NameList::ObjcIvars => b"    objc-ivars:      [ ",
        NameList::WeakSymbols => b"    weak-symbols:    [ ",
        NameList::ThreadLocalSymbols => b"    thread-local-symbols: [ ",
        NameList::Umbrellas => b"    umbrella:        ",
        NameList::Clients => b"    clients:         [ ",
        NameList::Libraries => b"    libraries:       [ ",
    }
}

// Appends the line of a list that has names.
#[tactic(auto, unfolding(crate::specs::Lines::list_line))]
fn append_list(out: &mut Text, list: NameList, group: &[Listed]) -> Result<(), Memory>
    ensures { OnOk result (out.new ≡ out.old ++ list_line (list_start list) (names_in list group.now)) }
{
    out.append(list_start(list))?;
    append_names(out, list, group)?;
    out.append(b" ]")?;
    out.push(b'\n')
}

// Whether a list has a name of a group.
fn has_name(list: NameList, group: &[Listed]) -> bool
    ensures { result ≡ list_any (is_in list) group.now }
{
    group.iter().any(|entry| is_in(list, entry))
}

// Appends the line of a list of a group, if a name is in it.
#[tactic(auto, unfolding(crate::specs::Lines::line_of))]
fn append_line_of(out: &mut Text, group: &[Listed], list: NameList) -> Result<(), Memory>
    ensures { OnOk result (out.new ≡ out.old ++ line_of group.now list) }
{
    if has_name(list, group) {
        append_list(out, list, group)?;
    }
    Ok(())
}

// ---- groups

// Appends the lists of symbols of a group.
#[tactic(auto, unfolding(crate::specs::Lines::symbol_lines))]
fn append_symbol_lines(out: &mut Text, group: &[Listed]) -> Result<(), Memory>
    ensures { OnOk result (out.new ≡ out.old ++ symbol_lines group.now) }
{
    append_line_of(out, group, NameList::Symbols)?;
    append_line_of(out, group, NameList::ObjcClasses)?;
    append_line_of(out, group, NameList::ObjcEhTypes)?;
    append_line_of(out, group, NameList::ObjcIvars)?;
    append_line_of(out, group, NameList::WeakSymbols)?;
    append_line_of(out, group, NameList::ThreadLocalSymbols)?;
    Ok(())
}

// The targets of names that are equal.
fn common_targets<'a>(group: &[Listed<'a>]) -> &'a [u64]
    ensures { result.now ≡ common_targets group.now }
{
    match group {
        [entry, ..] => entry.targets(),
        [] => &[],
    }
}

// Appends a group with its lists.
#[tactic(auto, unfolding(crate::specs::Lines::group_lines))]
fn append_group_lines(out: &mut Text, targets: &[TbdTarget], group: &[Listed]) -> Result<(), Memory>
    ensures { OnOk result (out.new ≡ out.old ++ group_lines targets.now group.now) }
{
    append_targets_line(out, targets, common_targets(group))?;
    append_symbol_lines(out, group)?;
    append_line_of(out, group, NameList::Clients)?;
    append_line_of(out, group, NameList::Libraries)?;
    Ok(())
}

// Appends the group of an umbrella.
#[tactic(auto, unfolding(crate::specs::Lines::umbrella_lines))]
fn append_umbrella(out: &mut Text, targets: &[TbdTarget], umbrella: &Listed) -> Result<(), Memory>
    ensures { OnOk result (out.new ≡ out.old ++ umbrella_lines targets.now umbrella.now) }
{
    append_targets_line(out, targets, umbrella.targets())?;
    append_scalar_line(out, list_start(NameList::Umbrellas), umbrella.name())?;
    Ok(())
}

// Appends the groups of umbrellas.
fn append_umbrellas(
    out: &mut Text,
    targets: &[TbdTarget],
    umbrellas: &[Listed],
) -> Result<(), Memory>
    ensures { OnOk result (out.new ≡ out.old ++ flat_map (umbrella_lines targets.now) umbrellas.now) }
{
    for umbrella in umbrellas {
        append_umbrella(out, targets, umbrella)?;
    }
    Ok(())
}

/// Appends what names of equal targets are: a group, or each of them a group by itself.
pub(crate) fn append_group(
    out: &mut Text,
    alone: bool,
    targets: &[TbdTarget],
    group: &[Listed],
) -> Result<(), Memory>
    ensures { OnOk result (out.new ≡ out.old ++ group_text alone targets.now group.now) }
{
    if alone {
        append_umbrellas(out, targets, group)
    } else {
        append_group_lines(out, targets, group)
    }
}
