//! A library as a text of version 4.

ghost use Rattle.std.specs.Prelude.{◌≡◌, ◌++◌, IfOk, OnOk};
ghost use Rattle.std.specs.List.{flat_map};
ghost use Rattle.ifs_bytes.specs.Outcome.{UnlessMemory};
ghost use Rattle.tbd_core.specs.declared.cause.PrintCause.TheVariants as PrintCause;
ghost use Rattle.tbd_v4.specs.Printed.{flags_line, version_line, number_line, swift_line, first_lines, version_lines, groups_of_names, groups_of_section, umbrella_groups, client_groups, reexported_groups, name_groups, symbol_groups, start_lines, printed_library, printed_libraries, printed_tbd};

use crate::groups::append_key;
use crate::lines::{append_flag_line, append_scalar_line, append_targets};
use crate::listed::{NameList, listed_names, listed_symbols};
use crate::places::without_place;
use ifs_bytes::{Memory, Text};
use std::alloc::Global;
use tbd_core::{Dylib, DylibParts, Named, PrintCause, Section, Tbd, TbdTarget, Version};

// ---- single values

// Appends the line of flags, if there are some.
fn append_flags(out: &mut Text, flags: &[Named]) -> Result<(), Memory>
    ensures { OnOk result (out.new ≡ out.old ++ flags_line flags.now) }
{
    if flags.is_empty() {
        return Ok(());
    }
    append_flag_line(out, flags)
}

// Appends the line of a version, unless it is 1.0.0.
fn append_version(out: &mut Text, start: &[u8], version: Version) -> Result<(), Memory>
    ensures { OnOk result (out.new ≡ out.old ++ version_line start.now version) }
{
    if version.is_first() {
        return Ok(());
    }
    out.append(start)?;
    version.append_to(out)?;
    out.push(b'\n')
}

// Appends a line of fixed bytes and a number.
#[tactic(auto, unfolding(crate::specs::Printed::number_line))]
fn append_number_line(out: &mut Text, start: &[u8], number: u8) -> Result<(), Memory>
    ensures { OnOk result (out.new ≡ out.old ++ number_line start.now number) }
{
    out.append(start)?;
    out.append_number(u64::from(number))?;
    out.push(b'\n')
}

// Appends the line of the version of Swift's binary interface, where it is said.
fn append_swift(out: &mut Text, abi: Option<u8>) -> Result<(), Memory>
    ensures { OnOk result (out.new ≡ out.old ++ swift_line abi) }
{
    match abi {
        Some(abi) => append_number_line(out, b"swift-abi-version: ", abi),
        None => Ok(()),
    }
}

// Appends the lines of targets, flags and the install name.
#[tactic(auto, unfolding(crate::specs::Printed::first_lines))]
fn append_first(out: &mut Text, parts: &DylibParts) -> Result<(), Memory>
    ensures { OnOk result (out.new ≡ out.old ++ first_lines parts.now) }
{
    append_targets(out, parts.targets.as_slice())?;
    append_flags(out, parts.flags.as_slice())?;
    append_scalar_line(out, b"install-name:    ", parts.install_name.as_bytes())
}

// Appends the lines of versions.
#[tactic(auto, unfolding(crate::specs::Printed::version_lines))]
fn append_versions(out: &mut Text, parts: &DylibParts) -> Result<(), Memory>
    ensures { OnOk result (out.new ≡ out.old ++ version_lines parts.now) }
{
    append_version(out, b"current-version: ", parts.current)?;
    append_version(out, b"compatibility-version: ", parts.compatible)?;
    append_swift(out, parts.swift_abi)
}

// ---- groups

// Appends a key and the groups of names, if there are some; alone: each name is a group by itself.
fn append_named(
    alloc: Global,
    out: &mut Text,
    key: &[u8],
    alone: bool,
    list: NameList,
    targets: &[TbdTarget],
    names: &[Named],
) -> Result<(), Memory>
    ensures { OnOk result (out.new ≡ out.old ++ groups_of_names key.now alone list targets.now names.now) }
{
    append_key(out, key, alone, targets, listed_names(alloc, list, names)?)
}

// Appends the umbrellas.
fn append_umbrellas(alloc: Global, out: &mut Text, parts: &DylibParts) -> Result<(), Memory>
    ensures { OnOk result (out.new ≡ out.old ++ umbrella_groups parts.now) }
{
    let targets = parts.targets.as_slice();
    let names = parts.umbrellas.as_slice();
    append_named(
        alloc,
        out,
        b"parent-umbrella:",
        true,
        NameList::Umbrellas,
        targets,
        names,
    )
}

// Appends the clients.
fn append_clients(alloc: Global, out: &mut Text, parts: &DylibParts) -> Result<(), Memory>
    ensures { OnOk result (out.new ≡ out.old ++ client_groups parts.now) }
{
    let targets = parts.targets.as_slice();
    let names = parts.clients.as_slice();
    append_named(
        alloc,
        out,
        b"allowable-clients:",
        false,
        NameList::Clients,
        targets,
        names,
    )
}

// Appends the libraries whose symbols are offered too.
fn append_reexported(alloc: Global, out: &mut Text, parts: &DylibParts) -> Result<(), Memory>
    ensures { OnOk result (out.new ≡ out.old ++ reexported_groups parts.now) }
{
    let targets = parts.targets.as_slice();
    let names = parts.reexported.as_slice();
    append_named(
        alloc,
        out,
        b"reexported-libraries:",
        false,
        NameList::Libraries,
        targets,
        names,
    )
}

// Appends the groups of names.
#[tactic(auto, unfolding(crate::specs::Printed::name_groups))]
fn append_name_groups(alloc: Global, out: &mut Text, parts: &DylibParts) -> Result<(), Memory>
    ensures { OnOk result (out.new ≡ out.old ++ name_groups parts.now) }
{
    append_umbrellas(alloc, out, parts)?;
    append_clients(alloc, out, parts)?;
    append_reexported(alloc, out, parts)?;
    Ok(())
}

// Appends a key and the groups of the symbols of a section, if there are some.
fn append_section(
    alloc: Global,
    out: &mut Text,
    key: &[u8],
    section: Section,
    parts: &DylibParts,
) -> Result<(), Memory>
    ensures { OnOk result (out.new ≡ out.old ++ groups_of_section key.now section parts.now) }
{
    let entries = listed_symbols(alloc, section, parts.symbols.as_slice())?;
    append_key(out, key, false, parts.targets.as_slice(), entries)
}

// Appends the groups of symbols.
#[tactic(auto, unfolding(crate::specs::Printed::symbol_groups))]
fn append_symbol_groups(alloc: Global, out: &mut Text, parts: &DylibParts) -> Result<(), Memory>
    ensures { OnOk result (out.new ≡ out.old ++ symbol_groups parts.now) }
{
    append_section(alloc, out, b"exports:", Section::Exported, parts)?;
    append_section(alloc, out, b"reexports:", Section::Reexported, parts)?;
    append_section(alloc, out, b"undefineds:", Section::Undefined, parts)?;
    Ok(())
}

// ---- the whole

// Appends the first lines of a document.
#[tactic(auto, unfolding(crate::specs::Printed::start_lines))]
fn append_start(out: &mut Text) -> Result<(), Memory>
    ensures { OnOk result (out.new ≡ out.old ++ start_lines) }
{
    out.append(b"--- !tapi-tbd\ntbd-version:     4\n")
}

// Appends the document of a library.
#[tactic(auto, unfolding(crate::specs::Printed::printed_library))]
fn append_library(alloc: Global, out: &mut Text, dylib: &Dylib) -> Result<(), Memory>
    ensures { OnOk result (out.new ≡ out.old ++ printed_library dylib.now) }
{
    let parts = dylib.parts();
    append_start(out)?;
    append_first(out, parts)?;
    append_versions(out, parts)?;
    append_name_groups(alloc, out, parts)?;
    append_symbol_groups(alloc, out, parts)
}

// Appends the documents of libraries.
fn append_each(alloc: Global, out: &mut Text, dylibs: &[Dylib]) -> Result<(), Memory>
    ensures { OnOk result (out.new ≡ out.old ++ flat_map printed_library dylibs.now) }
{
    for dylib in dylibs {
        append_library(alloc, out, dylib)?;
    }
    Ok(())
}

// The text of all libraries.
#[tactic(auto, unfolding(crate::specs::Printed::printed_libraries))]
fn printed_libraries(alloc: Global, tbd: &Tbd) -> Result<Text, Memory>
    ensures { IfOk result (λ text. text ≡ printed_libraries tbd.now) }
{
    let mut text = Text::new(alloc);
    append_library(alloc, &mut text, &tbd.main)?;
    append_each(alloc, &mut text, tbd.inlined.as_slice())?;
    text.append(b"...\n")?;
    Ok(text)
}

// What has no place in a text.
fn no_place(alloc: Global, field: &[u8]) -> Result<PrintCause, Memory>
    ensures { IfOk result (λ cause. cause ≡ PrintCause.NoPlace field.now) }
{
    Ok(PrintCause::NoPlace(Text::from_slice(alloc, field)?))
}

/// The text of a library and of those that are part of it, a document each, or NoPlace of the first of these
/// that one of them has: `min_deployment`, where a target says the least version that it runs on; `flags`, where
/// a flag isn't for all targets; `rpaths`, where there is a run path; `segment`, where a symbol is in a part that
/// is known. Lists that are empty and versions 1.0.0 aren't printed. Names of one list with equal targets are one
/// group, an umbrella is a group by itself, and groups stand in order of the positions of their targets. In a
/// time of n log n for n names.
pub fn print(alloc: Global, tbd: &Tbd) -> Result<Text, PrintCause>
    ensures { UnlessMemory PrintCause.Memory result (printed_tbd tbd.now) }
{
    match without_place(tbd) {
        Some(field) => Err(no_place(alloc, field)?),
        None => Ok(printed_libraries(alloc, tbd)?),
    }
}
