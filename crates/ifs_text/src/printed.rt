//! An interface as a text.

ghost use Rattle.std.specs.Prelude.{◌≡◌, ◌<◌, ◌^◌, ◌++◌, [], ◌∷◌, true, unwrap_or, Ok, IfOk, OnOk};
ghost use Rattle.std.specs.List.{flat_map, list_all};
ghost use Rattle.std.specs.Option.{option_copied};
ghost use Rattle.ifs_text.specs.DocumentBack.{has_small_size};
ghost use Rattle.ifs_text.specs.ReadBack.{CanBePrinted};
ghost use Rattle.ifs_text.specs.Text.{interface_of_text};
ghost use Rattle.ifs_text.specs.Printed.{printed_interface, scalar_line, soname_line, target_line, parts_line, part_entries, has_part, arch_entry, order_entry, width_entry, needed_lines, needed_line, symbol_lines, symbol_line, first_entries, other_entries, kind_name, size_entry, undefined_entry, weak_entry, warning_entry};

use ifs_bytes::{Memory, Order, Text, Width};
use ifs_interface::{Interface, Kind, Symbol, Target, put_arch};
use std::alloc::Global;
use yaml_profile::append_scalar;

/// The text of an interface, which `read` reads as just this interface. The only error is want of memory.
pub fn print(alloc: Global, interface: &Interface) -> Result<Text, Memory>
    ensures text { IfOk result (λ text. text ≡ printed_interface interface.now) }
    ensures read_back { IfOk result (λ text. interface_of_text text ≡ Ok interface.now) }
{
    printed(alloc, interface)
}

// The same, and that the interface has numbers of its types.
#[tactic(auto, unfolding(crate::specs::Printed::printed_interface))]
fn printed(alloc: Global, interface: &Interface) -> Result<Text, Memory>
    ensures text { IfOk result (λ text. text ≡ printed_interface interface.now) }
    ensures numbers { OnOk result (CanBePrinted interface.now) }
{
    let mut text = Text::new(alloc);
    text.append(b"--- !ifs-v1\nIfsVersion:      3.0\n")?;
    machine_is_small(interface.target().machine);
    append_soname(&mut text, interface.soname())?;
    append_target(&mut text, interface.target())?;
    append_needed(&mut text, interface.needed_list())?;
    append_symbols(&mut text, interface.symbols())?;
    text.append(b"...\n")?;
    Ok(text)
}

// A machine is a number of 16 bits, by its type.
fn machine_is_small(machine: Option<u16>)
    ensures { unwrap_or machine 0 < 2 ^ 16 }
{}

// Appends a line of fixed bytes and a scalar.
#[tactic(auto, unfolding(crate::specs::Printed::scalar_line))]
fn append_scalar_line(out: &mut Text, start: &[u8], scalar: &Text) -> Result<(), Memory>
    ensures { OnOk result (out.new ≡ out.old ++ scalar_line start.now scalar.now) }
{
    out.append(start)?;
    append_scalar(out, scalar.as_bytes())?;
    out.push(b'\n')?;
    Ok(())
}

// Appends the line of a soname, where there is one.
fn append_soname(out: &mut Text, soname: Option<&Text>) -> Result<(), Memory>
    ensures { OnOk result (out.new ≡ out.old ++ soname_line (option_copied soname.entry)) }
{
    match soname {
        Some(name) => append_scalar_line(out, b"SoName:          ", name),
        None => Ok(()),
    }
}

// Appends the line of a target, where something is known of it.
fn append_target(out: &mut Text, target: &Target) -> Result<(), Memory>
    ensures { OnOk result (out.new ≡ out.old ++ target_line target.now) }
{
    match &target.triple {
        Some(triple) => append_scalar_line(out, b"Target:          ", triple),
        None if has_parts(target) => append_parts(out, target),
        None => Ok(()),
    }
}

// Whether a target's machine, order or width is known.
fn has_parts(target: &Target) -> bool
    ensures { result ≡ has_part target.now }
{
    target.machine.is_some() || target.order.is_some() || target.width.is_some()
}

// Appends the line of a target's machine, order and width, as far as they are known.
#[tactic(auto, unfolding(crate::specs::Printed::parts_line))]
fn append_parts(out: &mut Text, target: &Target) -> Result<(), Memory>
    ensures { OnOk result (out.new ≡ out.old ++ parts_line target.now) }
{
    out.append(b"Target:          { ObjectFormat: ELF")?;
    append_part_entries(out, target)?;
    out.append(b" }\n")?;
    Ok(())
}

#[tactic(auto, unfolding(crate::specs::Printed::part_entries))]
fn append_part_entries(out: &mut Text, target: &Target) -> Result<(), Memory>
    ensures { OnOk result (out.new ≡ out.old ++ part_entries target.now) }
{
    append_arch(out, target.machine)?;
    append_order(out, target.order)?;
    append_width(out, target.width)?;
    Ok(())
}

fn append_arch(out: &mut Text, machine: Option<u16>) -> Result<(), Memory>
    ensures { OnOk result (out.new ≡ out.old ++ arch_entry machine) }
{
    match machine {
        Some(machine) => {
            out.append(b", Arch: ")?;
            put_arch(out, machine)
        }
        None => Ok(()),
    }
}

fn append_order(out: &mut Text, order: Option<Order>) -> Result<(), Memory>
    ensures { OnOk result (out.new ≡ out.old ++ order_entry order) }
{
    match order {
        Some(Order::Little) => out.append(b", Endianness: little"),
        Some(Order::Big) => out.append(b", Endianness: big"),
        None => Ok(()),
    }
}

fn append_width(out: &mut Text, width: Option<Width>) -> Result<(), Memory>
    ensures { OnOk result (out.new ≡ out.old ++ width_entry width) }
{
    match width {
        Some(Width::W32) => out.append(b", BitWidth: 32"),
        Some(Width::W64) => out.append(b", BitWidth: 64"),
        None => Ok(()),
    }
}

// Appends the lines of the needed libraries, where there are any.
fn append_needed(out: &mut Text, names: &[Text]) -> Result<(), Memory>
    ensures { OnOk result (out.new ≡ out.old ++ needed_lines names.now) }
{
    if names.is_empty() {
        return Ok(());
    }
    out.append(b"NeededLibs:\n")?;
    append_needed_names(out, names)?;
    Ok(())
}

fn append_needed_names(out: &mut Text, names: &[Text]) -> Result<(), Memory>
    ensures { OnOk result (out.new ≡ out.old ++ flat_map needed_line names.now) }
{
    for name in names {
        append_scalar_line(out, b"  - ", name)?;
    }
    Ok(())
}

// Appends the lines of the symbols.
fn append_symbols(out: &mut Text, symbols: &[Symbol]) -> Result<(), Memory>
    ensures text { OnOk result (out.new ≡ out.old ++ symbol_lines symbols.now) }
    ensures sizes { OnOk result (list_all has_small_size symbols.now ≡ true) }
{
    if symbols.is_empty() {
        return out.append(b"Symbols:         []\n");
    }
    out.append(b"Symbols:\n")?;
    append_each_symbol(out, symbols)?;
    Ok(())
}

fn append_each_symbol(out: &mut Text, symbols: &[Symbol]) -> Result<(), Memory>
    ensures text { OnOk result (out.new ≡ out.old ++ flat_map symbol_line symbols.now) }
    ensures sizes { OnOk result (list_all has_small_size symbols.now ≡ true) }
{
    for symbol in symbols {
        append_symbol(out, symbol)?;
    }
    Ok(())
}

#[tactic(auto, unfolding(crate::specs::Printed::symbol_line))]
fn append_symbol(out: &mut Text, symbol: &Symbol) -> Result<(), Memory>
    ensures text { OnOk result (out.new ≡ out.old ++ symbol_line symbol.now) }
    ensures size { OnOk result (has_small_size symbol.now ≡ true) }
{
    out.append(b"  - { ")?;
    append_first_entries(out, symbol)?;
    append_other_entries(out, symbol)?;
    out.append(b" }\n")?;
    Ok(())
}

// Appends what each symbol has.
#[tactic(auto, unfolding(crate::specs::Printed::first_entries))]
fn append_first_entries(out: &mut Text, symbol: &Symbol) -> Result<(), Memory>
    ensures { OnOk result (out.new ≡ out.old ++ first_entries symbol.now) }
{
    out.append(b"Name: ")?;
    append_scalar(out, symbol.name.as_bytes())?;
    out.append(b", Type: ")?;
    append_kind(out, symbol.kind)?;
    Ok(())
}

// Appends what some symbols have.
#[tactic(auto, unfolding(crate::specs::Printed::other_entries))]
fn append_other_entries(out: &mut Text, symbol: &Symbol) -> Result<(), Memory>
    ensures text { OnOk result (out.new ≡ out.old ++ other_entries symbol.now) }
    ensures size { OnOk result (has_small_size symbol.now ≡ true) }
{
    append_size(out, symbol.size)?;
    append_undefined(out, symbol.undefined)?;
    append_weak(out, symbol.weak)?;
    append_warning(out, symbol.warning.as_ref())?;
    Ok(())
}

fn append_kind(out: &mut Text, kind: Kind) -> Result<(), Memory>
    ensures { OnOk result (out.new ≡ out.old ++ kind_name kind) }
{
    let name: &[u8] = match kind {
        Kind::NoType => b"NoType",
        Kind::Func => b"Func",
        Kind::Object => b"Object",
        Kind::Tls => b"TLS",
        Kind::Unknown => b"Unknown",
    };
    out.append(name)
}

fn append_size(out: &mut Text, size: Option<u64>) -> Result<(), Memory>
    ensures text { OnOk result (out.new ≡ out.old ++ size_entry size) }
    ensures small { unwrap_or size 0 < 2 ^ 64 }
{
    match size {
        Some(size) => {
            out.append(b", Size: ")?;
            out.append_number(size)
        }
        None => Ok(()),
    }
}

fn append_undefined(out: &mut Text, undefined: bool) -> Result<(), Memory>
    ensures { OnOk result (out.new ≡ out.old ++ undefined_entry undefined) }
{
    if undefined {
        out.append(b", Undefined: true")?;
    }
    Ok(())
}

fn append_weak(out: &mut Text, weak: bool) -> Result<(), Memory>
    ensures { OnOk result (out.new ≡ out.old ++ weak_entry weak) }
{
    if weak {
        out.append(b", Weak: true")?;
    }
    Ok(())
}

fn append_warning(out: &mut Text, warning: Option<&Text>) -> Result<(), Memory>
    ensures { OnOk result (out.new ≡ out.old ++ warning_entry (option_copied warning.entry)) }
{
    match warning {
        Some(warning) => {
            out.append(b", Warning: ")?;
            append_scalar(out, warning.as_bytes())
        }
        None => Ok(()),
    }
}
