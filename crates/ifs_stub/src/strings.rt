//! .dynstr, .shstrtab and the zeros between parts of a stub file.

ghost use Rattle.std.specs.Prelude.{◌≡◌, ◌++◌, OnOk};
ghost use Rattle.std.specs.List.{flat_map};
ghost use Rattle.std.specs.Option.{option_copied};
ghost use Rattle.ifs_stub.specs.StubFile.{terminated, soname_string, string_part, section_names, gap_part};

use crate::layout::gap;
use ifs_bytes::{Memory, Text, Width};
use ifs_interface::{Interface, Symbol};

// Appends a name and a NUL.
fn put_name(out: &mut Vec<u8>, name: &[u8]) -> Result<(), Memory>
    ensures { OnOk result (out.new.items ≡ out.old.items ++ terminated name.now) }
{
    out.extend_from_slice(name)?;
    out.push(0)?;
    Ok(())
}

fn put_symbol_names(out: &mut Vec<u8>, symbols: &[Symbol]) -> Result<(), Memory>
    ensures { OnOk result
        (out.new.items ≡ out.old.items ++ flat_map (λ symbol. terminated symbol.name) symbols.now) }
{
    for symbol in symbols {
        put_name(out, symbol.name.as_bytes())?;
    }
    Ok(())
}

fn put_needed_names(out: &mut Vec<u8>, names: &[Text]) -> Result<(), Memory>
    ensures { OnOk result (out.new.items ≡ out.old.items ++ flat_map terminated names.now) }
{
    for name in names {
        put_name(out, name.as_bytes())?;
    }
    Ok(())
}

fn put_soname(out: &mut Vec<u8>, soname: Option<&Text>) -> Result<(), Memory>
    ensures { OnOk result (out.new.items ≡ out.old.items ++ soname_string (option_copied soname.entry)) }
{
    match soname {
        Some(name) => put_name(out, name.as_bytes()),
        None => Ok(()),
    }
}

/// Appends .dynstr: a NUL, and the names of the symbols, the needed libraries and the soname.
#[tactic(auto, unfolding(crate::specs::StubFile::string_part))]
pub fn put_strings(out: &mut Vec<u8>, interface: &Interface) -> Result<(), Memory>
    ensures { OnOk result (out.new.items ≡ out.old.items ++ string_part interface.now) }
{
    out.push(0)?;
    put_symbol_names(out, interface.symbols())?;
    put_needed_names(out, interface.needed_list())?;
    put_soname(out, interface.soname())
}

/// Appends .shstrtab.
pub fn put_section_names(out: &mut Vec<u8>) -> Result<(), Memory>
    ensures { OnOk result (out.new.items ≡ out.old.items ++ section_names) }
{
    out.extend_from_slice(b"\0.dynsym\0.dynstr\0.hash\0.dynamic\0.shstrtab\0")?;
    Ok(())
}

/// Appends the zeros from an offset on, to the next multiple of a word.
#[tactic(auto, unfolding(crate::specs::StubFile::gap_part))]
pub fn put_gap(out: &mut Vec<u8>, width: Width, at: u32) -> Result<(), Memory>
    ensures { OnOk result (out.new.items ≡ out.old.items ++ gap_part width at) }
{
    for _turn in 0..gap(width, at) {
        out.push(0)?;
    }
    Ok(())
}
