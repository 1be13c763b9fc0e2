//! .dynamic of a stub file.

ghost use Rattle.std.specs.Prelude.{◌≡◌, ◌++◌, ◌+◌, ◌<◌, ◌≤◌, ◌^◌, length, OnOk};
ghost use Rattle.std.specs.Option.{option_copied};
ghost use Rattle.elf_file.specs.Written.{dynamic_bytes};
ghost use Rattle.ifs_stub.specs.StubFile.{entry, entries_bytes, needed_entries, soname_entries, table_part, dynamic_part, needed_name_bytes};

use crate::layout::{Form, Plan};
use elf_file::{Dyn, put_dyn, symbol_size};
use ifs_bytes::{Memory, Text};
use ifs_interface::Interface;

// Appends an entry.
#[tactic(auto, using(crate::proofs::Fits::fits))]
fn put_entry(out: &mut Vec<u8>, tag: u32, value: u32, form: Form) -> Result<(), Memory>
    ensures { OnOk result
        (out.new.items ≡ out.old.items ++ dynamic_bytes (entry tag value) form.order form.width) }
{
    let d = Dyn {
        tag: u64::from(tag),
        value: u64::from(value),
    };
    put_dyn(out, &d, form.order, form.width)
}

// Appends DT_NEEDED for each name; they stand in .dynstr from a place on.
fn put_needed(out: &mut Vec<u8>, names: &[Text], start: u32, form: Form) -> Result<(), Memory>
    requires { start + (length names.now + needed_name_bytes names.now) ≤ 40000000 }
    ensures { OnOk result (out.new.items
        ≡ out.old.items ++ entries_bytes form.order form.width (needed_entries start names.now)) }
{
    let mut at = start;
    for name in names {
        put_entry(out, 1, at, form)?;
        at += name.as_bytes().len() as u32 + 1;
    }
    Ok(())
}

// Appends DT_SONAME, where there is a soname.
fn put_soname(out: &mut Vec<u8>, soname: Option<&Text>, at: u32, form: Form) -> Result<(), Memory>
    ensures { OnOk result (out.new.items ≡ out.old.items
        ++ entries_bytes form.order form.width (soname_entries at (option_copied soname.entry))) }
{
    match soname {
        Some(_name) => put_entry(out, 14, at, form),
        None => Ok(()),
    }
}

// Appends the entries that each stub has.
#[tactic(auto, unfolding(crate::specs::StubFile::table_part))]
fn put_tables(out: &mut Vec<u8>, plan: &Plan) -> Result<(), Memory>
    ensures { OnOk result (out.new.items ≡ out.old.items ++ table_part plan.now) }
{
    let form = plan.form;
    put_entry(out, 4, plan.layout.hash, form)?;
    put_entry(out, 5, plan.layout.strings, form)?;
    put_entry(out, 6, plan.layout.symbols, form)?;
    put_entry(out, 10, plan.sizes.strings, form)?;
    put_entry(out, 11, symbol_size(form.width) as u32, form)?;
    put_entry(out, 0, 0, form)
}

/// Appends .dynamic.
#[tactic(auto, unfolding(crate::specs::StubFile::dynamic_part))]
pub fn put_dynamic(out: &mut Vec<u8>, interface: &Interface, plan: &Plan) -> Result<(), Memory>
    requires { plan.now.sizes.needed_names + (length interface.now.needed + needed_name_bytes interface.now.needed) ≤ 40000000 }
    ensures { OnOk result (out.new.items ≡ out.old.items ++ dynamic_part interface.now plan.now) }
{
    put_needed(
        out,
        interface.needed_list(),
        plan.sizes.needed_names,
        plan.form,
    )?;
    put_soname(out, interface.soname(), plan.sizes.soname_name, plan.form)?;
    put_tables(out, plan)
}
