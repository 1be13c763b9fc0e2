//! The stub file of an interface.

ghost use Rattle.std.specs.Prelude.{◌≡◌, ◌+◌, ◌<◌, ◌≤◌, ◌++◌, length, Ok, IfOk, OnOk};
ghost use Rattle.ifs_stub.specs.Forget.{forget};
ghost use Rattle.ifs_interface.specs.Facts.{facts_of_interface};
ghost use Rattle.ifs_stub.specs.Laws.{IsStubOf, interface_in, facts_in};
ghost use Rattle.ifs_bytes.specs.Outcome.{UnlessMemory};
ghost use Rattle.ifs_stub.specs.StubFile.{needed_name_bytes, file_by, stub_file};
ghost use Rattle.ifs_stub.specs.Stub.{HasNoWideSize, IsWithin, stub_of, bytes_of};

use crate::cause::StubCause;
use crate::dynamic::put_dynamic;
use crate::hash::put_hash;
use crate::headers::put_headers;
use crate::layout::{Form, Plan, plan_of};
use crate::limits::{check_limits, check_sizes, form_of};
use crate::sections::put_sections;
use crate::strings::{put_gap, put_section_names, put_strings};
use crate::symbols::put_symbols;
use elf_file::section_size;
use ifs_bytes::Memory;
use ifs_interface::{Interface, parts};
use std::alloc::Global;

// Appends the parts of the file, in order.
#[tactic(auto, unfolding(crate::specs::StubFile::file_by))]
fn put_file(out: &mut Vec<u8>, interface: &Interface, plan: &Plan) -> Result<(), Memory>
    requires sizes { HasNoWideSize plan.now.form.width interface.now.symbols }
    requires within { IsWithin interface.now }
    requires needed { plan.now.sizes.needed_names + (length interface.now.needed + needed_name_bytes interface.now.needed) ≤ 40000000 }
    ensures { OnOk result (out.new.items ≡ out.old.items ++ file_by interface.now plan.now) }
{
    let width = plan.form.width;
    put_headers(out, plan)?;
    put_symbols(out, interface.symbols(), plan.form)?;
    put_strings(out, interface)?;
    put_gap(out, width, plan.layout.strings_end)?;
    put_hash(out, plan.sizes.rows, plan.form.order)?;
    put_gap(out, width, plan.layout.hash_end)?;
    put_dynamic(out, interface, plan)?;
    put_section_names(out)?;
    put_gap(out, width, plan.layout.names_end)?;
    put_sections(out, plan)
}

// The file of an interface within the limits, in a vector with the room for it.
#[tactic(auto, using(crate::proofs::FileSize::length_is_small))]
fn file_of(alloc: Global, interface: &Interface, form: Form) -> Result<Vec<u8>, Memory>
    requires sizes { HasNoWideSize form.width interface.now.symbols }
    requires within { IsWithin interface.now }
    ensures exact { IfOk result (λ out. out.items ≡ stub_file form.order form.width form.machine interface.now) }
    ensures small { IfOk result (λ out. length out.items < 75497472) }
{
    let plan = plan_of(interface, form);
    let size = plan.layout.sections as usize + 6 * section_size(form.width);
    let mut out = Vec::with_capacity(alloc, size)?;
    put_file(&mut out, interface, &plan)?;
    Ok(out)
}

/// The bytes of the stub library of an interface: a shared library that offers and wants what the interface
/// says, for the target's byte order and width. It is refused, in this order, with `TargetIncomplete` of the
/// first of machine, width and order that the target doesn't give; `SizeTooWide` of the first symbol whose
/// size is 2^32 or more at a width of 32 bits; `TooManySymbols` above 1,000,000 symbols and needed libraries;
/// and `NamesTooLarge` where the names have more than 33,554,432 bytes together. The file has less than
/// 75,497,472 bytes. It is read as a library without versions, which has this interface, but for what it has no place for: an unknown type is no type,
/// an absent size is 0, and warnings and the name of the triple are gone. It has the facts of the interface.
#[tactic(auto, unfolding(crate::specs::Stub::stub_of))]
pub fn emit(alloc: Global, interface: &Interface) -> Result<Vec<u8>, StubCause>
    ensures exact { UnlessMemory StubCause.Memory (bytes_of result) (stub_of interface.now) }
    ensures small { IfOk result (λ out. length out.items < 75497472) }
    ensures library { IfOk result (λ out. IsStubOf interface.now out.items) }
    ensures read_back { IfOk result (λ out. interface_in out.items ≡ Ok (forget interface.now)) }
    ensures facts { IfOk result (λ out. facts_in out.items ≡ Ok (facts_of_interface interface.now)) }
{
    let form = form_of(parts(interface.target()))?;
    check_sizes(alloc, interface.symbols(), form.width)?;
    check_limits(interface)?;
    Ok(file_of(alloc, interface, form)?)
}
