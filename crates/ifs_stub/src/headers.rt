//! The file header and the program headers of a stub file.

ghost use Rattle.std.specs.Prelude.{◌≡◌, ◌++◌, OnOk};
ghost use Rattle.elf_file.specs.Written.{FitsHeader, FitsSegment};
ghost use Rattle.ifs_stub.specs.StubFile.{file_header, load_segment, dynamic_segment, header_part};

use crate::layout::Plan;
use elf_file::{Header, Segment, header_size, put_header, put_segment};
use ifs_bytes::Memory;

// The file header: a shared library with two program headers and six section headers, of which the last has
// the names.
#[tactic(auto, using(crate::proofs::Fits::fits))]
fn file_header(plan: &Plan) -> Header
    ensures exact { result ≡ file_header plan.now }
    ensures fits { FitsHeader result }
{
    Header {
        order: plan.form.order,
        width: plan.form.width,
        kind: 3,
        machine: plan.form.machine,
        entry_point: 0,
        phoff: header_size(plan.form.width) as u64,
        phnum: 2,
        shoff: u64::from(plan.layout.sections),
        shnum: 6,
        shstrndx: 5,
    }
}

// PT_LOAD.
#[tactic(auto, using(crate::proofs::Fits::fits))]
fn load_segment(plan: &Plan) -> Segment
    ensures exact { result ≡ load_segment plan.now }
    ensures fits { FitsSegment result plan.now.form.width }
{
    let end = u64::from(plan.layout.names);
    Segment {
        kind: 1,
        flags: 4,
        offset: 0,
        vaddr: 0,
        paddr: 0,
        filesz: end,
        memsz: end,
        align: 4096,
    }
}

// PT_DYNAMIC.
#[tactic(auto, using(crate::proofs::Fits::fits))]
fn dynamic_segment(plan: &Plan) -> Segment
    ensures exact { result ≡ dynamic_segment plan.now }
    ensures fits { FitsSegment result plan.now.form.width }
{
    let start = u64::from(plan.layout.dynamic);
    let size = u64::from(plan.layout.dynamic_size);
    Segment {
        kind: 2,
        flags: 4,
        offset: start,
        vaddr: start,
        paddr: start,
        filesz: size,
        memsz: size,
        align: plan.form.width.bytes() as u64,
    }
}

/// Appends the file header and the program headers.
#[tactic(auto, unfolding(crate::specs::StubFile::header_part))]
pub fn put_headers(out: &mut Vec<u8>, plan: &Plan) -> Result<(), Memory>
    ensures { OnOk result (out.new.items ≡ out.old.items ++ header_part plan.now) }
{
    put_header(out, &file_header(plan))?;
    put_segment(out, &load_segment(plan), plan.form.order, plan.form.width)?;
    put_segment(
        out,
        &dynamic_segment(plan),
        plan.form.order,
        plan.form.width,
    )
}
