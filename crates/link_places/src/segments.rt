//! The sections of the image, segment by segment.

ghost use Rattle.std.specs.Prelude.{◌≡◌, ◌++◌, ◌∷◌, [], if◌then◌else◌, IfOk, OnOk};
ghost use Rattle.link_core.specs.Aligned as aligned;
ghost use Rattle.link_core.specs.Contents as contents;
ghost use Rattle.link_core.specs.OutputNames as outputs;
ghost use Rattle.link_tables.specs.Capped.{capped};
ghost use Rattle.link_places.specs.Segments as meant;

use ifs_bytes::{List, Memory};
use link_core::{OutClass, SHF_EXECINSTR, SHF_TLS, SHF_WRITE};
use link_tables::{
    Counts, FilledOutput, Item, Section, aligned, code_tables, read_tables, written_tables,
};
use std::alloc::Global;

/// The sections of the image, in order.
#[derive(Debug, PartialEq, Eq, Drop)]
pub struct Segments {
    /// What is only read.
    pub read: List<Section>,
    /// What is executed.
    pub code: List<Section>,
    /// What each thread has for itself, with bytes in the file.
    pub thread: List<Section>,
    /// The zeros that each thread has for itself.
    pub zeros: List<Section>,
    /// What is written.
    pub written: List<Section>,
    /// How many sections of `read` are tables, which come first.
    pub read_tables: usize,
    /// How many of `code`.
    pub code_tables: usize,
    /// How many of `written`.
    pub written_tables: usize,
    /// The position in `written` of the first section of zeros.
    pub first_zeros: usize,
}

/// What is only read.
const READ: u64 = 2;
/// What is written.
const DATA: u64 = READ + SHF_WRITE;

/// Whether two classes are the same.
pub fn same_class(one: OutClass, other: OutClass) -> bool
    ensures { result ≡ outputs.same_class one other }
{
    one == other
}

// sh_flags of what is written.
fn written_flags(executable: bool) -> u64
    ensures { result ≡ contents.written_flags executable }
{
    if executable {
        DATA + SHF_EXECINSTR
    } else {
        DATA
    }
}

// sh_flags of an output section.
fn output_flags(class: OutClass, executable: bool) -> u64
    ensures { result ≡ contents.output_flags class executable }
{
    match class {
        OutClass::R => READ,
        OutClass::X => READ + SHF_EXECINSTR,
        OutClass::W => written_flags(executable),
        OutClass::B => written_flags(executable),
        OutClass::T => DATA + SHF_TLS,
        OutClass::Z => DATA + SHF_TLS,
    }
}

// The greatest alignment, 1 at least.
fn greatest_align(items: &[Item]) -> u64
    ensures { result ≡ aligned.greatest_align (λ item. item.align) items.now }
{
    let mut greatest = 1u64;
    for item in items {
        greatest = greatest.max(item.align);
    }
    greatest
}

// Where the items end, the first of which starts at 0.
#[tactic(auto, unfolding(link_core::specs::Aligned::end_from))]
fn items_end(items: &[Item]) -> u128
    ensures { result ≡ capped (aligned.end_from (λ item. item.align) (λ item. item.size) 0 items.now) }
{
    let mut end = 0u128;
    for item in items {
        end = aligned(item.align, end).saturating_add(u128::from(item.size));
    }
    end
}

// The section of an output section.
#[tactic(auto, unfolding(crate::specs::Segments::section_of))]
fn section_of(alloc: Global, output: &FilledOutput) -> Result<Section, Memory>
    ensures { IfOk result (λ section. section ≡ meant.section_of output.now) }
{
    let items = output.items.as_slice();
    Ok(Section {
        name: output.name.copy(alloc)?,
        kind: output.kind,
        flags: output_flags(output.class, output.executable),
        align: greatest_align(items),
        size: items_end(items),
    })
}

// Appends the section of an output section, if it has the class.
fn push_section(
    alloc: Global,
    sections: &mut Vec<Section>,
    output: &FilledOutput,
    class: OutClass,
) -> Result<(), Memory>
    ensures { OnOk result (sections.new.items ≡ sections.old.items
        ++ (if outputs.same_class output.now.class class then meant.section_of output.now ∷ [] else [])) }
{
    if same_class(output.class, class) {
        sections.push(section_of(alloc, output)?)?;
    }
    Ok(())
}

// Appends the sections of all output sections of a class, in order.
#[tactic(auto, using(crate::proofs::Turns::section_turn))]
fn push_sections(
    alloc: Global,
    sections: &mut Vec<Section>,
    outputs: &[FilledOutput],
    class: OutClass,
) -> Result<(), Memory>
    ensures { OnOk result (sections.new.items ≡ sections.old.items ++ meant.sections_in class outputs.now) }
{
    for output in outputs {
        push_section(alloc, sections, output, class)?;
    }
    Ok(())
}

/// The tables, and the sections of the output sections.
#[tactic(auto, unfolding(crate::specs::Segments::segments_of))]
pub fn make_segments(
    alloc: Global,
    n: &Counts,
    outputs: &[FilledOutput],
) -> Result<Segments, Memory>
    ensures { IfOk result (λ segments. segments ≡ meant.segments_of n.now outputs.now) }
{
    let mut read = read_tables(alloc, n)?;
    let read_count = read.len();
    push_sections(alloc, &mut read, outputs, OutClass::R)?;
    let mut code = code_tables(alloc, n)?;
    let code_count = code.len();
    push_sections(alloc, &mut code, outputs, OutClass::X)?;
    let mut thread = Vec::new(alloc);
    push_sections(alloc, &mut thread, outputs, OutClass::T)?;
    let mut zeros = Vec::new(alloc);
    push_sections(alloc, &mut zeros, outputs, OutClass::Z)?;
    let mut written = written_tables(alloc, n)?;
    let written_count = written.len();
    push_sections(alloc, &mut written, outputs, OutClass::W)?;
    let first_zeros = written.len();
    push_sections(alloc, &mut written, outputs, OutClass::B)?;
    Ok(Segments {
        read: List::from_vec(read),
        code: List::from_vec(code),
        thread: List::from_vec(thread),
        zeros: List::from_vec(zeros),
        written: List::from_vec(written),
        read_tables: read_count,
        code_tables: code_count,
        written_tables: written_count,
        first_zeros,
    })
}
