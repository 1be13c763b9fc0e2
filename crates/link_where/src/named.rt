//! Output sections by their names.

ghost use Rattle.std.specs.Prelude.{◌≡◌, ◌<◌, ◌^◌, position, slice_get};
ghost use Rattle.std.specs.Option.{option_copied};
ghost use Rattle.ifs_interface.specs.Triple.{same_name};
ghost use Rattle.link_core.specs.Places as places;
ghost use Rattle.link_core.specs.Planned.{Planned};
ghost use Rattle.link_tables.specs.Filled.{outputs_filled};
ghost use Rattle.link_where.specs.Named as meant;
ghost use Rattle.link_where.specs.Tables.{IsOf};

use crate::tables::{There, count_if};
use link_core::{Layout, OutClass, OutKind, OutSection, Plan};
use link_places::same_class;
use link_tables::FilledOutput;

// How many output sections are of a class.
fn count_of(class: OutClass, outputs: &[FilledOutput]) -> usize
    ensures { result ≡ meant.count_of class outputs.now }
{
    outputs
        .iter()
        .filter(|output| same_class(output.class, class))
        .count()
}

// How many tables stand before the output sections of a class.
fn tables_ahead(class: OutClass, there: There) -> usize
    ensures { result ≡ meant.tables_ahead class there }
{
    let read = count_if(there.program) + 3 + count_if(there.moves) + count_if(there.calls);
    let code = read + count_if(there.calls);
    match class {
        OutClass::R => read,
        OutClass::X | OutClass::T | OutClass::Z => code,
        OutClass::W | OutClass::B => code + 2 + count_if(there.words),
    }
}

// How many output sections of other classes stand before those of a class.
fn outputs_ahead(class: OutClass, outputs: &[FilledOutput]) -> u128
    ensures count { result ≡ meant.outputs_ahead class outputs.now }
    ensures within { result < 2 ^ 67 }
{
    let code = count_of(OutClass::R, outputs) as u128;
    let thread = code + count_of(OutClass::X, outputs) as u128;
    let zeros = thread + count_of(OutClass::T, outputs) as u128;
    let written = zeros + count_of(OutClass::Z, outputs) as u128;
    match class {
        OutClass::R => 0,
        OutClass::X => code,
        OutClass::T => thread,
        OutClass::Z => zeros,
        OutClass::W => written,
        OutClass::B => written + count_of(OutClass::W, outputs) as u128,
    }
}

// The position of an output section of a class, with some of the output sections before it.
#[tactic(auto, unfolding(crate::specs::Named::place_of))]
fn place_of(
    there: There,
    class: OutClass,
    outputs: &[FilledOutput],
    before: &[FilledOutput],
) -> u128
    ensures { result ≡ meant.place_of there class outputs.now before.now }
{
    let ahead = tables_ahead(class, there) as u128 + outputs_ahead(class, outputs);
    ahead + count_of(class, before) as u128
}

// The place of the first output section of a name.
fn first_named(outputs: &[FilledOutput], name: &[u8]) -> Option<usize>
    ensures { result ≡ position (λ o. same_name o.name name.now) outputs.now }
{
    outputs
        .iter()
        .position(|output| output.name.as_bytes() == name)
}

// The section at a position.
fn section_at(sections: &[OutSection], at: u128) -> Option<&OutSection>
    ensures { option_copied result ≡ slice_get sections.now at }
{
    if at < sections.len() as u128 {
        sections.get(at as usize)
    } else {
        None
    }
}

// The section of the first output section of a name, by what is there of tables.
#[tactic(auto, unfolding(crate::specs::Named::section_by))]
fn section_by<'a>(
    there: There,
    outputs: &[FilledOutput],
    sections: &'a [OutSection],
    name: &[u8],
) -> Option<&'a OutSection>
    ensures { option_copied result ≡ meant.section_by there outputs.now sections.now name.now }
{
    let at = first_named(outputs, name)?;
    let output = outputs.get(at)?;
    let (before, _) = outputs.split_at(at);
    section_at(sections, place_of(there, output.class, outputs, before))
}

/// The section that the first output section of a name is in a layout of this kind of file, by this plan.
/// `outputs` are the output sections in order of first appearance, `moves_there` says whether there are
/// dynamic relocations besides those of .plt, and `words_there` whether .got has words. None where no output
/// section has the name.
pub fn named_section<'a>(
    kind: OutKind,
    p: &Plan,
    moves_there: bool,
    words_there: bool,
    outputs: &[FilledOutput],
    l: &'a Layout,
    name: &[u8],
) -> Option<&'a OutSection>
    ensures { (j : Planned) → IsOf j kind p.now moves_there words_there l.now → outputs.now ≡ outputs_filled j
        → option_copied result ≡ places.named_section j l.now name.now }
{
    let there = There {
        program: !kind.is_shared(),
        moves: moves_there,
        calls: p.plt.as_slice().len() > 0,
        words: words_there,
    };
    section_by(there, outputs, l.sections.as_slice(), name)
}
