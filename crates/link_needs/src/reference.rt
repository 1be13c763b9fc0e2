//! Which references a machine takes.

ghost use Rattle.std.specs.Prelude.{◌≡◌, ◌+◌, ◌&&◌, not, nat_le, true, false, is_some};
ghost use Rattle.link_machine.specs.Rules.{class_of};
ghost use Rattle.link_core.specs.OutputNames as outputs;
ghost use Rattle.link_core.specs.Plan as meant;

use elf_object::{ObjSection, Object, Reference};
use link_core::{At, EM_AARCH64, Machine, RefClass, SHF_WRITE};
use std::marker::Model;

/// sh_type of zeros that have no bytes in the file (gABI, "Sections").
const SHT_NOBITS: u32 = 8;

/// A reference, with its object and the object's position.
#[derive(Drop)]
pub struct Use<'a> {
    /// The position of the object.
    pub object: u32,
    /// The object.
    pub own: &'a Object,
    /// The reference, which is one of the object's.
    pub reference: &'a Reference,
}

impl<'a> Model for Use<'a> {
    ghost use Rattle.link_core.specs.References.{Use as UseMeant};

    ghost Value = { UseMeant };

    ghost view = { λ u. record { object = u.object; record_of = u.own.now; reference = u.reference.now } };
}

impl<'a> Use<'a> {
    ghost use Rattle.std.specs.Option.{option_copied, option_map_or};
    ghost use Rattle.link_core.specs.References.{at_of};

    /// Its place.
    pub fn at(&self) -> At
        ensures { result ≡ at_of self.now }
    {
        At {
            object: self.object,
            section: self.reference.section,
            index: self.reference.index,
        }
    }

    // The section that is patched.
    fn section(&self) -> Option<&ObjSection>
        ensures { option_copied result ≡ meant.section_of self.now }
    {
        self.own.sections().get(self.reference.section as usize)
    }

    /// Whether the section that is patched is written when the file runs.
    pub fn is_writable(&self) -> bool
        ensures { result ≡ option_map_or outputs.is_writable (meant.section_of self.now) false }
    {
        match self.section() {
            Some(section) => section.flags / SHF_WRITE % 2 == 1,
            None => false,
        }
    }

    /// The name of the section that is patched.
    pub fn section_name(&self) -> &[u8]
        ensures { result.now ≡ meant.section_name self.now }
    {
        match self.section() {
            Some(section) => section.name.as_bytes(),
            None => &[],
        }
    }
}

// Whether a class has the value of a slot, with no addend.
fn is_of_slot(class: RefClass) -> bool
    ensures { result ≡ meant.is_of_slot class }
{
    match class {
        RefClass::Got | RefClass::Ie | RefClass::Desc => true,
        RefClass::Nothing | RefClass::Abs64 | RefClass::Abs32 | RefClass::Pc | RefClass::Call =>
            false,
        RefClass::Le | RefClass::Gd | RefClass::Ld | RefClass::Dtp => false,
    }
}

// Whether references of a class may have the addend.
fn takes_addend<M: Machine>(machine: &M, class: RefClass, addend: i64) -> bool
    ensures { result ≡ meant.takes_addend M.rules class addend }
{
    addend == 0 || !(machine.number() == EM_AARCH64 && is_of_slot(class))
}

// Whether a field of some bytes at an offset lies in a section, which has bytes in its file.
fn holds(section: &ObjSection, offset: u64, width: u64) -> bool
    ensures { result ≡ (not (outputs.is_nobits section.now) && nat_le (offset + width) section.now.size) }
{
    let end = u128::from(offset) + u128::from(width);
    section.kind != SHT_NOBITS && end <= u128::from(section.size)
}

// Whether the field of a reference lies in its section.
fn has_field<M: Machine>(machine: &M, taken: &Use<'_>) -> bool
    requires { is_some (class_of M.rules taken.now.reference.kind) ≡ true }
    ensures { result ≡ meant.has_field M.rules taken.now }
{
    let width = machine.width(taken.reference.kind);
    match taken.section() {
        Some(section) => holds(section, taken.reference.offset, width),
        None => false,
    }
}

/// The class of a reference that the machine takes, at a place where it can be.
#[tactic(auto, unfolding(link_core::specs::Plan::supported))]
pub fn supported<M: Machine>(machine: &M, taken: &Use<'_>) -> Option<RefClass>
    ensures { result ≡ meant.supported M.rules taken.now }
{
    match machine.class(taken.reference.kind) {
        None => None,
        Some(class) => {
            if has_field(machine, taken) && takes_addend(machine, class, taken.reference.addend) {
                Some(class)
            } else {
                None
            }
        }
    }
}
