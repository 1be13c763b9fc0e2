//! A section before it has a place.

ghost use Rattle.std.specs.Prelude.{◌≡◌, ◌++◌, IfOk, OnOk};
ghost use Rattle.link_tables.specs.Sections as meant;

use ifs_bytes::{Memory, Text};
use std::alloc::Global;

/// A section of the image, of which all but its place is known.
#[derive(Debug, PartialEq, Eq, Drop)]
pub struct Section {
    /// Its name.
    pub name: Text,
    /// Its type, sh_type.
    pub kind: u32,
    /// Its flags, sh_flags.
    pub flags: u64,
    /// Its alignment, sh_addralign.
    pub align: u64,
    /// Its size in bytes; 2^128 - 1 stands for any above it.
    pub size: u128,
}

/// A section that the link makes.
pub fn table(
    alloc: Global,
    name: &[u8],
    kind: u32,
    flags: u64,
    align: u64,
    size: u128,
) -> Result<Section, Memory>
    ensures { IfOk result (λ section. section ≡ meant.table name.now kind flags align size) }
{
    Ok(Section {
        name: Text::from_slice(alloc, name)?,
        kind,
        flags,
        align,
        size,
    })
}

/// Appends a section, if it is there.
pub fn push_if(sections: &mut Vec<Section>, there: bool, section: Section) -> Result<(), Memory>
    ensures { OnOk result (sections.new.items ≡ sections.old.items ++ meant.section_if there section) }
{
    if there {
        sections.push(section)?;
    }
    Ok(())
}
