//! The sections of its objects that a link keeps.

ghost use Rattle.std.specs.Prelude.{◌≡◌, ◌<◌, ◌≤◌, ◌^◌, ◌++◌, All, IfOk, OnOk, length};
ghost use Rattle.std.specs.Option.{option_to_list};
ghost use Rattle.link_core.specs.OutputNames as meant;
ghost use Rattle.link_outputs.specs.Pieces.{has_flag, piece_of, pieces_from, pieces_of_object};

use elf_object::{ObjSection, Object};
use ifs_bytes::Memory;
use link_core::Member;
use link_pieces::kept_flags;
use std::alloc::Global;
use std::marker::Model;

/// A section of an object that the link keeps.
#[derive(Drop)]
pub struct Piece<'a> {
    /// The position of the object.
    pub object: u32,
    /// The number of the section.
    pub section: u32,
    /// What the object says of the section.
    pub input: &'a ObjSection,
}

impl<'a> Model for Piece<'a> {
    ghost use Rattle.link_core.specs.OutputNames.{Piece as PieceMeant};

    ghost Value = { PieceMeant };

    ghost view = { λ p. record { object = p.object; section = p.section; input = p.input.now } };
}

// Whether the section of this number is kept.
fn has_flag(flags: &[bool], section: usize) -> bool
    ensures { result ≡ has_flag flags.now section }
{
    match flags.get(section) {
        Some(kept) => *kept,
        None => false,
    }
}

// Appends a section, if it is kept.
fn push_piece<'a>(
    pieces: &mut Vec<Piece<'a>>,
    flags: &[bool],
    object: u32,
    section: u32,
    input: &'a ObjSection,
) -> Result<(), Memory>
    ensures { OnOk result (pieces.new.items
        ≡ pieces.old.items ++ option_to_list (piece_of (has_flag flags.now) object (section, input.now))) }
{
    if has_flag(flags, section as usize) {
        pieces.push(Piece {
            object,
            section,
            input,
        })?;
    }
    Ok(())
}

// Appends the kept sections of an object.
fn push_pieces<'a>(
    pieces: &mut Vec<Piece<'a>>,
    flags: &[bool],
    object: u32,
    own: &'a Object,
) -> Result<(), Memory>
    requires small { length own.now.bytes < 2 ^ 32 }
    ensures { OnOk result (pieces.new.items
        ≡ pieces.old.items ++ pieces_of_object flags.now object own.now.sections) }
{
    own.is_read();
    let sections = own.sections();
    for (section, input) in sections.iter().enumerate() {
        push_piece(pieces, flags, object, section as u32, input)?;
    }
    Ok(())
}

// The kept sections of all objects.
fn flagged_pieces<'a>(
    alloc: Global,
    flags: &[Vec<bool>],
    objects: &'a [Object],
) -> Result<Vec<Piece<'a>>, Memory>
    requires few { length objects.now ≤ 4096 }
    requires small { All (λ o. length o.bytes < 2 ^ 32) objects.now }
    requires long { length flags.now ≡ length objects.now }
    ensures { IfOk result (λ pieces. pieces.items ≡ pieces_from 0 flags.now objects.now) }
{
    let mut pieces = Vec::new(alloc);
    for (i, object) in objects.iter().enumerate() {
        push_pieces(&mut pieces, &flags[i], i as u32, object)?;
    }
    Ok(pieces)
}

/// The sections that a link keeps where it drops these, by object and section.
pub fn kept_pieces<'a>(
    alloc: Global,
    dropped: &[Member],
    objects: &'a [Object],
) -> Result<Vec<Piece<'a>>, Memory>
    requires few { length objects.now ≤ 4096 }
    requires small { All (λ o. length o.bytes < 2 ^ 32) objects.now }
    ensures { IfOk result (λ pieces. pieces.items ≡ meant.kept_pieces dropped.now objects.now) }
{
    let flags = kept_flags(alloc, dropped, objects)?;
    flagged_pieces(alloc, &flags, objects)
}
