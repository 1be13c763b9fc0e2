//! The output sections of a link, each with its pieces.

ghost use Rattle.std.specs.Prelude.{◌≡◌, ◌<◌, ◌++◌, ◌∷◌, [], IfOk, OnOk, if◌then◌else◌, length};
ghost use Rattle.link_outputs.specs.Grouped as meant;

use crate::class::class_of;
use crate::name::output_name;
use crate::piece::Piece;
use ifs_bytes::Memory;
use indexmap::IndexSet;
use link_core::OutClass;
use std::alloc::Global;
use std::marker::Model;

/// An output section, with its pieces.
#[derive(Drop)]
pub struct Grouped<'a> {
    /// Its name.
    pub name: &'a [u8],
    /// What it needs of memory.
    pub class: OutClass,
    /// The sections that make it, by object and section.
    pub pieces: Vec<Piece<'a>>,
}

impl<'a> Model for Grouped<'a> {
    ghost use Rattle.link_outputs.specs.Grouped.{Group};

    ghost Value = { Group };

    ghost view = { λ g. record {
      output = record { name = g.name.now; class = g.class };
      pieces = g.pieces.items;
    } };
}

// A class as a number, which has a hash.
fn class_number(class: OutClass) -> u8
    ensures { result ≡ meant.class_number class }
{
    match class {
        OutClass::R => 0,
        OutClass::X => 1,
        OutClass::W => 2,
        OutClass::T => 3,
        OutClass::Z => 4,
        OutClass::B => 5,
    }
}

// Puts a piece last in an output section.
fn push_piece<'a>(group: &mut Grouped<'a>, piece: &Piece<'a>) -> Result<(), Memory>
    ensures { OnOk result (group.new ≡ meant.with_last group.old piece.now) }
{
    Ok(
        group.pieces.push(Piece {
            object: piece.object,
            section: piece.section,
            input: piece.input,
        })?,
    )
}

// Puts a piece last in the output section at a place.
fn put_at<'a>(groups: &mut Vec<Grouped<'a>>, place: usize, piece: &Piece<'a>) -> Result<(), Memory>
    requires { place < length groups.old.items }
    ensures { OnOk result (groups.new.items ≡ meant.put_at groups.old.items place piece.now) }
{
    push_piece(&mut groups[place], piece)
}

// Puts an output section last that has no pieces so far, if it is new.
fn push_new<'a>(
    alloc: Global,
    groups: &mut Vec<Grouped<'a>>,
    is_new: bool,
    name: &'a [u8],
    class: OutClass,
) -> Result<(), Memory>
    ensures { OnOk result (groups.new.items ≡ (if is_new
        then groups.old.items ++ meant.empty_group (record { name = name.now; class = class }) ∷ []
        else groups.old.items)) }
{
    if is_new {
        groups.push(Grouped {
            name,
            class,
            pieces: Vec::new(alloc),
        })?;
    }
    Ok(())
}

// Puts a piece last in its output section, which is put last where it isn't there. The keys of the output
// sections are kept beside them.
fn add<'a>(
    alloc: Global,
    keys: &mut IndexSet<(&'a [u8], u8)>,
    groups: &mut Vec<Grouped<'a>>,
    piece: &Piece<'a>,
) -> Result<(), Memory>
    requires { meant.AreKeysOf groups.old.items keys.old.keys }
    ensures keys { OnOk result (meant.AreKeysOf groups.new.items keys.new.keys) }
    ensures groups { OnOk result (groups.new.items ≡ meant.with_piece groups.old.items piece.now) }
{
    let name = output_name(piece.input.name.as_bytes());
    let class = class_of(piece.input);
    let (place, is_new) = keys.insert_full((name, class_number(class)))?;
    push_new(alloc, groups, is_new, name, class)?;
    put_at(groups, place, piece)?;
    Ok(())
}

/// The output sections of these pieces in order of first appearance, each with its pieces in their order. Pieces of
/// one name (`output_name`) and one class (`class_of`) make one.
pub fn group<'a>(alloc: Global, pieces: &[Piece<'a>]) -> Result<Vec<Grouped<'a>>, Memory>
    ensures { IfOk result (λ groups. groups.items ≡ meant.grouped pieces.now) }
{
    let mut keys = IndexSet::new(alloc);
    let mut groups = Vec::new(alloc);
    for piece in pieces {
        add(alloc, &mut keys, &mut groups, piece)?;
    }
    Ok(groups)
}

/// The names of these output sections, in byte order. A name may stand there more than once.
pub fn section_names<'a>(alloc: Global, groups: &[Grouped<'a>]) -> Result<Vec<&'a [u8]>, Memory>
    ensures { IfOk result (λ names. meant.AreNamesOf groups.now names.items) }
{
    let mut names: Vec<&'a [u8]> = Vec::with_capacity(alloc, groups.len())?;
    for group in groups {
        names.push(group.name)?;
    }
    names.sort_unstable_by(|a, b| a.cmp(b));
    Ok(names)
}
