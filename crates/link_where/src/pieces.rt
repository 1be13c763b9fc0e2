//! Where the pieces of a layout stand.

ghost use Rattle.std.specs.Prelude.{◌≡◌, IfOk, List, OnOk, ◌∷◌};
ghost use Rattle.link_where.specs.Pieces as meant;

use ifs_bytes::Memory;
use indexmap::IndexMap;
use link_core::{Layout, PieceAt};
use std::alloc::Global;
use std::marker::Model;

/// The pieces of a layout, found by object and section.
#[derive(Drop)]
pub struct Pieces<'a> {
    pieces: &'a [PieceAt],
    found: IndexMap<(u32, u32), PieceAt>,
}

impl<'a> Model for Pieces<'a> {
    ghost use Rattle.std.specs.Prelude.{List as PiecesList};
    ghost use Rattle.link_core.specs.declared.layout.PieceAt.{PieceAt as PieceSeen};
    ghost use Rattle.link_where.specs.Pieces.{AreFound};

    ghost Value = { PiecesList PieceSeen };

    ghost view = { λ p. p.pieces.now };

    ghost invariant = { λ p. AreFound p.pieces.now p.found };
}

// Notes a piece, in place of what was noted before for the same section.
fn note(found: &mut IndexMap<(u32, u32), PieceAt>, piece: &PieceAt) -> Result<(), Memory>
    ensures { OnOk result ((pieces : List PieceAt) → meant.AreFound pieces found.old
        → meant.AreFound (piece.now ∷ pieces) found.new) }
{
    found.insert((piece.object, piece.section), *piece)?;
    Ok(())
}

// From each section to its first piece.
fn first_pieces(alloc: Global, pieces: &[PieceAt]) -> Result<IndexMap<(u32, u32), PieceAt>, Memory>
    ensures { IfOk result (λ found. meant.AreFound pieces.now found) }
{
    let mut found = IndexMap::new(alloc);
    let count = pieces.len();
    for i in 0..count {
        note(&mut found, &pieces[count - 1 - i])?;
    }
    Ok(found)
}

impl<'a> Pieces<'a> {
    /// The pieces of a layout. Where a section has more than one, the first counts.
    pub fn of(alloc: Global, l: &'a Layout) -> Result<Pieces<'a>, Memory>
        ensures { IfOk result (λ pieces. pieces ≡ l.now.pieces) }
    {
        let pieces = l.pieces.as_slice();
        let found = first_pieces(alloc, pieces)?;
        Ok(Pieces { pieces, found })
    }

    /// The address of a section of an object, 0 where it is no piece.
    pub fn address(&self, object: u32, section: u32) -> u64
        ensures { result ≡ meant.address_in self.now object section }
    {
        match self.found.get(&(object, section)) {
            Some(piece) => piece.address,
            None => 0,
        }
    }

    /// The position of the output section that a section of an object is a piece of, 0 where it is no piece.
    pub fn out(&self, object: u32, section: u32) -> u32
        ensures { result ≡ meant.position_in self.now object section }
    {
        match self.found.get(&(object, section)) {
            Some(piece) => piece.out,
            None => 0,
        }
    }
}
