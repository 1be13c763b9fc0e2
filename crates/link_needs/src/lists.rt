//! The lists of a plan, as they grow.

ghost use Rattle.std.specs.Prelude.{◌≡◌, ◌==◌, ◌++◌, OnOk};
ghost use Rattle.std.specs.Option.{option_to_list};
ghost use Rattle.link_core.specs.Plan as meant;
ghost use Rattle.link_needs.specs.Needs as needs;

use crate::needed::Needed;
use ifs_bytes::Memory;
use indexmap::IndexSet;
use link_core::{At, DynReloc, GotSlot, Need, Slot, SymbolId};
use std::alloc::Global;
use std::marker::Model;

/// The slots, the entries of .plt and the dynamic relocations so far.
#[derive(Drop)]
pub struct Lists {
    got: IndexSet<GotSlot>,
    plt: IndexSet<u64>,
    moves: Vec<DynReloc>,
}

impl Model for Lists {
    ghost use Rattle.link_needs.specs.Needs.{Lists as ListsMeant};

    ghost Value = { ListsMeant };

    ghost view = { λ l. record { got = l.got.keys; plt = l.plt.keys; moves = l.moves.items } };
}

// Whose a slot is.
fn owner(slot: Slot, symbol: SymbolId) -> SymbolId
    ensures { result ≡ meant.owner slot symbol }
{
    match slot {
        Slot::Module => SymbolId::Module,
        Slot::Got | Slot::Tp | Slot::TlsPair | Slot::Desc => symbol,
    }
}

fn name_in(symbol: SymbolId) -> Option<u64>
    ensures { result ≡ meant.name_in symbol }
{
    match symbol {
        SymbolId::Name(i) => Some(i),
        SymbolId::Local(_, _) => None,
        SymbolId::Module => None,
    }
}

// The slot that a need asks for.
fn slot_for(symbol: SymbolId, need: Need) -> Option<GotSlot>
    ensures { result ≡ meant.slot_for symbol need }
{
    match need {
        Need::Slot(slot) => Some(GotSlot {
            symbol: owner(slot, symbol),
            slot,
        }),
        Need::Value | Need::Plt | Need::Relative | Need::Symbolic | Need::Clear => None,
    }
}

// The name whose entry of .plt a need asks for.
fn entry_for(symbol: SymbolId, need: Need) -> Option<u64>
    ensures { result ≡ meant.entry_for symbol need }
{
    match need {
        Need::Plt => name_in(symbol),
        Need::Value | Need::Slot(_) | Need::Relative | Need::Symbolic | Need::Clear => None,
    }
}

// The dynamic relocation that a need asks for.
fn move_for(at: At, symbol: SymbolId, need: Need) -> Option<DynReloc>
    ensures { result ≡ meant.move_for at symbol need }
{
    match need {
        Need::Relative => Some(DynReloc {
            at,
            symbol: None,
            relative: true,
        }),
        Need::Symbolic => Some(DynReloc {
            at,
            symbol: name_in(symbol),
            relative: false,
        }),
        Need::Value | Need::Slot(_) | Need::Plt | Need::Clear => None,
    }
}

// Puts a slot last, unless it is there.
fn put_slot(got: &mut IndexSet<GotSlot>, slot: Option<GotSlot>) -> Result<(), Memory>
    ensures { OnOk result (got.new.keys ≡ needs.put meant.same_slot got.old.keys slot) }
{
    if let Some(slot) = slot {
        got.insert_full(slot)?;
    }
    Ok(())
}

// Puts a name last, unless it is there.
fn put_entry(plt: &mut IndexSet<u64>, name: Option<u64>) -> Result<(), Memory>
    ensures { OnOk result (plt.new.keys ≡ needs.put (λ i j. i == j) plt.old.keys name) }
{
    if let Some(name) = name {
        plt.insert_full(name)?;
    }
    Ok(())
}

// Puts a dynamic relocation last.
fn push_move(moves: &mut Vec<DynReloc>, item: Option<DynReloc>) -> Result<(), Memory>
    ensures { OnOk result (moves.new.items ≡ moves.old.items ++ option_to_list item) }
{
    if let Some(item) = item {
        moves.push(item)?;
    }
    Ok(())
}

impl Lists {
    /// Empty lists.
    pub fn new(alloc: Global) -> Lists
        ensures { result ≡ needs.no_lists }
    {
        Lists {
            got: IndexSet::new(alloc),
            plt: IndexSet::new(alloc),
            moves: Vec::new(alloc),
        }
    }

    /// Adds what a reference needs.
    #[tactic(auto, unfolding(crate::specs::Needs::after))]
    pub fn add(&mut self, needed: &Needed) -> Result<(), Memory>
        ensures { OnOk result (self.new ≡ needs.after self.old needed.now) }
    {
        put_slot(&mut self.got, slot_for(needed.symbol, needed.need))?;
        put_entry(&mut self.plt, entry_for(needed.symbol, needed.need))?;
        push_move(
            &mut self.moves,
            move_for(needed.at, needed.symbol, needed.need),
        )
    }

    /// The slots and pairs of .got, each once, in order of the first need.
    pub fn got(&self) -> &[GotSlot]
        ensures { result.now ≡ self.now.got }
    {
        self.got.as_slice()
    }

    /// The names with an entry in .plt, by their positions, each once, in order of the first need.
    pub fn plt(&self) -> &[u64]
        ensures { result.now ≡ self.now.plt }
    {
        self.plt.as_slice()
    }

    /// The dynamic relocations of fields, in the order of the references.
    pub fn moves(&self) -> &[DynReloc]
        ensures { result.now ≡ self.now.moves }
    {
        self.moves.as_slice()
    }
}
