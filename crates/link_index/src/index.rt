//! The things of a plan, found by their symbols.

ghost use Rattle.std.specs.Prelude.{◌≡◌, ◌==◌, IfOk, length};
ghost use Rattle.link_core.specs.Symbols.{symbol_index};
ghost use Rattle.link_index.specs.Index as meant;

use crate::places::first_places;
use crate::words::starts_from;
use ifs_bytes::Memory;
use indexmap::IndexMap;
use link_core::{GotSlot, Plan};
use std::alloc::Global;
use std::marker::Model;

/// Where each thing of a plan stands: slots of .got, entries of .plt and rows of .dynsym, found by their symbols.
pub struct PlanIndex<'a> {
    plan: &'a Plan,
    slots: IndexMap<GotSlot, usize>,
    starts: Vec<u128>,
    entries: IndexMap<u64, usize>,
    rows: IndexMap<u64, usize>,
}

impl<'a> Model for PlanIndex<'a> {
    ghost use Rattle.link_core.specs.declared.plan.Plan.{Plan as PlanMeant};
    ghost use Rattle.link_index.specs.Index.{IsIndexOf};

    ghost Value = { PlanMeant };

    ghost view = { λ x. x.plan.now };

    ghost invariant = { λ x. IsIndexOf x.plan.now x.slots x.starts.items x.entries x.rows };
}

impl<'a> Drop for PlanIndex<'a> {
    fn drop(self) {
        let PlanIndex {
            plan: _,
            slots: _,
            starts: _,
            entries: _,
            rows: _,
        } = self;
    }
}

// The names of the rows of .dynsym behind the first, by their positions.
fn dynamic_rows(alloc: Global, plan: &Plan) -> Result<Vec<u64>, Memory>
    ensures { IfOk result (λ rows. rows.items ≡ meant.rows_of plan.now) }
{
    let mut rows = Vec::new(alloc);
    rows.extend_from_slice(plan.imports.as_slice())?;
    rows.extend_from_slice(plan.exports.as_slice())?;
    Ok(rows)
}

impl<'a> PlanIndex<'a> {
    /// The index of a plan.
    pub fn of(alloc: Global, plan: &'a Plan) -> Result<PlanIndex<'a>, Memory>
        ensures { IfOk result (λ index. index ≡ plan.now) }
    {
        let slots = first_places(alloc, plan.got.as_slice())?;
        let starts = starts_from(alloc, plan.got.as_slice())?;
        let entries = first_places(alloc, plan.plt.as_slice())?;
        let names = dynamic_rows(alloc, plan)?;
        let rows = first_places(alloc, names.as_slice())?;
        Ok(PlanIndex {
            plan,
            slots,
            starts,
            entries,
            rows,
        })
    }

    // The place of a slot among those of .got, or how many there are.
    fn slot_place(&self, slot: GotSlot) -> usize
        ensures { result ≡ meant.slot_place self.now slot }
    {
        match self.slots.get(&slot) {
            Some(place) => *place,
            None => self.plan.got.as_slice().len(),
        }
    }

    /// How many words stand before a slot in .got: before its first one, or all where it has none.
    pub fn word_place(&self, slot: GotSlot) -> u128
        ensures { result ≡ meant.word_place self.now slot }
    {
        self.starts[self.slot_place(slot)]
    }

    /// The entry of a name in .plt, from 0, or how many there are where it has none.
    pub fn entry_place(&self, name: u64) -> usize
        ensures { result ≡ meant.entry_place self.now name }
    {
        match self.entries.get(&name) {
            Some(place) => *place,
            None => self.plan.plt.as_slice().len(),
        }
    }

    /// The row of a name in .dynsym, 0 where it has none.
    #[tactic(auto, unfolding(link_core::specs::Symbols::symbol_index))]
    pub fn symbol_index(&self, name: u64) -> u128
        ensures { result ≡ symbol_index self.now name }
    {
        match self.rows.get(&name) {
            Some(place) => *place as u128 + 1,
            None => 0,
        }
    }
}
