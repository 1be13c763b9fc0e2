//! Where slots and linkage entries stand.

ghost use Rattle.std.specs.List.{position_or_len};
ghost use Rattle.std.specs.Prelude.{◌≡◌, ◌<◌, ◌≤◌, ◌^◌, ◌+◌, ◌-◌, ◌*◌, ◌==◌, length};
ghost use Rattle.link_core.specs.Plan.{same_slot};
ghost use Rattle.link_core.specs.Relocations.{plt_slot_address};
ghost use Rattle.link_core.specs.Value as values;
ghost use Rattle.link_index.specs.Index as index;
ghost use Rattle.link_placed.specs.Made as meant;

use crate::link::Link;
use crate::table::Table;
use link_core::{GotSlot, Machine};

impl<'a, M: Machine> Link<'a, M> {
    // How many words of .got stand before a slot.
    fn words_before(&self, slot: GotSlot) -> u64
        ensures is { result ≡ index.word_place self.now.plan slot }
        ensures low { 8 * result ≤ 2 ^ 29 }
    {
        self.is_made();
        self.index().word_place(slot) as u64
    }

    /// The address of the first word of a slot of .got; where it has none, the end of them all.
    pub fn slot_address(&self, slot: GotSlot) -> u64
        ensures is { result ≡ values.slot_address (meant.link_of M.rules self.now) self.now.layout
            (position_or_len (same_slot slot) self.now.plan.got) }
        ensures low { result ≤ 2 ^ 30 }
    {
        self.address(Table::Got) + 8 * self.words_before(slot)
    }

    /// Law: the linkage table is small.
    pub fn has_few_entries(&self)
        ensures { 8 * (3 + length self.now.plan.plt) ≤ 2 ^ 29 }
    {
        self.is_made();
    }

    /// The address of entry `at` of .plt, or that of their end.
    #[tactic(auto, unfolding(link_core::specs::Value::plt_entry_address))]
    pub fn entry_address_at(&self, at: usize) -> u64
        requires { at ≤ length self.now.plan.plt }
        ensures is { result ≡ values.plt_entry_address (meant.link_of M.rules self.now) self.now.layout at }
        ensures low { result < 2 ^ 31 - 2 ^ 28 }
    {
        self.has_few_entries();
        self.address(Table::Plt) + (self.machine().header_len() + 16 * at as u64)
    }

    /// The address of a name's entry of .plt; where it has none, the end of them all.
    #[tactic(auto, unfolding(link_index::specs::Index::entry_place), using(link_where::proofs::Tabled::place_within))]
    pub fn entry_address(&self, name: u64) -> u64
        ensures is { result ≡ values.plt_entry_address (meant.link_of M.rules self.now) self.now.layout
            (position_or_len (λ m. m == name) self.now.plan.plt) }
        ensures low { result < 2 ^ 31 - 2 ^ 28 }
    {
        self.entry_address_at(self.index().entry_place(name))
    }

    /// The address of the slot of .got.plt for entry `at` of .plt: three words stand before the first.
    #[tactic(auto, unfolding(link_core::specs::Relocations::plt_slot_address))]
    pub fn plt_slot_address(&self, at: usize) -> u64
        requires { at ≤ length self.now.plan.plt }
        ensures is { result ≡ plt_slot_address (meant.link_of M.rules self.now) self.now.layout at }
        ensures low { result ≤ 2 ^ 30 }
    {
        self.has_few_entries();
        self.address(Table::GotPlt) + 8 * (3 + at as u64)
    }
}
