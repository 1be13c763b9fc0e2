//! Where the tables of the made file stand.

ghost use Rattle.std.specs.Prelude.{◌≡◌, ◌≤◌, ◌^◌};
ghost use Rattle.link_core.specs.Places as places;
ghost use Rattle.link_placed.specs.Made as meant;
ghost use Rattle.link_placed.specs.Tables.{table_name};

use crate::link::Link;
use crate::table::Table;
use link_core::Machine;
use link_where::{table_address, table_size};

impl<'a, M: Machine> Link<'a, M> {
    /// The position of a table among the sections; the number of sections where it isn't there.
    #[tactic(auto, unfolding(link_where::specs::Tables::positions))]
    pub fn position(&self, table: Table) -> usize
        ensures { result ≡ places.table_position (meant.link_of M.rules self.now) (table_name table) }
    {
        let positions = self.positions();
        match table {
            Table::Interp => positions.interp,
            Table::Dynsym => positions.dynsym,
            Table::Dynstr => positions.dynstr,
            Table::Hash => positions.hash,
            Table::RelaDyn => positions.rela_dyn,
            Table::RelaPlt => positions.rela_plt,
            Table::Plt => positions.plt,
            Table::Dynamic => positions.dynamic,
            Table::Got => positions.got,
            Table::GotPlt => positions.got_plt,
        }
    }

    /// The address of a table, 0 where it isn't there. None is above 2^29.
    #[tactic(auto, unfolding(link_core::specs::Places::table_address))]
    pub fn address(&self, table: Table) -> u64
        ensures is { result ≡ places.table_address (meant.link_of M.rules self.now) self.now.layout (table_name table) }
        ensures low { result ≤ 2 ^ 29 }
    {
        self.is_made();
        table_address(self.layout(), self.position(table))
    }

    /// The size of a table in bytes, 0 where it isn't there. None is above 2^29.
    #[tactic(auto, unfolding(link_core::specs::Places::table_size))]
    pub fn size(&self, table: Table) -> u64
        ensures is { result ≡ places.table_size (meant.link_of M.rules self.now) self.now.layout (table_name table) }
        ensures low { result ≤ 2 ^ 29 }
    {
        self.is_made();
        table_size(self.layout(), self.position(table))
    }
}
