//! Tables among the sections, and what their headers say.

ghost use Rattle.std.specs.Prelude.{◌≡◌, ◌<◌};
ghost use Rattle.link_sections.specs.Rows as meant;

use link_placed::Table;
use link_where::TablePositions;

/// The table at a position; None for what is no table.
pub(crate) fn table_at(at: TablePositions, i: usize) -> Option<Table>
    ensures { result ≡ meant.table_at at i }
{
    if i == at.interp {
        Some(Table::Interp)
    } else if i == at.dynsym {
        Some(Table::Dynsym)
    } else if i == at.dynstr {
        Some(Table::Dynstr)
    } else if i == at.hash {
        Some(Table::Hash)
    } else if i == at.rela_dyn {
        Some(Table::RelaDyn)
    } else if i == at.rela_plt {
        Some(Table::RelaPlt)
    } else if i == at.plt {
        Some(Table::Plt)
    } else if i == at.dynamic {
        Some(Table::Dynamic)
    } else if i == at.got {
        Some(Table::Got)
    } else if i == at.got_plt {
        Some(Table::GotPlt)
    } else {
        None
    }
}

/// The size of an entry in bytes, 0 for what has none.
pub(crate) fn entry_size(table: Option<Table>) -> u64
    ensures { result ≡ meant.entry_size table }
{
    match table {
        None => 0,
        Some(Table::Interp | Table::Dynstr) => 0,
        Some(Table::Hash) => 4,
        Some(Table::Got | Table::GotPlt) => 8,
        Some(Table::Plt | Table::Dynamic) => 16,
        Some(Table::Dynsym | Table::RelaDyn | Table::RelaPlt) => 24,
    }
}

/// The table that a table's entries speak of: strings of names, or symbols.
pub(crate) fn linked(table: Option<Table>) -> Option<Table>
    ensures { result ≡ meant.linked_to table }
{
    match table {
        None => None,
        Some(Table::Dynsym | Table::Dynamic) => Some(Table::Dynstr),
        Some(Table::Hash | Table::RelaDyn | Table::RelaPlt) => Some(Table::Dynsym),
        Some(Table::Interp | Table::Dynstr | Table::Plt | Table::Got | Table::GotPlt) => None,
    }
}

/// sh_info: in .dynsym the number of the first symbol that isn't local.
pub(crate) fn info_of(table: Option<Table>) -> u32
    ensures { result ≡ meant.info_of table }
{
    match table {
        Some(Table::Dynsym) => 1,
        None => 0,
        Some(Table::Interp | Table::Dynstr | Table::Hash | Table::RelaDyn | Table::RelaPlt) => 0,
        Some(Table::Plt | Table::Dynamic | Table::Got | Table::GotPlt) => 0,
    }
}
