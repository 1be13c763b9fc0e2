//! Fields of rows: bindings and types.

ghost use Rattle.std.specs.Prelude.{◌≡◌, ◌<◌, ◌≤◌};
ghost use Rattle.link_core.specs.Symbols as meant;

use elf_file::Row;
use ifs_interface::Fact;
use link_core::{NameRow, STB_GLOBAL, STB_WEAK, STT_FUNC, STT_NOTYPE, STT_OBJECT, STT_TLS};

/// STB_WEAK or STB_GLOBAL.
pub fn row_binding(weak: bool) -> u8
    ensures is { result ≡ meant.row_binding weak }
    ensures low { result ≤ 2 }
{
    if weak { STB_WEAK } else { STB_GLOBAL }
}

// The type of what an import is.
fn type_of(fact: Fact) -> u8
    ensures is { result ≡ meant.type_of fact }
    ensures low { result < 16 }
{
    match fact {
        Fact::NoType => STT_NOTYPE,
        Fact::Func => STT_FUNC,
        Fact::Object => STT_OBJECT,
        Fact::Tls => STT_TLS,
    }
}

/// The type of a definition, where it is one of the four; else STT_NOTYPE.
pub fn export_type(type_number: u8) -> u8
    ensures is { result ≡ meant.export_type type_number }
    ensures low { result < 16 }
{
    if type_number == STT_OBJECT || type_number == STT_FUNC || type_number == STT_TLS {
        type_number
    } else {
        STT_NOTYPE
    }
}

/// st_info.
pub fn info_of(binding: u8, type_number: u8) -> u8
    requires binding { binding ≤ 2 }
    requires kind { type_number < 16 }
    ensures { result ≡ meant.info_of binding type_number }
{
    binding * 16 + type_number
}

/// The row for no symbol.
pub fn null_row() -> Row
    ensures { result ≡ meant.null_row }
{
    Row {
        name: 0,
        info: 0,
        other: 0,
        shndx: 0,
        value: 0,
        size: 0,
    }
}

/// The row of an import whose name is at this place of .dynstr.
pub fn import_row(at: u32, row: &NameRow) -> Row
    ensures { result ≡ meant.import_row at row.now }
{
    Row {
        name: at,
        info: info_of(row_binding(row.weak_only), type_of(row.class)),
        other: 0,
        shndx: 0,
        value: 0,
        size: 0,
    }
}
