//! What the dynamic entries say of a library's tables: their addresses.

ghost use Rattle.std.specs.Prelude.{◌≡◌, ◌≤◌, Result};
ghost use Rattle.elf_dyn.specs.Entries.{EntriesLie, value_with};
ghost use Rattle.elf_dyn.specs.Segments.{hash_table, addresses_of};

use crate::constants::{DT_GNU_HASH, DT_HASH, DT_STRSZ, DT_STRTAB, DT_SYMTAB};
use crate::entries::value_with;
use crate::places::Entries;
use elf_file::ElfCause;

/// The hash table by which the rows of the dynamic symbol table are counted, by its address.
#[derive(Clone, Copy, Debug, PartialEq, Eq)]
pub enum HashTable {
    SysV(u64),
    Gnu(u64),
}

/// Where the string table, the symbol table and its hash table are, by addresses, and the size of the strings.
#[derive(Clone, Copy, Debug, PartialEq, Eq)]
pub struct Addresses {
    pub strings: u64,
    pub strings_size: u64,
    pub symbols: u64,
    pub hash: HashTable,
}

// The hash table: the SysV one, where it is there.
fn hash_table(sysv: Option<u64>, gnu: Option<u64>) -> Option<HashTable>
    ensures { result ≡ hash_table sysv gnu }
{
    match (sysv, gnu) {
        (Some(address), _) => Some(HashTable::SysV(address)),
        (None, Some(address)) => Some(HashTable::Gnu(address)),
        (None, None) => None,
    }
}

/// What the `count` entries that count say.
#[tactic(auto, unfolding(crate::specs::Segments::addresses_of))]
pub fn addresses_of(bytes: &[u8], entries: Entries, count: u64) -> Result<Addresses, ElfCause>
    requires lie { EntriesLie bytes.now entries }
    requires within { count ≤ entries.room }
    ensures { result ≡ addresses_of bytes.now entries count }
{
    let Some(strings) = value_with(bytes, entries, count, DT_STRTAB) else {
        return Err(ElfCause::NoDynamic);
    };
    let Some(strings_size) = value_with(bytes, entries, count, DT_STRSZ) else {
        return Err(ElfCause::NoDynamic);
    };
    let Some(symbols) = value_with(bytes, entries, count, DT_SYMTAB) else {
        return Err(ElfCause::NoDynamic);
    };
    let sysv = value_with(bytes, entries, count, DT_HASH);
    let gnu = value_with(bytes, entries, count, DT_GNU_HASH);
    let Some(hash) = hash_table(sysv, gnu) else {
        return Err(ElfCause::NoDynamic);
    };
    Ok(Addresses {
        strings,
        strings_size,
        symbols,
        hash,
    })
}
