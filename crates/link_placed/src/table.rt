//! The tables that a link makes.

/// A table of the made file. Of these .interp is there in programs alone, .rela.dyn, .rela.plt, .plt and .got
/// where they have entries, and the others always.
#[derive(Clone, Copy, Debug, PartialEq, Eq)]
pub enum Table {
    /// .interp, the path of the interpreter.
    Interp,
    /// .dynsym, the dynamic symbols.
    Dynsym,
    /// .dynstr, their strings.
    Dynstr,
    /// .hash, their hash table.
    Hash,
    /// .rela.dyn, the dynamic relocations.
    RelaDyn,
    /// .rela.plt, those of the linkage table.
    RelaPlt,
    /// .plt, the linkage table.
    Plt,
    /// .dynamic, the dynamic section.
    Dynamic,
    /// .got, the slots of symbols.
    Got,
    /// .got.plt, the slots of the linkage table.
    GotPlt,
}
