//! Laws on links.

ghost use Rattle.link_core.specs.Laws.{NamesAscend, NamesAreBoundOnce, FileNamesSayNothing, SlotsAreDistinct};

/// The names of a resolution stand in byte order, each once, so a name is bound to one thing. The name of a
/// library's file makes no difference where the library has a soname.
pub fn names_are_bound_once()
    ensures ascend { NamesAscend }
    ensures once { NamesAreBoundOnce }
    ensures files { FileNamesSayNothing }
{}

/// A plan has each slot once.
pub fn slots_are_distinct()
    ensures { SlotsAreDistinct }
{}
