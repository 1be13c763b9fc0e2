//! Laws on the order of references.

ghost use Rattle.link_order.specs.Laws.{ReferencesAscend, UsesAscend, UsesAreFound, SectionsAreRuns};

/// The references of an object that was read stand by section, then by index, each place once.
pub fn references_ascend()
    ensures { ReferencesAscend }
{}

/// The references of objects that were read stand by object, then by section, then by index, each place once.
pub fn uses_ascend()
    ensures { UsesAscend }
{}

/// A reference of a link is the one that stands for its place.
pub fn uses_are_found()
    ensures { UsesAreFound }
{}

/// The references of a section are one run of all: it begins behind those of the sections before it.
pub fn sections_are_runs()
    ensures { SectionsAreRuns }
{}
