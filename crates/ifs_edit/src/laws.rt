//! Laws on patterns and merges.

ghost use Rattle.ifs_edit.specs.Laws.{BrokenAreRefused, MergesAlone, MergesInAnyOrder, PatternsAreRead};

/// A pattern is read as elements that match just the names that it matches, or it is refused just at its first
/// broken element.
pub fn patterns_are_read()
    ensures value { PatternsAreRead }
    ensures broken { BrokenAreRefused }
{}

/// Where interfaces are one together, they are the same one in any order. A refusal does depend on the order: it has
/// positions, and the values of the first inputs that differ.
pub fn merges_in_any_order()
    ensures { MergesInAnyOrder }
{}

/// An interface alone is merged as it is, so nobody has to merge it.
pub fn merges_alone()
    ensures { MergesAlone }
{}
