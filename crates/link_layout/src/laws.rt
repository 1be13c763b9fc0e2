//! Laws on layouts.

ghost use Rattle.link_layout.specs.Laws.{SectionsAreTheContents, SectionsAreWithin, ImagesAreLow, PiecesAreWithin, CommonsAreWithin, EndsAreWithin, ThreadsAlignAsSections, PlacesAreAligned, PlacesAscend, TablesHaveTheirSize};

/// The sections of a layout are the contents of the image, in order, each at its address.
pub fn sections_are_the_contents()
    ensures { SectionsAreTheContents }
{}

/// Each section stands between the base of the image and the end of the largest image, the zeros of
/// threads too. That end is below 2^33, so no sum of an address and a size in the image wraps.
pub fn sections_are_within()
    ensures within { SectionsAreWithin }
    ensures low { ImagesAreLow }
{}

/// Each piece is a section of an object, and all its bytes stand in its output section; each common
/// symbol stands in .bss. The image and the segment of thread-local storage end by the end of the largest
/// image, and the alignment of that segment is at most the greatest of the objects' sections, or 1.
pub fn pieces_are_within()
    ensures pieces { PiecesAreWithin }
    ensures commons { CommonsAreWithin }
    ensures ends { EndsAreWithin }
    ensures align { ThreadsAlignAsSections }
{}

/// The address of each section is a multiple of its alignment; an alignment of 0 counts as 1.
pub fn places_are_aligned()
    ensures { PlacesAreAligned }
{}

/// Each section starts at or behind the end of the one before it: segment R, code, thread-local data, and
/// what else is written. The zeros of threads follow thread-local data, and take no addresses from what
/// follows.
pub fn places_ascend()
    ensures { PlacesAscend }
{}

/// A table that the image has is as large as its content says.
pub fn tables_have_their_size()
    ensures { TablesHaveTheirSize }
{}
