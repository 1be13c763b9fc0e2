//! Laws on links.

ghost use Rattle.link_core.specs.LinkLaws.{LinksSeeFacts, LinksRefuseInOrder, PartsFillTheirSpan, PartsFollow, PlacesAreLeast};

/// A link depends on the facts of its libraries alone: a library in the place of one with equal facts gives an equal link,
/// whatever stands before and behind it. The names of the two files may differ where there is a soname.
pub fn links_see_facts()
    ensures { LinksSeeFacts }
{}

/// A refusal is that of the first step that has one: objects, libraries, names, needs, places, image.
pub fn refusals_come_in_order()
    ensures { LinksRefuseInOrder }
{}

/// Parts in ascending offsets fill the bytes that are laid out, to the end of the last one. Each part follows the bytes of those
/// before it, so it stands at its offset.
pub fn parts_fill_their_span()
    ensures filled { PartsFillTheirSpan }
    ensures follow { PartsFollow }
{}

/// A place is the least multiple of its alignment that isn't below what is before it.
pub fn places_are_least()
    ensures { PlacesAreLeast }
{}
