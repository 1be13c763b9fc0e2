//! The first places of items in a list.

ghost use Rattle.std.specs.Prelude.{◌≡◌, IfOk, List, ◌++◌, ◌∷◌, [], OnOk, length};
ghost use Rattle.link_index.specs.Index.{ArePlaces};

use ifs_bytes::Memory;
use indexmap::IndexMap;
use std::alloc::Global;
use std::hash::Hash;

// Notes the place of an item, unless it has one.
fn note<K: Copy + Eq + Hash>(
    places: &mut IndexMap<K, usize>,
    item: K,
    place: usize,
) -> Result<(), Memory>
    ensures { OnOk result ((before : List K) → length before ≡ place → ArePlaces K.eq before places.old
        → ArePlaces K.eq (before ++ item ∷ []) places.new) }
{
    match places.get(&item) {
        Some(_first) => Ok(()),
        None => {
            places.insert(item, place)?;
            Ok(())
        }
    }
}

/// From each of the items to its first place in the list.
pub fn first_places<K: Copy + Eq + Hash>(
    alloc: Global,
    items: &[K],
) -> Result<IndexMap<K, usize>, Memory>
    ensures { IfOk result (λ places. ArePlaces K.eq items.now places) }
{
    let mut places = IndexMap::new(alloc);
    for (i, item) in items.iter().enumerate() {
        note(&mut places, *item, i)?;
    }
    Ok(places)
}
