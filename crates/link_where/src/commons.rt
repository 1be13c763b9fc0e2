//! Where the common symbols of a layout stand.

ghost use Rattle.std.specs.Prelude.{◌≡◌, IfOk, List, OnOk, ◌∷◌};
ghost use Rattle.link_where.specs.Commons as meant;

use ifs_bytes::Memory;
use indexmap::IndexMap;
use link_core::{CommonAt, Layout};
use std::alloc::Global;
use std::marker::Model;

/// The common symbols of a layout, found by the positions of their names.
#[derive(Drop)]
pub struct Commons<'a> {
    commons: &'a [CommonAt],
    found: IndexMap<u64, CommonAt>,
}

impl<'a> Model for Commons<'a> {
    ghost use Rattle.std.specs.Prelude.{List as CommonsList};
    ghost use Rattle.link_core.specs.declared.layout.CommonAt.{CommonAt as CommonSeen};
    ghost use Rattle.link_where.specs.Commons.{AreFound};

    ghost Value = { CommonsList CommonSeen };

    ghost view = { λ c. c.commons.now };

    ghost invariant = { λ c. AreFound c.commons.now c.found };
}

// Notes a common symbol, in place of what was noted before for the same name.
fn note(found: &mut IndexMap<u64, CommonAt>, common: &CommonAt) -> Result<(), Memory>
    ensures { OnOk result ((commons : List CommonAt) → meant.AreFound commons found.old
        → meant.AreFound (common.now ∷ commons) found.new) }
{
    found.insert(common.name, *common)?;
    Ok(())
}

// From each name to the first common symbol of it.
fn first_commons(alloc: Global, commons: &[CommonAt]) -> Result<IndexMap<u64, CommonAt>, Memory>
    ensures { IfOk result (λ found. meant.AreFound commons.now found) }
{
    let mut found = IndexMap::new(alloc);
    let count = commons.len();
    for i in 0..count {
        note(&mut found, &commons[count - 1 - i])?;
    }
    Ok(found)
}

impl<'a> Commons<'a> {
    /// The common symbols of a layout.
    pub fn of(alloc: Global, l: &'a Layout) -> Result<Commons<'a>, Memory>
        ensures { IfOk result (λ commons. commons ≡ l.now.commons) }
    {
        let commons = l.commons.as_slice();
        let found = first_commons(alloc, commons)?;
        Ok(Commons { commons, found })
    }

    /// The address of the common symbol whose name is at this position, 0 where there is none.
    pub fn address(&self, name: u64) -> u64
        ensures { result ≡ meant.address_in self.now name }
    {
        match self.found.get(&name) {
            Some(common) => common.address,
            None => 0,
        }
    }
}
