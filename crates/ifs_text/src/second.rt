//! Names that stand twice.

ghost use Rattle.std.specs.Prelude.{◌≡◌, IfOk};
ghost use Rattle.std.specs.Option.{option_copied};
ghost use Rattle.ifs_interface.specs.Interface.{names_of};
ghost use Rattle.ifs_text.specs.Text.{second};

use ifs_bytes::{Memory, Text};
use ifs_interface::Symbol;
use std::alloc::Global;
use std::collections::BTreeSet;

/// The first name that a symbol before has too, where there is one; in a time of n log n for n symbols.
#[tactic(auto, unfolding(crate::specs::Text::second))]
pub(crate) fn second<'a>(alloc: Global, symbols: &'a [Symbol]) -> Result<Option<&'a Text>, Memory>
    ensures { IfOk result (λ name. option_copied name ≡ second (names_of symbols.now)) }
{
    let mut seen = BTreeSet::new(alloc);
    for symbol in symbols {
        if !seen.insert(symbol.name.as_bytes())? {
            return Ok(Some(&symbol.name));
        }
    }
    Ok(None)
}
