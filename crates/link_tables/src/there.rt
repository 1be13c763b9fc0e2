//! Which of the tables that need not be there are.

ghost use Rattle.std.specs.Prelude.{◌≡◌, ◌||◌, nat_lt};
ghost use Rattle.link_core.specs.Entries.{rela_dyn_count};
ghost use Rattle.link_core.specs.Planned.{Planned};
ghost use Rattle.link_core.specs.Slots.{word_count};

use crate::fills::{fills_in, words_in};
use elf_object::Object;
use link_core::{NameRow, OutKind, Plan};

/// Whether .got has words.
#[tactic(auto, using(crate::proofs::TablesThere::words_there))]
pub fn has_words(p: &Plan) -> bool
    ensures { (j : Planned) → j.plan ≡ p.now → result ≡ nat_lt 0 (word_count j) }
{
    words_in(p.got.as_slice()) > 0
}

// Whether one of the two holds.
fn either(one: bool, other: bool) -> bool
    ensures { result ≡ (one || other) }
{
    one || other
}

/// Whether there are dynamic relocations besides those of .plt.
pub fn has_moves(objects: &[Object], names: &[NameRow], kind: OutKind, p: &Plan) -> bool
    ensures { (j : Planned) → j.objects ≡ objects.now → j.names.names ≡ names.now → j.options.kind ≡ kind
        → j.plan ≡ p.now → result ≡ nat_lt 0 (rela_dyn_count j) }
{
    let moves = p.moves.as_slice().len() > 0;
    let fills = fills_in(objects, names, kind, p.got.as_slice()) > 0;
    either(moves, fills)
}
