//! What each slot holds, by what is made and by what its symbol is.

ghost use Rattle.std.specs.Prelude.{◌≡◌, false, true};
ghost use Rattle.link_core.specs.Slots as meant;
ghost use Rattle.link_slots.specs.Seen.{slots_of};

use crate::words::{Fill, Fills, Slots, Word, Words};
use link_core::{OutKind, RefState, Slot};
use link_machine::DynamicTypes;

// A slot that is 0 in the file.
const EMPTY: Words = Words::Single(Word::Nought);

// A pair that is 0 in the file.
const EMPTY_PAIR: Words = Words::Pair(Word::Nought, Word::Nought);

// Words that stand as they are.
fn held(words: Words) -> Slots
    ensures { result ≡ slots_of words Fills.Nothing }
{
    Slots::of(words, Fills::Nothing)
}

// Words that one dynamic relocation fills.
fn filled(words: Words, fill: Fill) -> Slots
    ensures { result ≡ slots_of words (Fills.Single fill) }
{
    Slots::of(words, Fills::Single(fill))
}

// A dynamic relocation that looks the symbol up.
fn named(kind: u32, word: u8) -> Fill
    ensures { result ≡ record { kind = kind; word = word; named = true; addend = Word.Nought } }
{
    Fill {
        kind,
        word,
        named: true,
        addend: Word::Nought,
    }
}

// A dynamic relocation of the first word that looks nothing up.
fn plain(kind: u32, addend: Word) -> Fill
    ensures { result ≡ record { kind = kind; word = 0; named = false; addend = addend } }
{
    Fill {
        kind,
        word: 0,
        named: false,
        addend,
    }
}

// The address of a symbol, which moves with the file but in a program at fixed addresses.
#[tactic(auto, unfolding(link_core::specs::Slots::got_slot))]
fn got_slot(types: &DynamicTypes, kind: OutKind, state: RefState) -> Slots
    ensures { result ≡ meant.got_slot types.now kind state }
{
    match state {
        RefState::Own => match kind {
            OutKind::Exec => held(Words::Single(Word::Address)),
            OutKind::Pie | OutKind::Shared => filled(EMPTY, plain(types.relative, Word::Address)),
        },
        RefState::Abs | RefState::Zero => held(Words::Single(Word::Address)),
        RefState::Imp => filled(EMPTY, named(types.glob_dat, 0)),
    }
}

// The distance from the thread pointer, which is known in a program.
#[tactic(auto, unfolding(link_core::specs::Slots::tp_slot))]
fn tp_slot(types: &DynamicTypes, kind: OutKind, state: RefState) -> Slots
    ensures { result ≡ meant.tp_slot types.now kind state }
{
    match state {
        RefState::Own => match kind {
            OutKind::Exec | OutKind::Pie => held(Words::Single(Word::FromPointer)),
            OutKind::Shared => filled(EMPTY, plain(types.tpoff64, Word::InBlock)),
        },
        RefState::Abs | RefState::Zero => held(EMPTY),
        RefState::Imp => filled(EMPTY, named(types.tpoff64, 0)),
    }
}

// The module and the offset in its block. A program is module 1.
#[tactic(auto, unfolding(link_core::specs::Slots::tls_pair))]
fn tls_pair(types: &DynamicTypes, kind: OutKind, state: RefState) -> Slots
    ensures { result ≡ meant.tls_pair types.now kind state }
{
    match state {
        RefState::Own => match kind {
            OutKind::Exec | OutKind::Pie => held(Words::Pair(Word::One, Word::InBlock)),
            OutKind::Shared => {
                let fill = plain(types.dtpmod64, Word::Nought);
                filled(Words::Pair(Word::Nought, Word::InBlock), fill)
            }
        },
        RefState::Abs | RefState::Zero => held(EMPTY_PAIR),
        RefState::Imp => {
            let module = named(types.dtpmod64, 0);
            let offset = named(types.dtpoff64, 1);
            Slots::of(EMPTY_PAIR, Fills::Pair(module, offset))
        }
    }
}

// The own module and the offset 0.
#[tactic(auto, unfolding(link_core::specs::Slots::module_pair))]
fn module_pair(types: &DynamicTypes, kind: OutKind) -> Slots
    ensures { result ≡ meant.module_pair types.now kind }
{
    match kind {
        OutKind::Exec | OutKind::Pie => held(Words::Pair(Word::One, Word::Nought)),
        OutKind::Shared => filled(EMPTY_PAIR, plain(types.dtpmod64, Word::Nought)),
    }
}

// A descriptor.
#[tactic(auto, unfolding(link_core::specs::Slots::desc_pair))]
fn desc_pair(types: &DynamicTypes, state: RefState) -> Slots
    ensures { result ≡ meant.desc_pair types.now state }
{
    match state {
        RefState::Own => filled(EMPTY_PAIR, plain(types.tlsdesc, Word::InBlock)),
        RefState::Abs | RefState::Zero => held(EMPTY_PAIR),
        RefState::Imp => filled(EMPTY_PAIR, named(types.tlsdesc, 0)),
    }
}

/// What a slot or a pair of .got holds for a symbol in a state, and what fills it.
#[tactic(auto, unfolding(link_core::specs::Slots::slots_for))]
pub fn slots_for(types: &DynamicTypes, kind: OutKind, state: RefState, slot: Slot) -> Slots
    ensures { result ≡ meant.slots_for types.now kind state slot }
{
    match slot {
        Slot::Got => got_slot(types, kind, state),
        Slot::Tp => tp_slot(types, kind, state),
        Slot::TlsPair => tls_pair(types, kind, state),
        Slot::Module => module_pair(types, kind),
        Slot::Desc => desc_pair(types, state),
    }
}
