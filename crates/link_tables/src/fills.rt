//! The words of .got and the dynamic relocations that fill them.

ghost use Rattle.std.specs.Prelude.{◌≡◌, ◌≤◌};
ghost use Rattle.link_tables.specs.Capped.{capped};
ghost use Rattle.link_tables.specs.Fills as meant;

use crate::state::state_of;
use elf_object::Object;
use link_core::{GotSlot, NameRow, OutKind, RefState, Slot};

/// How many words a slot has.
pub fn slot_words(slot: Slot) -> u128
    ensures { result ≡ meant.slot_words slot }
{
    match slot {
        Slot::Got => 1,
        Slot::Tp => 1,
        Slot::TlsPair => 2,
        Slot::Module => 2,
        Slot::Desc => 2,
    }
}

// 1 where the file moves when it is loaded.
fn if_moved(kind: OutKind) -> u128
    ensures { result ≡ meant.if_moved kind }
{
    match kind {
        OutKind::Exec => 0,
        OutKind::Pie => 1,
        OutKind::Shared => 1,
    }
}

// 1 where the module of the file is known only when it is loaded.
fn if_library(kind: OutKind) -> u128
    ensures { result ≡ meant.if_library kind }
{
    match kind {
        OutKind::Exec => 0,
        OutKind::Pie => 0,
        OutKind::Shared => 1,
    }
}

// So many for the made file's own symbol, so many for one of another file.
fn by_state(state: RefState, own: u128, other: u128) -> u128
    ensures { result ≡ meant.by_state state own other }
{
    match state {
        RefState::Own => own,
        RefState::Abs => 0,
        RefState::Zero => 0,
        RefState::Imp => other,
    }
}

// How many dynamic relocations fill a slot.
fn slot_fills(kind: OutKind, state: RefState, slot: Slot) -> u128
    ensures { result ≡ meant.slot_fills kind state slot }
{
    match slot {
        Slot::Got => by_state(state, if_moved(kind), 1),
        Slot::Tp => by_state(state, if_library(kind), 1),
        Slot::TlsPair => by_state(state, if_library(kind), 2),
        Slot::Module => if_library(kind),
        Slot::Desc => by_state(state, 1, 1),
    }
}

/// How many words .got has.
pub fn words_in(got: &[GotSlot]) -> u128
    ensures { result ≡ capped (meant.words_in got.now) }
{
    let mut total = 0u128;
    for slot in got {
        total = total.saturating_add(slot_words(slot.slot));
    }
    total
}

/// How many dynamic relocations fill .got.
pub fn fills_in(objects: &[Object], names: &[NameRow], kind: OutKind, got: &[GotSlot]) -> u128
    ensures { result ≡ capped (meant.fills_in objects.now names.now kind got.now) }
{
    let mut total = 0u128;
    for slot in got {
        let state = state_of(objects, names, slot.symbol);
        total = total.saturating_add(slot_fills(kind, state, slot.slot));
    }
    total
}
