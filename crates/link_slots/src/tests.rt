//! The slots of a variable of another module, as a loader for x86-64 wants them.

use crate::cases::slots_for;
use crate::words::{Fills, Words};
use link_core::{OutKind, RefState, Slot};
use link_machine::DynamicTypes;
use std::test::Fail;

/// R_X86_64_64, GLOB_DAT, JUMP_SLOT, RELATIVE, DTPMOD64, DTPOFF64, TPOFF64, TLSDESC.
const X86: DynamicTypes = DynamicTypes {
    abs64: 1,
    glob_dat: 6,
    jump_slot: 7,
    relative: 8,
    dtpmod64: 16,
    dtpoff64: 17,
    tpoff64: 18,
    tlsdesc: 36,
};

// The types and words of the two relocations of a pair, where there are two.
fn pair_fills(types: &DynamicTypes) -> Option<((u32, u8), (u32, u8))> {
    let slots = slots_for(types, OutKind::Shared, RefState::Imp, Slot::TlsPair);
    match (slots.words(), slots.fills()) {
        (Words::Pair(_, _), Fills::Pair(module, offset)) => {
            Some(((module.kind, module.word), (offset.kind, offset.word)))
        }
        _ => None,
    }
}

#[test]
fn module_and_offset_are_looked_up(rt: HostRuntime) -> Result<(), Fail> {
    assert!(rt; pair_fills(&X86) == Some(((16, 0), (17, 1))));
    Ok(())
}
