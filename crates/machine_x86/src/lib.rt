//! The machine x86-64 of a link (psABI, "Relocation Types" and "Procedure Linkage Table").
#![tactic(auto)]

ghost use Rattle.link_machine.specs.X86.{x86_rules};

mod plt;
mod table;

use link_machine::{DynamicTypes, Machine, PatchCause, RefClass, Values, patch_by, value_by};

/// x86-64.
#[derive(Clone, Copy, Debug)]
pub struct X86;

impl Machine for X86 {
    ghost rules = { x86_rules };

    fn number(&self) -> u16 {
        62
    }

    fn page(&self) -> u64 {
        4096
    }

    fn class(&self, kind: u32) -> Option<RefClass> {
        match table::rule(kind) {
            Some(rule) => Some(rule.class),
            None => None,
        }
    }

    fn width(&self, kind: u32) -> u64 {
        match table::rule(kind) {
            Some(rule) => rule.size,
            None => 0,
        }
    }

    fn dynamic(&self) -> DynamicTypes {
        DynamicTypes {
            abs64: 1,
            glob_dat: 6,
            jump_slot: 7,
            relative: 8,
            dtpmod64: 16,
            dtpoff64: 17,
            tpoff64: 18,
            tlsdesc: 36,
        }
    }

    fn value(&self, kind: u32, values: &Values) -> i128 {
        match table::rule(kind) {
            Some(rule) => value_by(rule.formula, values),
            None => 0,
        }
    }

    fn patch(&self, kind: u32, value: i128, old: u64) -> Result<u64, PatchCause> {
        match table::rule(kind) {
            Some(rule) => patch_by(&rule, value, old),
            None => Ok(old),
        }
    }

    fn header_len(&self) -> u64 {
        16
    }

    fn plt_header(&self, at: u64, got_plt: u64) -> [u8; 32] {
        plt::header(at, got_plt)
    }

    fn plt_entry(&self, at: u64, slot: u64, header: u64, index: u32) -> [u8; 16] {
        plt::entry(at, slot, header, index)
    }
}

#[cfg(test)]
mod tests;
