//! The machine AArch64 of a link (ELF for the Arm 64-bit Architecture, LP64).
#![tactic(auto)]

mod plt;
mod table;
#[cfg(test)]
mod tests;

ghost use Rattle.link_machine.specs.A64.{a64_rules};

use link_machine::{DynamicTypes, Machine, PatchCause, RefClass, Values, patch_by, value_by};

/// AArch64.
#[derive(Clone, Copy, Debug)]
pub struct A64;

impl Machine for A64 {
    ghost rules = { a64_rules };

    fn number(&self) -> u16 {
        183
    }

    fn page(&self) -> u64 {
        65536
    }

    fn class(&self, kind: u32) -> Option<RefClass> {
        match table::rule(kind) {
            Some(rule) => Some(rule.class),
            None => None,
        }
    }

    fn width(&self, kind: u32) -> u64 {
        match table::rule(kind) {
            Some(rule) => rule.size,
            None => 0,
        }
    }

    fn dynamic(&self) -> DynamicTypes {
        DynamicTypes {
            abs64: 257,
            glob_dat: 1025,
            jump_slot: 1026,
            relative: 1027,
            dtpmod64: 1028,
            dtpoff64: 1029,
            tpoff64: 1030,
            tlsdesc: 1031,
        }
    }

    fn value(&self, kind: u32, values: &Values) -> i128 {
        match table::rule(kind) {
            Some(rule) => value_by(rule.formula, values),
            None => 0,
        }
    }

    fn patch(&self, kind: u32, value: i128, old: u64) -> Result<u64, PatchCause> {
        match table::rule(kind) {
            Some(rule) => patch_by(&rule, value, old),
            None => Ok(old),
        }
    }

    fn header_len(&self) -> u64 {
        32
    }

    fn plt_header(&self, at: u64, got_plt: u64) -> [u8; 32] {
        plt::header(at, got_plt)
    }

    fn plt_entry(&self, at: u64, slot: u64, _header: u64, _index: u32) -> [u8; 16] {
        plt::entry(at, slot)
    }
}
