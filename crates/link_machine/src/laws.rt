//! Laws of a patch. The functions do nothing: each is there for its clause.

ghost use Rattle.std.specs.Prelude.{◌≡◌, ◌^◌, ◌<◌, pos, true};
ghost use Rattle.link_machine.specs.Laws.{IsReadBack, KeepsOtherBits, LaterStands, field_read, is_joined, lowest, top, with_sign};
ghost use Rattle.link_machine.specs.Patch.{is_multiple, is_sound, is_within, patched};
ghost use Rattle.link_machine.specs.Table.{signed, unsigned};

use crate::rule::Field;

/// A patch changes only the bits of its field.
#[tactic(auto, using(crate::proofs::PatchLaws::keeps_other_bits))]
pub fn patch_keeps_other_bits(field: Field, value: i128, old: u64)
    ensures { KeepsOtherBits field value old }
{}

/// Of two patches of a field the later one stands. So to patch twice is to patch once.
#[tactic(auto, using(crate::proofs::PatchLaws::later_stands))]
pub fn later_patch_stands(field: Field, later: i128, earlier: i128, old: u64)
    ensures { LaterStands field later earlier old }
{}

/// The bits of a value that a field has room for are read back from it, where the bits below them are 0.
#[tactic(auto, using(crate::proofs::ReadBack::read_back))]
pub fn value_is_read_back(field: Field, value: i128, old: u64)
    requires sound { is_sound 8 field ≡ true }
    requires joined { is_joined field ≡ true }
    requires whole { is_multiple (2 ^ lowest field) value ≡ true }
    ensures { IsReadBack field value old }
{}

/// A value that the field holds with a sign is read back whole.
pub fn signed_value_is_read_back(field: Field, value: i128, old: u64)
    requires sound { is_sound 8 field ≡ true }
    requires joined { is_joined field ≡ true }
    requires whole { is_multiple (2 ^ lowest field) value ≡ true }
    requires some { 0 < top field }
    requires fits { is_within (signed (top field)) value ≡ true }
    ensures { with_sign (top field) (field_read field (patched field value old)) ≡ value }
{
    value_is_read_back(field, value, old);
}

/// A value that the field holds without a sign is read back whole.
#[tactic(auto, using(crate::proofs::Sign::unsigned_read))]
pub fn unsigned_value_is_read_back(field: Field, value: i128, old: u64)
    requires sound { is_sound 8 field ≡ true }
    requires joined { is_joined field ≡ true }
    requires whole { is_multiple (2 ^ lowest field) value ≡ true }
    requires fits { is_within (unsigned (top field)) value ≡ true }
    ensures { pos (field_read field (patched field value old)) ≡ value }
{
    value_is_read_back(field, value, old);
}
