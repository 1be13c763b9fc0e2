//! The relocation types.

ghost use Rattle.std.specs.Prelude.{◌≡◌, ◌<◌, true, IfSome};
ghost use Rattle.link_machine.specs.A64.{a64_table, adrp, add12, load8};
ghost use Rattle.link_machine.specs.Patch.{is_rule_sound};
ghost use Rattle.link_machine.specs.Table.{row, rule_in, bits, part, adr};

use link_machine::Field::Unchanged;
use link_machine::Formula::{
    CallFromPlace, Slot, SlotPageFromPlace, Symbol, SymbolFromPlace, SymbolPageFromPlace,
    ThreadPointer, Zero,
};
use link_machine::Range::{Any, Within};
use link_machine::RefClass::{Abs32, Abs64, Call, Desc, Got, Ie, Le, Nothing, Pc};
use link_machine::{Bits, Field, Formula, Range, RefClass, Rule};

// The numbers that so many bits hold with a sign, without one, and with or without one.

const SIGNED_16: Range = Within(-0x8000, 0x8000);

const SIGNED_21: Range = Within(-0x10_0000, 0x10_0000);

const SIGNED_28: Range = Within(-0x800_0000, 0x800_0000);

const SIGNED_33: Range = Within(-0x1_0000_0000, 0x1_0000_0000);

const UNSIGNED_12: Range = Within(0, 0x1000);

const UNSIGNED_24: Range = Within(0, 0x100_0000);

const EITHER_32: Range = Within(-0x8000_0000, 0x1_0000_0000);

/// The bits `[high:low]` of a value, which go into a field from its bit `at` on.
fn bits(high: u32, low: u32, at: u32) -> Bits
    ensures { result ≡ bits high low at }
{
    Bits { high, low, at }
}

/// A field of one such run.
fn part(high: u32, low: u32, at: u32) -> Field
    ensures { result ≡ part high low at }
{
    Field::One(bits(high, low, at))
}

/// The field of ADR and ADRP, for 21 bits of the value from the bit `low` on.
fn adr(low: u32) -> Field
    requires { low < 32 }
    ensures { result ≡ adr low }
{
    Field::Two(bits(low + 1, low, 29), bits(low + 20, low + 2, 5))
}

/// The distance of pages in ADRP.
pub fn adrp() -> Field
    ensures { result ≡ adrp }
{
    adr(12)
}

/// The lowest 12 bits in ADD.
pub fn add12() -> Field
    ensures { result ≡ add12 }
{
    part(11, 0, 10)
}

/// The lowest 12 bits in a load of 8 bytes, a multiple of 8.
pub fn load8() -> Field
    ensures { result ≡ load8 }
{
    part(11, 3, 10)
}

/// A row of the table: what a type asks for, its value, the size of its field in bytes, the bits there, the
/// values that it takes, and what they are multiples of.
fn row(
    class: RefClass,
    formula: Formula,
    size: u64,
    field: Field,
    range: Range,
    multiple: u32,
) -> Rule
    ensures { result ≡ (row 0 class formula size field range multiple).1 }
{
    Rule {
        class,
        formula,
        size,
        field,
        range,
        multiple,
    }
}

/// The rule of a relocation type; None exactly for a type that isn't in the table.
pub fn rule(kind: u32) -> Option<Rule>
    ensures row { result ≡ rule_in a64_table kind }
    ensures sound { IfSome result (λ r. is_rule_sound r ≡ true) }
{
    Some(match kind {
        0 | 256 => row(Nothing, Zero, 0, Unchanged, Any, 1),
        257 => row(Abs64, Symbol, 8, part(63, 0, 0), Any, 1),
        258 => row(Abs32, Symbol, 4, part(31, 0, 0), EITHER_32, 1),
        260 => row(Pc, SymbolFromPlace, 8, part(63, 0, 0), Any, 1),
        261 => row(Pc, SymbolFromPlace, 4, part(31, 0, 0), EITHER_32, 1),
        273 => row(Pc, SymbolFromPlace, 4, part(20, 2, 5), SIGNED_21, 4),
        274 => row(Pc, SymbolFromPlace, 4, adr(0), SIGNED_21, 1),
        275 => row(Pc, SymbolPageFromPlace, 4, adrp(), SIGNED_33, 1),
        276 => row(Pc, SymbolPageFromPlace, 4, adrp(), Any, 1),
        277 | 278 => row(Pc, Symbol, 4, add12(), Any, 1),
        279 => row(Call, CallFromPlace, 4, part(15, 2, 5), SIGNED_16, 4),
        280 => row(Call, CallFromPlace, 4, part(20, 2, 5), SIGNED_21, 4),
        282 | 283 => row(Call, CallFromPlace, 4, part(27, 2, 0), SIGNED_28, 4),
        284 => row(Pc, Symbol, 4, part(11, 1, 10), Any, 2),
        285 => row(Pc, Symbol, 4, part(11, 2, 10), Any, 4),
        286 => row(Pc, Symbol, 4, part(11, 3, 10), Any, 8),
        299 => row(Pc, Symbol, 4, part(11, 4, 10), Any, 16),
        311 => row(Got, SlotPageFromPlace, 4, adrp(), SIGNED_33, 1),
        312 => row(Got, Slot, 4, load8(), Any, 8),
        541 => row(Ie, SlotPageFromPlace, 4, adrp(), SIGNED_33, 1),
        542 => row(Ie, Slot, 4, load8(), Any, 8),
        549 => row(Le, ThreadPointer, 4, part(23, 12, 10), UNSIGNED_24, 1),
        550 => row(Le, ThreadPointer, 4, add12(), UNSIGNED_12, 1),
        551 => row(Le, ThreadPointer, 4, add12(), Any, 1),
        562 => row(Desc, SlotPageFromPlace, 4, adrp(), SIGNED_33, 1),
        563 => row(Desc, Slot, 4, load8(), Any, 8),
        564 => row(Desc, Slot, 4, add12(), Any, 1),
        569 => row(Desc, Zero, 4, Unchanged, Any, 1),
        _ => return None,
    })
}
