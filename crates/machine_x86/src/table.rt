//! The relocation types.

ghost use Rattle.std.specs.Prelude.{◌≡◌, true, IfSome};
ghost use Rattle.link_machine.specs.Patch.{is_rule_sound};
ghost use Rattle.link_machine.specs.Table.{row, rule_in, whole};
ghost use Rattle.link_machine.specs.X86.{x86_table};
ghost use Rattle.link_machine.specs.declared.class.RefClass.TheVariants.{Nothing};
ghost use Rattle.link_machine.specs.declared.rule.Field.TheVariants.{Unchanged};
ghost use Rattle.link_machine.specs.declared.rule.Formula.TheVariants.{Zero};
ghost use Rattle.link_machine.specs.declared.rule.Range.TheVariants.{Any};

use link_machine::{Bits, Field, Formula, Range, RefClass, Rule};

/// The numbers that 32 bits hold with a sign.
const SIGNED_32: Range = Range::Within(-0x8000_0000, 0x8000_0000);

/// The numbers that 32 bits hold without a sign.
const UNSIGNED_32: Range = Range::Within(0, 0x1_0000_0000);

/// A row whose field has no bits.
fn unchanged() -> Rule
    ensures { result ≡ (row 0 Nothing Zero 0 Unchanged Any 1).1 }
{
    Rule {
        class: RefClass::Nothing,
        formula: Formula::Zero,
        size: 0,
        field: Field::Unchanged,
        range: Range::Any,
        multiple: 1,
    }
}

/// A row whose field is one of 8 bytes, which takes its value modulo 2^64.
fn long(class: RefClass, formula: Formula) -> Rule
    ensures { result ≡ (row 0 class formula 8 (whole 64) Any 1).1 }
{
    Rule {
        class,
        formula,
        size: 8,
        field: Field::One(Bits {
            high: 63,
            low: 0,
            at: 0,
        }),
        range: Range::Any,
        multiple: 1,
    }
}

/// A row whose field is one of 4 bytes.
fn word(class: RefClass, formula: Formula, range: Range) -> Rule
    ensures { result ≡ (row 0 class formula 4 (whole 32) range 1).1 }
{
    Rule {
        class,
        formula,
        size: 4,
        field: Field::One(Bits {
            high: 31,
            low: 0,
            at: 0,
        }),
        range,
        multiple: 1,
    }
}

/// The rule of a relocation type; None exactly for a type that isn't in the table.
pub fn rule(kind: u32) -> Option<Rule>
    ensures row { result ≡ rule_in x86_table kind }
    ensures sound { IfSome result (λ r. is_rule_sound r ≡ true) }
{
    match kind {
        0 => Some(unchanged()),
        1 => Some(long(RefClass::Abs64, Formula::Symbol)),
        2 => Some(word(RefClass::Pc, Formula::SymbolFromPlace, SIGNED_32)),
        4 => Some(word(RefClass::Call, Formula::CallFromPlace, SIGNED_32)),
        9 | 41 | 42 => Some(word(RefClass::Got, Formula::SlotFromPlace, SIGNED_32)),
        10 => Some(word(RefClass::Abs32, Formula::Symbol, UNSIGNED_32)),
        11 => Some(word(RefClass::Abs32, Formula::Symbol, SIGNED_32)),
        17 => Some(long(RefClass::Dtp, Formula::Offset)),
        19 => Some(word(RefClass::Gd, Formula::SlotFromPlace, SIGNED_32)),
        20 => Some(word(RefClass::Ld, Formula::SlotFromPlace, SIGNED_32)),
        21 => Some(word(RefClass::Dtp, Formula::Offset, SIGNED_32)),
        22 => Some(word(RefClass::Ie, Formula::SlotFromPlace, SIGNED_32)),
        23 => Some(word(RefClass::Le, Formula::ThreadPointer, SIGNED_32)),
        24 => Some(long(RefClass::Pc, Formula::SymbolFromPlace)),
        _ => None,
    }
}
