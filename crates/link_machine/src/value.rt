//! Values of references.

ghost use Rattle.std.specs.Prelude.{◌≡◌, ◌≤ℤ◌, ◌+ℤ◌, ◌-ℤ◌, ◌^◌, pos, neg_ℤ};
ghost use Rattle.link_machine.specs.Values.{meaning, page_of};

use crate::class::Values;
use crate::rule::Formula;

/// The start of the page of an address. Such a page has 4,096 bytes, whatever the machine's own pages.
fn page_start(address: i128) -> i128
    requires low { neg_ℤ (pos (2 ^ 67)) ≤ℤ address }
    requires high { address ≤ℤ pos (2 ^ 67) }
    ensures value { result ≡ page_of address }
    ensures not_above { result ≤ℤ address }
    ensures not_far_below { address ≤ℤ (result +ℤ pos 4095) }
{
    address - address.rem_euclid(4096)
}

/// How far the page of an address is from that of another one, Page(to) - Page(from).
pub fn pages_apart(to: i128, from: i128) -> i128
    requires to_low { neg_ℤ (pos (2 ^ 66)) ≤ℤ to }
    requires to_high { to ≤ℤ pos (2 ^ 66) }
    requires from_low { pos 0 ≤ℤ from }
    requires from_high { from ≤ℤ pos (2 ^ 66) }
    ensures { result ≡ page_of to -ℤ page_of from }
{
    page_start(to) - page_start(from)
}

/// The value that a formula gives. Nothing wraps.
pub fn value_by(formula: Formula, values: &Values) -> i128
    requires tp_low { neg_ℤ (pos (2 ^ 66)) ≤ℤ values.now.tp }
    requires tp_high { values.now.tp ≤ℤ pos (2 ^ 66) }
    ensures { result ≡ meaning formula values.now }
{
    let s = i128::from(values.s);
    let a = i128::from(values.a);
    let p = i128::from(values.p);
    let g = i128::from(values.g);
    match formula {
        Formula::Zero => 0,
        Formula::Symbol => s + a,
        Formula::SymbolFromPlace => s + a - p,
        Formula::SymbolPageFromPlace => pages_apart(s + a, p),
        Formula::CallFromPlace => i128::from(values.l) + a - p,
        Formula::Slot => g,
        Formula::SlotFromPlace => g + a - p,
        Formula::SlotPageFromPlace => pages_apart(g, p),
        Formula::Offset => i128::from(values.off) + a,
        Formula::ThreadPointer => values.tp + a,
    }
}
