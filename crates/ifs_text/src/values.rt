//! The values of a text: which forms they have, and what they stand for.

ghost use Rattle.std.specs.Prelude.{◌≡◌, ◌==◌};
ghost use Rattle.std.specs.List.{list_any};
ghost use Rattle.std.specs.Option.{option_copied};
ghost use Rattle.ifs_bytes.specs.Numeral.{in_64_bits};
ghost use Rattle.ifs_interface.specs.Interface.{is_proper_name};
ghost use Rattle.yaml_nodes.specs.Nodes.{text_of};
ghost use Rattle.ifs_text.specs.Values.{among, orders, widths, kinds, truths, number_named, proper, name_in, machine_in, order_in, width_in, kind_in, size_in, truth_in};

use crate::maps::is;
use ifs_bytes::{Order, Width, number_of};
use ifs_interface::{Kind, arch_of};
use yaml_profile::Node;

// Whether a NUL stands in a name.
fn has_nul(name: &[u8]) -> bool
    ensures { result ≡ list_any (λ c. c == 0) name.now }
{
    name.contains(&0)
}

// Whether a name has a byte and no NUL.
#[tactic(auto, using(crate::proofs::Proper::proper_some))]
fn is_proper_name(name: &[u8]) -> bool
    ensures { result ≡ is_proper_name name.now }
{
    !name.is_empty() && !has_nul(name)
}

/// A proper name.
#[tactic(auto, unfolding(crate::specs::Values::name_in))]
pub(crate) fn name_in<'a>(node: &'a Node<'_>) -> Option<&'a [u8]>
    ensures { option_copied result ≡ name_in node.now }
{
    let name = node.as_scalar()?;
    if is_proper_name(name) {
        Some(name)
    } else {
        None
    }
}

/// The machine that a name stands for.
#[tactic(auto, unfolding(crate::specs::Values::machine_in))]
pub(crate) fn machine_in(node: &Node) -> Option<u16>
    ensures { result ≡ machine_in node.now }
{
    arch_of(node.as_scalar()?)
}

/// A byte order.
#[tactic(auto, unfolding(crate::specs::Values::order_in))]
pub(crate) fn order_in(node: &Node) -> Option<Order>
    ensures { result ≡ order_in node.now }
{
    order_named(node.as_scalar()?)
}

#[tactic(auto, unfolding(crate::specs::Values::orders))]
fn order_named(text: &[u8]) -> Option<Order>
    ensures { result ≡ among orders text.now }
{
    if is(text, b"little") {
        return Some(Order::Little);
    }
    if is(text, b"big") {
        return Some(Order::Big);
    }
    None
}

/// A width in bits.
#[tactic(auto, unfolding(crate::specs::Values::width_in))]
pub(crate) fn width_in(node: &Node) -> Option<Width>
    ensures { result ≡ width_in node.now }
{
    width_named(node.as_scalar()?)
}

#[tactic(auto, unfolding(crate::specs::Values::widths))]
fn width_named(text: &[u8]) -> Option<Width>
    ensures { result ≡ among widths text.now }
{
    if is(text, b"32") {
        return Some(Width::W32);
    }
    if is(text, b"64") {
        return Some(Width::W64);
    }
    None
}

/// The type of a symbol.
#[tactic(auto, unfolding(crate::specs::Values::kind_in))]
pub(crate) fn kind_in(node: &Node) -> Option<Kind>
    ensures { result ≡ kind_in node.now }
{
    kind_named(node.as_scalar()?)
}

#[tactic(auto, unfolding(crate::specs::Values::kinds))]
fn kind_named(text: &[u8]) -> Option<Kind>
    ensures { result ≡ among kinds text.now }
{
    if is(text, b"NoType") {
        return Some(Kind::NoType);
    }
    if is(text, b"Func") {
        return Some(Kind::Func);
    }
    if is(text, b"Object") {
        return Some(Kind::Object);
    }
    if is(text, b"TLS") {
        return Some(Kind::Tls);
    }
    if is(text, b"Unknown") {
        return Some(Kind::Unknown);
    }
    None
}

/// A size.
#[tactic(auto, unfolding(crate::specs::Values::size_in))]
pub(crate) fn size_in(node: &Node) -> Option<u64>
    ensures { result ≡ size_in node.now }
{
    size_named(node.as_scalar()?)
}

// The number of decimal digits, or of hexadecimal ones behind `0x`.
fn size_named(text: &[u8]) -> Option<u64>
    ensures { result ≡ in_64_bits (number_named text.now) }
{
    match text {
        [b'0', b'x', digits @ ..] => number_of(digits, 16),
        _ => number_of(text, 10),
    }
}

/// A truth value.
#[tactic(auto, unfolding(crate::specs::Values::truth_in))]
pub(crate) fn truth_in(node: &Node) -> Option<bool>
    ensures { result ≡ truth_in node.now }
{
    truth_named(node.as_scalar()?)
}

#[tactic(auto, unfolding(crate::specs::Values::truths))]
fn truth_named(text: &[u8]) -> Option<bool>
    ensures { result ≡ among truths text.now }
{
    if is(text, b"true") || is(text, b"True") || is(text, b"TRUE") {
        return Some(true);
    }
    if is(text, b"false") || is(text, b"False") || is(text, b"FALSE") {
        return Some(false);
    }
    None
}
