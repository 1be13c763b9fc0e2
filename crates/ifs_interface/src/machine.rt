//! What a target or a triple says of a machine.

ghost use Rattle.std.specs.Prelude.{◌≡◌, ◌==◌, Some, drop, position};
ghost use Rattle.ifs_interface.specs.Triple.{same_name, triple_machines, fact_among, is_x32, parts_of_triple};
ghost use Rattle.ifs_interface.specs.Parts.{parts_of};

use crate::target::{MachineFact, Target};
use ifs_bytes::{Order, Width};

/// The machine, byte order and width that a target triple gives by its part before the first dash, as
/// `x86_64-unknown-linux-gnu`; None exactly where there is no such part, it isn't known, or the triple is of x32.
#[tactic(auto, unfolding(crate::specs::Triple::parts_of_triple))]
pub fn triple_parts(triple: &[u8]) -> Option<MachineFact>
    ensures { result ≡ parts_of_triple triple.now }
{
    if is_x32(triple) {
        return None;
    }
    match dash_at(triple) {
        Some(end) => machine_named(&triple[..end]),
        None => None,
    }
}

/// The machine, byte order and width that a target gives: those of its triple, else its own fields.
pub fn parts(target: &Target) -> MachineFact
    ensures { result ≡ parts_of target.now }
{
    let own = MachineFact {
        machine: target.machine,
        order: target.order,
        width: target.width,
    };
    match &target.triple {
        Some(triple) => triple_parts(triple.as_bytes()).unwrap_or(own),
        None => own,
    }
}

// Whether the triple is of x32, the machine of x86-64 with words of 32 bits, which isn't known.
fn is_x32(triple: &[u8]) -> bool
    ensures { result ≡ is_x32 triple.now }
{
    triple.ends_with(b"gnux32")
}

// The place of the first dash.
fn dash_at(triple: &[u8]) -> Option<usize>
    ensures { result ≡ position (λ b. b == 45) triple.now }
{
    triple.iter().position(|b| *b == b'-')
}

// What the first part of a triple stands for.
#[tactic(auto, unfolding(crate::specs::Triple::triple_machines))]
fn machine_named(name: &[u8]) -> Option<MachineFact>
    ensures { result ≡ fact_among (drop 0 triple_machines) name.now }
{
    if is_name(name, b"x86_64") {
        return known(62, Order::Little, Width::W64);
    }
    if is_name(name, b"i386")
        || is_name(name, b"i486")
        || is_name(name, b"i586")
        || is_name(name, b"i686")
    {
        return known(3, Order::Little, Width::W32);
    }
    arm_named(name)
}

// The same, where it is none of the x86 machines.
#[tactic(auto, unfolding(crate::specs::Triple::triple_machines))]
fn arm_named(name: &[u8]) -> Option<MachineFact>
    ensures { result ≡ fact_among (drop 5 triple_machines) name.now }
{
    if is_name(name, b"aarch64") || is_name(name, b"arm64") {
        return known(183, Order::Little, Width::W64);
    }
    if is_name(name, b"aarch64_be") {
        return known(183, Order::Big, Width::W64);
    }
    if is_name(name, b"arm")
        || is_name(name, b"armv6")
        || is_name(name, b"armv7")
        || is_name(name, b"armv7a")
        || is_name(name, b"thumbv7")
    {
        return known(40, Order::Little, Width::W32);
    }
    if is_name(name, b"armeb") {
        return known(40, Order::Big, Width::W32);
    }
    other_named(name)
}

// The same, where it is none of the ARM machines either.
#[tactic(auto, unfolding(crate::specs::Triple::triple_machines))]
fn other_named(name: &[u8]) -> Option<MachineFact>
    ensures { result ≡ fact_among (drop 14 triple_machines) name.now }
{
    if is_name(name, b"riscv32") {
        return known(243, Order::Little, Width::W32);
    }
    if is_name(name, b"riscv64") {
        return known(243, Order::Little, Width::W64);
    }
    if is_name(name, b"powerpc") {
        return known(20, Order::Big, Width::W32);
    }
    if is_name(name, b"powerpc64") {
        return known(21, Order::Big, Width::W64);
    }
    if is_name(name, b"powerpc64le") {
        return known(21, Order::Little, Width::W64);
    }
    last_named(name)
}

// The same, for the machines at the end of the table.
#[tactic(auto, unfolding(crate::specs::Triple::triple_machines))]
fn last_named(name: &[u8]) -> Option<MachineFact>
    ensures { result ≡ fact_among (drop 19 triple_machines) name.now }
{
    if is_name(name, b"mips") {
        return known(8, Order::Big, Width::W32);
    }
    if is_name(name, b"mipsel") {
        return known(8, Order::Little, Width::W32);
    }
    if is_name(name, b"s390x") {
        return known(22, Order::Big, Width::W64);
    }
    if is_name(name, b"sparc") {
        return known(2, Order::Big, Width::W32);
    }
    if is_name(name, b"sparcv9") {
        return known(43, Order::Big, Width::W64);
    }
    None
}

// Whether a name is a known one.
fn is_name(name: &[u8], known: &[u8]) -> bool
    ensures { result ≡ same_name known.now name.now }
{
    known == name
}

// A machine, byte order and width that are all known.
fn known(machine: u16, order: Order, width: Width) -> Option<MachineFact>
    ensures { result ≡ Some (record { machine = Some machine; order = Some order; width = Some width }) }
{
    Some(MachineFact {
        machine: Some(machine),
        order: Some(order),
        width: Some(width),
    })
}
