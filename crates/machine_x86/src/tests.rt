//! The bytes of a linkage table, and each relocation type at the ends of its range, worked out from the
//! psABI's formulas.

ghost use Rattle.std.specs.Prelude.{◌<◌, ◌*◌, ◌^◌};
ghost use Rattle.link_machine.specs.Rules.{IsNear};

use crate::X86;
use link_machine::{Machine, PatchCause, RefClass, Values};

/// A type whose field has 4 bytes, the least and the greatest value that it takes, and the field's number
/// with each.
#[derive(Clone, Copy)]
struct Ends {
    kind: u32,
    least: i128,
    greatest: i128,
    with_least: u64,
    with_greatest: u64,
}

/// The numbers that 32 bits hold with a sign.
const fn signed(kind: u32) -> Ends {
    Ends {
        kind,
        least: -2_147_483_648,
        greatest: 2_147_483_647,
        with_least: 0x8000_0000,
        with_greatest: 0x7fff_ffff,
    }
}

/// Those that they hold without one.
const fn unsigned(kind: u32) -> Ends {
    Ends {
        kind,
        least: 0,
        greatest: 4_294_967_295,
        with_least: 0,
        with_greatest: 0xffff_ffff,
    }
}

// These calls have no clause, so that no proof computes them.

fn class(kind: u32) -> Option<RefClass> {
    X86.class(kind)
}

fn header(at: u64, got_plt: u64) -> [u8; 32]
    requires { IsNear at got_plt }
{
    X86.plt_header(at, got_plt)
}

fn entry(at: u64, slot: u64, header: u64, index: u32) -> [u8; 16]
    requires slot { IsNear at slot }
    requires header { IsNear at header }
{
    X86.plt_entry(at, slot, header, index)
}

fn value(kind: u32) -> Option<i128> {
    let values = Values {
        s: 0x40_1000,
        a: -4,
        p: 0x40_2003,
        g: 0x40_3000,
        l: 0x40_4000,
        tp: -24,
        off: 40,
    };
    if X86.class(kind).is_some() {
        Some(X86.value(kind, &values))
    } else {
        None
    }
}

/// The greatest number that a field holds.
#[tactic(auto, using(std::proofs::lemmas::Nat::pow_pos))]
fn ones(width: u64) -> u64
    ensures { result < 2 ^ (8 * width) }
{
    match width {
        8 => u64::MAX,
        4 => 0xffff_ffff,
        _ => 0,
    }
}

/// What a field of ones becomes; None where the type isn't in the table.
fn patched(kind: u32, value: i128) -> Option<Result<u64, PatchCause>> {
    if X86.class(kind).is_none() {
        return None;
    }
    let old = ones(X86.width(kind));
    Some(X86.patch(kind, value, old))
}

#[test]
fn a_linkage_table_is_that_of_the_psabi(rt: HostRuntime) {
    let got = header(0x40_1000, 0x40_20f8);
    let wanted = [
        0xff, 0x35, 0xfa, 0x10, 0, 0, 0xff, 0x25, 0xfc, 0x10, 0, 0, 0x0f, 0x1f, 0x40, 0, 0, 0, 0,
        0, 0, 0, 0, 0, 0, 0, 0, 0, 0, 0, 0, 0,
    ];
    assert_eq!(rt; got.as_slice(), wanted.as_slice());
    let got = entry(0x40_1010, 0x40_2110, 0x40_1000, 0);
    let wanted = [
        0xff, 0x25, 0xfa, 0x10, 0, 0, 0x68, 0, 0, 0, 0, 0xe9, 0xe0, 0xff, 0xff, 0xff,
    ];
    assert_eq!(rt; got.as_slice(), wanted.as_slice());
}

#[test]
fn each_type_has_its_class_and_its_value(rt: HostRuntime) {
    let table = [
        (0, RefClass::Nothing, 0),
        (1, RefClass::Abs64, 0x40_0ffc),
        (2, RefClass::Pc, -4103),
        (4, RefClass::Call, 8185),
        (9, RefClass::Got, 4089),
        (10, RefClass::Abs32, 0x40_0ffc),
        (11, RefClass::Abs32, 0x40_0ffc),
        (17, RefClass::Dtp, 36),
        (19, RefClass::Gd, 4089),
        (20, RefClass::Ld, 4089),
        (21, RefClass::Dtp, 36),
        (22, RefClass::Ie, 4089),
        (23, RefClass::Le, -28),
        (24, RefClass::Pc, -4103),
        (41, RefClass::Got, 4089),
        (42, RefClass::Got, 4089),
    ];
    for (kind, wanted, number) in table {
        assert_eq!(rt; class(kind), Some(wanted));
        assert_eq!(rt; value(kind), Some(number));
    }
    for kind in [
        3,
        5,
        6,
        7,
        8,
        12,
        13,
        14,
        15,
        16,
        18,
        25,
        26,
        36,
        40,
        43,
        257,
        4_294_967_295,
    ] {
        assert_eq!(rt; class(kind), None);
    }
}

#[test]
fn each_type_takes_its_range(rt: HostRuntime) {
    let table = [
        signed(2),
        signed(4),
        signed(9),
        unsigned(10),
        signed(11),
        signed(19),
        signed(20),
        signed(21),
        signed(22),
        signed(23),
        signed(41),
        signed(42),
    ];
    for ends in table {
        let below = ends.least.saturating_sub(1);
        let above = ends.greatest.saturating_add(1);
        assert_eq!(rt; patched(ends.kind, ends.least), Some(Ok(ends.with_least)));
        assert_eq!(rt;
            patched(ends.kind, ends.greatest),
            Some(Ok(ends.with_greatest))
        );
        assert_eq!(rt;
            patched(ends.kind, below),
            Some(Err(PatchCause::Overflow(below)))
        );
        assert_eq!(rt;
            patched(ends.kind, above),
            Some(Err(PatchCause::Overflow(above)))
        );
    }
}

#[test]
fn eight_bytes_take_all_values_and_no_bytes_none(rt: HostRuntime) {
    for kind in [1, 17, 24] {
        assert_eq!(rt; patched(kind, -1), Some(Ok(0xffff_ffff_ffff_ffff)));
        assert_eq!(rt;
            patched(kind, -9_223_372_036_854_775_808),
            Some(Ok(0x8000_0000_0000_0000))
        );
        assert_eq!(rt; patched(kind, 18_446_744_073_709_551_621), Some(Ok(5)));
    }
    assert_eq!(rt; patched(0, 5), Some(Ok(0)));
}
