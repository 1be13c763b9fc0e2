//! The bytes of a linkage table, and each relocation type at the ends of its range, worked out from the
//! AArch64 ELF ABI's formulas and the encodings of the instructions.

ghost use Rattle.std.specs.Prelude.{◌<◌, ◌*◌, ◌^◌};
ghost use Rattle.link_machine.specs.Rules.{IsNear};

use crate::A64;
use link_machine::{Machine, PatchCause, RefClass, Values};

/// A type that checks a range, an instruction, the least value and the end of the values, and the instruction
/// with the least value and with the greatest one.
#[derive(Clone, Copy)]
struct Ends {
    kind: u32,
    instruction: u32,
    multiple: i128,
    least: i128,
    end: i128,
    with_least: u64,
    with_greatest: u64,
}

/// The types of ADRP.
fn adrp(kind: u32) -> Ends {
    Ends {
        kind,
        instruction: 0x9000_0000,
        multiple: 1,
        least: -0x1_0000_0000,
        end: 0x1_0000_0000,
        with_least: 0x9080_0000,
        with_greatest: 0xf07f_ffe0,
    }
}

/// The branches of 26 bits.
fn branch(kind: u32, instruction: u32, with_least: u64, with_greatest: u64) -> Ends {
    Ends {
        kind,
        instruction,
        multiple: 4,
        least: -0x800_0000,
        end: 0x800_0000,
        with_least,
        with_greatest,
    }
}

/// The types of 21 bits.
fn near(kind: u32, instruction: u32, multiple: i128, with_least: u64, with_greatest: u64) -> Ends {
    Ends {
        kind,
        instruction,
        multiple,
        least: -0x10_0000,
        end: 0x10_0000,
        with_least,
        with_greatest,
    }
}

// These calls have no clause, so that no proof computes them.

fn class(kind: u32) -> Option<RefClass> {
    A64.class(kind)
}

fn header(at: u64, got_plt: u64) -> [u8; 32]
    requires { IsNear at got_plt }
{
    A64.plt_header(at, got_plt)
}

fn entry(at: u64, slot: u64, header: u64, index: u32) -> [u8; 16]
    requires slot { IsNear at slot }
    requires header { IsNear at header }
{
    A64.plt_entry(at, slot, header, index)
}

fn value(kind: u32) -> Option<i128> {
    let values = Values {
        s: 0x41_2004,
        a: -8,
        p: 0x40_1004,
        g: 0x43_0018,
        l: 0x44_0010,
        tp: 0x30,
        off: 0x20,
    };
    if A64.class(kind).is_some() {
        Some(A64.value(kind, &values))
    } else {
        None
    }
}

/// A number in a field of that many bytes.
#[tactic(auto, using(std::proofs::lemmas::Nat::pow_pos))]
fn in_field(old: u32, width: u64) -> u64
    ensures { result < 2 ^ (8 * width) }
{
    match width {
        4 | 8 => u64::from(old),
        _ => 0,
    }
}

/// What a field becomes; None where the type isn't in the table.
fn patched(kind: u32, value: i128, old: u32) -> Option<Result<u64, PatchCause>> {
    if A64.class(kind).is_none() {
        return None;
    }
    let old = in_field(old, A64.width(kind));
    Some(A64.patch(kind, value, old))
}

#[test]
fn a_linkage_table_is_that_of_the_abi(rt: HostRuntime) {
    let got = header(0x41_0000, 0x42_00f8);
    let wanted = [
        0xf0, 0x7b, 0xbf, 0xa9, 0x90, 0x00, 0x00, 0x90, 0x11, 0x86, 0x40, 0xf9, 0x10, 0x22, 0x04,
        0x91, 0x20, 0x02, 0x1f, 0xd6, 0x1f, 0x20, 0x03, 0xd5, 0x1f, 0x20, 0x03, 0xd5, 0x1f, 0x20,
        0x03, 0xd5,
    ];
    assert_eq!(rt; got.as_slice(), wanted.as_slice());
    let got = entry(0x41_0020, 0x42_0110, 0x41_0000, 0);
    let wanted = [
        0x90, 0x00, 0x00, 0x90, 0x11, 0x8a, 0x40, 0xf9, 0x10, 0x42, 0x04, 0x91, 0x20, 0x02, 0x1f,
        0xd6,
    ];
    assert_eq!(rt; got.as_slice(), wanted.as_slice());
}

#[test]
fn each_type_has_its_class_and_its_value(rt: HostRuntime) {
    let table = [
        (0, RefClass::Nothing, 0),
        (256, RefClass::Nothing, 0),
        (257, RefClass::Abs64, 0x41_1ffc),
        (258, RefClass::Abs32, 0x41_1ffc),
        (260, RefClass::Pc, 0x1_0ff8),
        (261, RefClass::Pc, 0x1_0ff8),
        (273, RefClass::Pc, 0x1_0ff8),
        (274, RefClass::Pc, 0x1_0ff8),
        (275, RefClass::Pc, 0x1_0000),
        (276, RefClass::Pc, 0x1_0000),
        (277, RefClass::Pc, 0x41_1ffc),
        (278, RefClass::Pc, 0x41_1ffc),
        (279, RefClass::Call, 0x3_f004),
        (280, RefClass::Call, 0x3_f004),
        (282, RefClass::Call, 0x3_f004),
        (283, RefClass::Call, 0x3_f004),
        (284, RefClass::Pc, 0x41_1ffc),
        (285, RefClass::Pc, 0x41_1ffc),
        (286, RefClass::Pc, 0x41_1ffc),
        (299, RefClass::Pc, 0x41_1ffc),
        (311, RefClass::Got, 0x2_f000),
        (312, RefClass::Got, 0x43_0018),
        (541, RefClass::Ie, 0x2_f000),
        (542, RefClass::Ie, 0x43_0018),
        (549, RefClass::Le, 40),
        (550, RefClass::Le, 40),
        (551, RefClass::Le, 40),
        (562, RefClass::Desc, 0x2_f000),
        (563, RefClass::Desc, 0x43_0018),
        (564, RefClass::Desc, 0x43_0018),
        (569, RefClass::Desc, 0),
    ];
    for (kind, wanted, number) in table {
        assert_eq!(rt; class(kind), Some(wanted));
        assert_eq!(rt; value(kind), Some(number));
    }
    let others = [
        1,
        255,
        259,
        262,
        263,
        272,
        281,
        287,
        298,
        300,
        309,
        310,
        313,
        314,
        540,
        543,
        548,
        552,
        561,
        565,
        568,
        570,
        1025,
        1031,
        4_294_967_295,
    ];
    for kind in others {
        assert_eq!(rt; class(kind), None);
    }
}

#[test]
fn each_type_takes_its_range(rt: HostRuntime) {
    let word = Ends {
        kind: 258,
        instruction: 0x1234_5678,
        multiple: 1,
        least: -0x8000_0000,
        end: 0x1_0000_0000,
        with_least: 0x8000_0000,
        with_greatest: 0xffff_ffff,
    };
    let table = [
        word,
        Ends { kind: 261, ..word },
        near(273, 0x5800_0000, 4, 0x5880_0000, 0x587f_ffe0),
        near(274, 0x1000_0000, 1, 0x1080_0000, 0x707f_ffe0),
        near(280, 0x5400_0000, 4, 0x5480_0000, 0x547f_ffe0),
        adrp(275),
        adrp(311),
        adrp(541),
        adrp(562),
        Ends {
            kind: 279,
            instruction: 0x3600_0000,
            multiple: 4,
            least: -0x8000,
            end: 0x8000,
            with_least: 0x3604_0000,
            with_greatest: 0x3603_ffe0,
        },
        branch(282, 0x1400_0000, 0x1600_0000, 0x15ff_ffff),
        branch(283, 0x9400_0000, 0x9600_0000, 0x95ff_ffff),
        Ends {
            kind: 549,
            instruction: 0x9140_0000,
            multiple: 1,
            least: 0,
            end: 0x100_0000,
            with_least: 0x9140_0000,
            with_greatest: 0x917f_fc00,
        },
        Ends {
            kind: 550,
            instruction: 0x9100_0000,
            multiple: 1,
            least: 0,
            end: 0x1000,
            with_least: 0x9100_0000,
            with_greatest: 0x913f_fc00,
        },
    ];
    for ends in table {
        let greatest = ends.end.saturating_sub(ends.multiple);
        let below = ends.least.saturating_sub(1);
        let odd = ends.least.saturating_add(1);
        let wanted = if ends.multiple == 1 {
            None
        } else {
            Some(Err(PatchCause::Misaligned))
        };
        assert_eq!(rt;
            patched(ends.kind, ends.least, ends.instruction),
            Some(Ok(ends.with_least))
        );
        assert_eq!(rt;
            patched(ends.kind, greatest, ends.instruction),
            Some(Ok(ends.with_greatest))
        );
        assert_eq!(rt;
            patched(ends.kind, below, 0),
            Some(Err(PatchCause::Overflow(below)))
        );
        assert_eq!(rt;
            patched(ends.kind, ends.end, 0),
            Some(Err(PatchCause::Overflow(ends.end)))
        );
        if wanted.is_some() {
            assert_eq!(rt; patched(ends.kind, odd, 0), wanted);
        }
    }
}

#[test]
fn other_types_take_all_values_or_all_multiples(rt: HostRuntime) {
    let table = [
        (0, 5, 0x1234_5678, 0),
        (256, -1, 0x1234_5678, 0),
        (257, -1, 0, 0xffff_ffff_ffff_ffff),
        (257, 0x1_0000_0000_0000_0005, 0, 5),
        (260, -0x8000_0000_0000_0000, 0, 0x8000_0000_0000_0000),
        (276, 0x1_0000_0000, 0x9000_0000, 0x9080_0000),
        (276, 0x2_0000_5000, 0x9000_0000, 0xb000_0020),
        (277, 0x1_2abc, 0x9100_0000, 0x912a_f000),
        (278, -1, 0x3940_0000, 0x397f_fc00),
        (284, 0xffe, 0x7940_0000, 0x795f_fc00),
        (285, 0xffc, 0xb940_0000, 0xb94f_fc00),
        (286, 0x10, 0xf940_0000, 0xf940_0800),
        (286, 0xff8, 0xf940_0000, 0xf947_fc00),
        (299, 0xff0, 0x3dc0_0000, 0x3dc3_fc00),
        (312, 0x1_0ff8, 0xf940_0000, 0xf947_fc00),
        (542, 0xff8, 0xf940_0000, 0xf947_fc00),
        (551, 0x10, 0x9100_0000, 0x9100_4000),
        (551, 0x1000, 0x913f_fc00, 0x9100_0000),
        (563, 0xff8, 0xf940_0000, 0xf947_fc00),
        (564, 0xfff, 0x9100_0000, 0x913f_fc00),
        (569, 5, 0xd63f_0020, 0xd63f_0020),
    ];
    for (kind, number, old, new) in table {
        assert_eq!(rt; patched(kind, number, old), Some(Ok(new)));
    }
    let table = [
        (284, 1),
        (285, 2),
        (286, 12),
        (299, 8),
        (312, 4),
        (542, 0x1_0004),
        (563, -4),
    ];
    for (kind, number) in table {
        assert_eq!(rt; patched(kind, number, 0), Some(Err(PatchCause::Misaligned)));
    }
}
