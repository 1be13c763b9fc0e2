//! The names of machines.

ghost use Rattle.std.specs.Prelude.{◌≡◌, ◌++◌, is_ok, codes, decimal, drop, Some};
ghost use Rattle.std.specs.Str.{bytes_eq, str_eq_ignore_ascii_case};
ghost use Rattle.ifs_bytes.specs.Outcome.{appended};
ghost use Rattle.ifs_interface.specs.Arch.{arch_name, arch_names, machine_among, machine_named, machine_numbered, printed_machine};

use ifs_bytes::{Memory, Text, number_of};
use itoa::Buffer;

/// Appends the printed name of a machine (e_machine), as `x86_64`, or `EM_` and its number, from which
/// `arch_of` reads the machine back; where memory runs out the text stays as it was.
#[tactic(auto, using(crate::proofs::Arches::arch_names_are_read_back))]
pub fn put_arch(out: &mut Text, machine: u16) -> Result<(), Memory>
    ensures name { out.new ≡ appended (is_ok result) out.old (arch_name machine) }
    ensures read_back { machine_named (arch_name machine) ≡ Some machine }
{
    let name: &[u8] = match machine {
        62 => b"x86_64",
        183 => b"AArch64",
        3 => b"i386",
        40 => b"arm",
        20 => b"ppc",
        21 => b"ppc64",
        8 => b"mips",
        243 => b"riscv",
        22 => b"s390",
        2 => b"sparc",
        43 => b"sparcv9",
        _ => return put_number(out, machine),
    };
    out.append(name)
}

// Appends `EM_` and the number.
fn put_number(out: &mut Text, machine: u16) -> Result<(), Memory>
    ensures { out.new ≡ appended (is_ok result) out.old (codes "EM_" ++ decimal machine) }
{
    let before = out.as_bytes().len();
    out.append(b"EM_")?;
    let done = out.append_number(u64::from(machine));
    if done.is_err() {
        out.truncate(before);
    }
    done
}

/// The machine (e_machine) of a name as `x86_64`, or `EM_` and a decimal number below 65536 without leading
/// zeros, letters in either case; None exactly where the name is neither.
#[tactic(auto, unfolding(crate::specs::Arch::machine_named))]
pub fn arch_of(name: &[u8]) -> Option<u16>
    ensures { result ≡ machine_named name.now }
{
    match first_named(name) {
        Some(machine) => Some(machine),
        None => numbered(name),
    }
}

// The machine that a name of the table stands for.
#[tactic(auto, unfolding(crate::specs::Arch::arch_names))]
fn first_named(name: &[u8]) -> Option<u16>
    ensures { result ≡ machine_among (drop 0 arch_names) name.now }
{
    if spells(name, b"x86_64") {
        return Some(62);
    }
    if spells(name, b"AArch64") {
        return Some(183);
    }
    if spells(name, b"i386") || spells(name, b"x86") {
        return Some(3);
    }
    if spells(name, b"arm") {
        return Some(40);
    }
    next_named(name)
}

// The same, behind the first machines of the table.
#[tactic(auto, unfolding(crate::specs::Arch::arch_names))]
fn next_named(name: &[u8]) -> Option<u16>
    ensures { result ≡ machine_among (drop 5 arch_names) name.now }
{
    if spells(name, b"ppc") {
        return Some(20);
    }
    if spells(name, b"ppc64") {
        return Some(21);
    }
    if spells(name, b"mips") {
        return Some(8);
    }
    if spells(name, b"riscv") {
        return Some(243);
    }
    last_named(name)
}

// The same, for the machines at the end of the table.
#[tactic(auto, unfolding(crate::specs::Arch::arch_names))]
fn last_named(name: &[u8]) -> Option<u16>
    ensures { result ≡ machine_among (drop 9 arch_names) name.now }
{
    if spells(name, b"s390") {
        return Some(22);
    }
    if spells(name, b"sparc") {
        return Some(2);
    }
    if spells(name, b"sparcv9") {
        return Some(43);
    }
    None
}

// The machine of `EM_` and a number.
fn numbered(name: &[u8]) -> Option<u16>
    ensures { result ≡ machine_numbered name.now }
{
    if name.len() < 3 {
        return None;
    }
    let (mark, digits) = name.split_at(3);
    if !spells(mark, b"EM_") {
        return None;
    }
    machine_printed(digits, number_of(digits, 10)?)
}

// A number as a machine, where it is one and is printed with these digits.
fn machine_printed(digits: &[u8], number: u64) -> Option<u16>
    ensures { result ≡ printed_machine digits.now number }
{
    if number < 65536 && is_printed(number, digits) {
        Some(number as u16)
    } else {
        None
    }
}

// Whether a number is printed with these digits.
fn is_printed(number: u64, digits: &[u8]) -> bool
    ensures { result ≡ bytes_eq (decimal number) digits.now }
{
    let mut buffer = Buffer::new();
    buffer.format(number).as_bytes() == digits
}

// Whether a name is a word, whatever the case of its letters.
fn spells(name: &[u8], word: &[u8]) -> bool
    ensures { result ≡ str_eq_ignore_ascii_case name.now word.now }
{
    name.eq_ignore_ascii_case(word)
}
