//! The class of an input section.

ghost use Rattle.std.specs.Prelude.{◌≡◌, ◌<◌};
ghost use Rattle.link_core.specs.OutputNames as meant;

use elf_object::ObjSection;
use link_core::{OutClass, SHF_EXECINSTR, SHF_TLS, SHF_WRITE};

const SHT_NOBITS: u32 = 8;

// Whether a flag stands in sh_flags.
fn has_flag(flags: u64, flag: u64) -> bool
    requires { 0 < flag }
    ensures { result ≡ meant.has_flag flags flag }
{
    flags / flag % 2 == 1
}

fn is_nobits(section: &ObjSection) -> bool
    ensures { result ≡ meant.is_nobits section.now }
{
    section.kind == SHT_NOBITS
}

/// What a section needs of the memory that it is loaded to.
#[tactic(auto, unfolding(link_core::specs::OutputNames::class_of_section))]
pub fn class_of(section: &ObjSection) -> OutClass
    ensures { result ≡ meant.class_of_section section.now }
{
    if has_flag(section.flags, SHF_TLS) {
        return if is_nobits(section) {
            OutClass::Z
        } else {
            OutClass::T
        };
    }
    if is_nobits(section) {
        return OutClass::B;
    }
    if has_flag(section.flags, SHF_WRITE) {
        return OutClass::W;
    }
    if has_flag(section.flags, SHF_EXECINSTR) {
        OutClass::X
    } else {
        OutClass::R
    }
}
