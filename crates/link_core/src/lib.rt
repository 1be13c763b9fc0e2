//! What a link is: the types that its parts hand to each other, and the definitions of what they answer.
//!
//! Objects and libraries give a `Resolution` of names (specs/Resolution.antt), that gives a `Plan` of what the
//! references need (specs/Plan.antt), and so on, or the first `LinkRefusal`. Of a library a link sees its facts
//! alone (specs/Side.antt). Names and needs give a `Layout`, where everything of the made file stands (specs/Layout.antt), and
//! that gives the bytes of the file, part by part (specs/Parts.antt, specs/Image.antt). The whole is `link_of` (specs/Link.antt).
#![tactic(auto)]

mod constants;
mod input;
mod laws;
mod layout;
mod link_laws;
mod linker;
mod need;
mod options;
mod output;
mod plan;
mod printed;
mod refusal;
mod resolution;
mod tables;

pub use constants::{
    EM_AARCH64, EM_X86_64, SHF_EXECINSTR, SHF_TLS, SHF_WRITE, STB_LOCAL, STB_WEAK, STT_TLS,
    STV_DEFAULT, STV_HIDDEN, STV_INTERNAL, STV_PROTECTED,
};
pub use input::{Input, Job, Lib, LibCause, LibSource};
pub use laws::{names_are_bound_once, slots_are_distinct};
pub use layout::{CommonAt, Layout, OutSection, PieceAt};
pub use link_laws::{
    links_see_facts, parts_fill_their_span, places_are_least, refusals_come_in_order,
};
pub use link_machine::{Machine, PatchCause, RefClass, Values};
pub use linker::Linker;
pub use need::{Need, RefState, Unmet};
pub use options::{LinkOptions, OutKind};
pub use output::OutClass;
pub use plan::{DynReloc, GotSlot, Plan, Slot, SymbolId};
pub use refusal::{Answer, At, LinkRefusal, LinkStop, Place};
pub use resolution::{Bound, Member, NameRow, Resolution};
pub use tables::{
    DF_BIND_NOW, DF_STATIC_TLS, DT_DEBUG, DT_FINI, DT_FINI_ARRAY, DT_FINI_ARRAYSZ, DT_FLAGS,
    DT_HASH, DT_INIT, DT_INIT_ARRAY, DT_INIT_ARRAYSZ, DT_JMPREL, DT_NEEDED, DT_NULL, DT_PLTGOT,
    DT_PLTREL, DT_PLTRELSZ, DT_PREINIT_ARRAY, DT_PREINIT_ARRAYSZ, DT_RELA, DT_RELAENT, DT_RELASZ,
    DT_RUNPATH, DT_SONAME, DT_STRSZ, DT_STRTAB, DT_SYMENT, DT_SYMTAB, ET_DYN, ET_EXEC,
    MOST_IMAGE_BYTES, MOST_OUTPUT_SECTIONS, PF_R, PF_W, PF_X, PT_DYNAMIC, PT_GNU_STACK, PT_INTERP,
    PT_LOAD, PT_PHDR, PT_TLS, SHT_DYNAMIC, SHT_DYNSYM, SHT_HASH, STB_GLOBAL, STT_FUNC, STT_NOTYPE,
    STT_OBJECT,
};

#[cfg(test)]
mod tests;
