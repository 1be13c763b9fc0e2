//! A library, whichever form it was read from.

use elf_dyn::Library;
use ifs_interface::{Fact, Interface, MachineFact, SharedLib, Wanted};

/// A library of a link. A link sees the facts of the one that it holds.
#[derive(Debug, Drop)]
pub enum AnyLib {
    /// A shared library.
    File(Library),
    /// The interface that a text is.
    Text(Interface),
}

impl SharedLib for AnyLib {
    ghost use Rattle.link_libs.specs.Any.{facts_of, places_of};

    ghost facts = { facts_of };

    ghost wanted_list = { places_of };

    fn soname(&self) -> Option<&[u8]> {
        match self {
            AnyLib::File(library) => SharedLib::soname(library),
            AnyLib::Text(interface) => SharedLib::soname(interface),
        }
    }

    fn needed_len(&self) -> usize {
        match self {
            AnyLib::File(library) => library.needed_len(),
            AnyLib::Text(interface) => interface.needed_len(),
        }
    }

    fn needed(&self, i: usize) -> Option<&[u8]> {
        match self {
            AnyLib::File(library) => library.needed(i),
            AnyLib::Text(interface) => interface.needed(i),
        }
    }

    fn fact(&self, name: &[u8]) -> Option<Fact> {
        match self {
            AnyLib::File(library) => library.fact(name),
            AnyLib::Text(interface) => interface.fact(name),
        }
    }

    fn wanted_len(&self) -> usize {
        match self {
            AnyLib::File(library) => library.wanted_len(),
            AnyLib::Text(interface) => interface.wanted_len(),
        }
    }

    fn wanted(&self, i: usize) -> Option<Wanted<'_>> {
        match self {
            AnyLib::File(library) => library.wanted(i),
            AnyLib::Text(interface) => interface.wanted(i),
        }
    }

    fn machine(&self) -> MachineFact {
        match self {
            AnyLib::File(library) => library.machine(),
            AnyLib::Text(interface) => interface.machine(),
        }
    }
}
