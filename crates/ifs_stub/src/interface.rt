//! The interface of a library.

ghost use Rattle.std.specs.Prelude.{◌≡◌, IfOk, Ok};
ghost use Rattle.ifs_interface.specs.Extracted.{interface_of};
ghost use Rattle.ifs_stub.specs.Stub.{stub_of};
ghost use Rattle.ifs_stub.specs.StubFile.{stub_file};

use crate::collapse::symbols_of;
use elf_dyn::Library;
use ifs_bytes::{Memory, Text};
use ifs_interface::{Interface, Target, copied_texts};
use std::alloc::Global;

/// The interface of a library: one symbol for each name among its visible rows, with its soname, its machine
/// and the libraries that it needs. Versions are dropped. The interface has a stub of the library's machine, order and
/// width, which `emit` gives unless memory runs out.
#[tactic(auto, unfolding(ifs_interface::specs::Extracted::interface_of))]
pub fn extract(alloc: Global, library: &Library) -> Result<Interface, Memory>
    ensures exact { IfOk result (λ interface. interface ≡ interface_of library.now) }
    ensures stub { IfOk result (λ _. stub_of (interface_of library.now)
        ≡ Ok (stub_file library.now.order library.now.width library.now.machine (interface_of library.now))) }
{
    let soname = match library.soname_text() {
        Some(text) => Some(text.copy(alloc)?),
        None => None,
    };
    let target = Target {
        triple: None,
        machine: Some(library.machine_number()),
        order: Some(library.order()),
        width: Some(library.width()),
    };
    let needed = copied_texts(alloc, library.needed_texts())?;
    let symbols = symbols_of(alloc, library.rows(), library.by_name())?;
    Ok(Interface::from_sorted(soname, target, needed, symbols))
}
