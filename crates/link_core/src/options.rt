//! What is made, and how.

ghost use Rattle.std.specs.Prelude.{◌≡◌, IfOk};

use ifs_bytes::{Memory, Text};
use std::alloc::Global;

/// The kind of file that a link makes.
#[derive(Clone, Copy, Debug, PartialEq, Eq)]
pub enum OutKind {
    /// A program at fixed addresses, ET_EXEC.
    Exec,
    /// A program that may be loaded at any address: ET_DYN with an interpreter.
    Pie,
    /// A shared library: ET_DYN without one.
    Shared,
}

impl OutKind {
    ghost use Rattle.link_core.specs.Exports as exports;

    /// Whether it is a shared library.
    pub fn is_shared(self) -> bool
        ensures { result ≡ exports.is_shared self }
    {
        match self {
            OutKind::Exec | OutKind::Pie => false,
            OutKind::Shared => true,
        }
    }
}

/// The options of a link.
#[derive(Debug, PartialEq, Eq, Drop)]
pub struct LinkOptions {
    /// What is made.
    pub kind: OutKind,
    /// The name of the symbol at which a program starts.
    pub entry_name: Text,
    /// The name of the library that is made (DT_SONAME), used in `Shared` alone.
    pub soname: Option<Text>,
    /// Where a loader looks for libraries first (DT_RUNPATH).
    pub runpath: Option<Text>,
    /// The path of the interpreter (PT_INTERP), where it isn't the machine's usual one.
    pub interp: Option<Text>,
    /// Whether a program exports all names that it may export.
    pub export_dynamic: bool,
    /// Whether a name that a library wants may stay undefined.
    pub allow_shlib_undefined: bool,
    /// Whether only libraries that are used are asked for when the file is loaded.
    pub as_needed: bool,
    /// Whether a loader binds all names at once (DF_BIND_NOW).
    pub bind_now: bool,
}

// A copy of a text that may be absent.
fn copied(alloc: Global, text: &Option<Text>) -> Result<Option<Text>, Memory>
    ensures { IfOk result (λ copy. copy ≡ text.now) }
{
    match text {
        Some(text) => Ok(Some(text.copy(alloc)?)),
        None => Ok(None),
    }
}

impl LinkOptions {
    /// Equal options.
    pub fn copy(&self, alloc: Global) -> Result<LinkOptions, Memory>
        ensures { IfOk result (λ copy. copy ≡ self.now) }
    {
        Ok(LinkOptions {
            kind: self.kind,
            entry_name: self.entry_name.copy(alloc)?,
            soname: copied(alloc, &self.soname)?,
            runpath: copied(alloc, &self.runpath)?,
            interp: copied(alloc, &self.interp)?,
            export_dynamic: self.export_dynamic,
            allow_shlib_undefined: self.allow_shlib_undefined,
            as_needed: self.as_needed,
            bind_now: self.bind_now,
        })
    }
}
