//! A symbol of an interface.

ghost use Rattle.std.specs.Prelude.{◌≡◌, IfOk};

use ifs_bytes::{Memory, Text};
use std::alloc::Global;

/// What a symbol is.
#[derive(Clone, Copy, Debug, PartialEq, Eq)]
pub enum Kind {
    /// Nothing is said, STT_NOTYPE.
    NoType,
    /// Code that is called, STT_FUNC.
    Func,
    /// Data, STT_OBJECT.
    Object,
    /// Thread-local data, STT_TLS.
    Tls,
    /// A type other than these four.
    Unknown,
}

/// A symbol that a library defines or wants.
#[derive(Debug, PartialEq, Eq, Drop)]
pub struct Symbol {
    /// The name: bytes, not empty, without NUL.
    pub name: Text,
    /// What the symbol is.
    pub kind: Kind,
    /// The size in bytes, where it is known.
    pub size: Option<u64>,
    /// Whether the symbol gives way to another definition or may stay undefined.
    pub weak: bool,
    /// Whether the library wants the symbol from elsewhere.
    pub undefined: bool,
    /// What to tell whoever uses the symbol.
    pub warning: Option<Text>,
}

impl Symbol {
    /// An equal symbol.
    pub fn copy(&self, alloc: Global) -> Result<Symbol, Memory>
        ensures { IfOk result (λ copy. copy ≡ self.now) }
    {
        let warning = match &self.warning {
            Some(text) => Some(text.copy(alloc)?),
            None => None,
        };
        Ok(Symbol {
            name: self.name.copy(alloc)?,
            kind: self.kind,
            size: self.size,
            weak: self.weak,
            undefined: self.undefined,
            warning,
        })
    }
}
