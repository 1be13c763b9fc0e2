//! What a text-based stub says of a dynamic library.

ghost use Rattle.std.specs.Prelude.{◌≡◌, Result, None, IfOk};
ghost use Rattle.tbd_core.specs.Normal.{first_broken, made};

use crate::broken::first_broken;
use crate::symbol::TbdSymbol;
use crate::version::Version;
use ifs_bytes::{List, Memory, Text};
use std::alloc::Global;
use std::marker::Model;

/// A target that a library is built for, as `x86_64-macos`.
#[derive(Debug, PartialEq, Eq, Drop)]
pub struct TbdTarget {
    /// The architecture and the platform: bytes, not empty, without NUL.
    pub name: Text,
    /// The least version of the platform that the library runs on, where it is said.
    pub min: Option<Text>,
}

/// A name, and the positions of the targets that it is said for.
#[derive(Debug, PartialEq, Eq, Drop)]
pub struct Named {
    /// Bytes, not empty, without NUL.
    pub name: Text,
    /// Positions in the library's list of targets, from 0.
    pub targets: List<u64>,
}

/// The parts of a `Dylib`, in the order in which `Dylib::new` looks at them. A list of names is in normal form where
/// it stands in byte order of the names, each once, and each with an ascending list of positions of targets that isn't
/// empty.
#[derive(Debug, PartialEq, Eq, Drop)]
pub struct DylibParts {
    /// The targets, one at least, no two of one name.
    pub targets: List<TbdTarget>,
    /// The flags, in normal form.
    pub flags: List<Named>,
    /// The name by which clients load the library: bytes, not empty, without NUL.
    pub install_name: Text,
    /// The library's own version.
    pub current: Version,
    /// The oldest version that clients of this one can do with.
    pub compatible: Version,
    /// The version of Swift's binary interface, where it is said.
    pub swift_abi: Option<u8>,
    /// The umbrella frameworks that the library is a part of, in normal form.
    pub umbrellas: List<Named>,
    /// The clients that may link against the library, in normal form; none for all.
    pub clients: List<Named>,
    /// The libraries whose symbols are offered too, in normal form.
    pub reexported: List<Named>,
    /// The run paths, in normal form.
    pub rpaths: List<Named>,
    /// The symbols, in order of section, kind, segment and name, these four once.
    pub symbols: List<TbdSymbol>,
}

/// A part that isn't as a `Dylib` wants it.
#[derive(Clone, Copy, Debug, PartialEq, Eq)]
pub enum DylibField {
    /// No target, two of one name, or one with a name that is empty or has a NUL.
    Targets,
    /// Flags that aren't in normal form.
    Flags,
    /// An install name that is empty or has a NUL.
    InstallName,
    /// Umbrella frameworks that aren't in normal form.
    Umbrellas,
    /// Clients that aren't in normal form.
    Clients,
    /// Libraries that aren't in normal form.
    Reexported,
    /// Run paths that aren't in normal form.
    Rpaths,
    /// Symbols that aren't in normal form.
    Symbols,
}

/// What a text-based stub says of a dynamic library, in normal form. A contract sees it as its parts.
#[derive(Debug, PartialEq, Eq, Drop)]
pub struct Dylib {
    parts: DylibParts,
}

impl TbdTarget {
    /// An equal target.
    pub fn copy(&self, alloc: Global) -> Result<TbdTarget, Memory>
        ensures { IfOk result (λ copy. copy ≡ self.now) }
    {
        let min = match &self.min {
            Some(text) => Some(text.copy(alloc)?),
            None => None,
        };
        Ok(TbdTarget {
            name: self.name.copy(alloc)?,
            min,
        })
    }
}

impl Named {
    /// An equal name with equal targets.
    pub fn copy(&self, alloc: Global) -> Result<Named, Memory>
        ensures { IfOk result (λ copy. copy ≡ self.now) }
    {
        Ok(Named {
            name: self.name.copy(alloc)?,
            targets: List::from_vec(Vec::from_slice(alloc, self.targets.as_slice())?),
        })
    }
}

impl Model for Dylib {
    ghost use Rattle.std.specs.Prelude.{◌≡◌, None};
    ghost use Rattle.tbd_core.specs.declared.dylib.DylibParts.{DylibParts};
    ghost use Rattle.tbd_core.specs.Normal.{first_broken};

    ghost Value = { DylibParts };

    ghost view = { λ d. d.parts };

    ghost invariant = { λ d. first_broken d.parts ≡ None };

    ghost inverse = { λ p. record { parts = p } };
}

impl Dylib {
    /// The library of these parts, or the first part that isn't in normal form. Nothing is mended. Takes no memory.
    pub fn new(parts: DylibParts) -> Result<Dylib, DylibField>
        ensures { result ≡ made parts }
    {
        match first_broken(&parts) {
            Some(field) => Err(field),
            None => Ok(Dylib { parts }),
        }
    }

    /// The library of parts in normal form, which aren't looked at.
    pub fn of_normal(parts: DylibParts) -> Dylib
        requires { first_broken parts ≡ None }
        ensures { result ≡ parts }
    {
        Dylib { parts }
    }

    /// The parts.
    pub fn parts(&self) -> &DylibParts
        ensures value { result.now ≡ self.now }
        ensures normal { first_broken self.now ≡ None }
    {
        &self.parts
    }
}

/// What a text says of a library, and of those that are part of it.
#[derive(Debug, PartialEq, Eq, Drop)]
pub struct Tbd {
    /// The library.
    pub main: Dylib,
    /// The libraries whose symbols it offers too, as the text has them.
    pub inlined: List<Dylib>,
}
