//! What the names of a link stand for.

use ifs_bytes::{List, Text};
use ifs_interface::Fact;

/// What a name is bound to.
#[derive(Clone, Copy, Debug, PartialEq, Eq)]
pub enum Bound {
    /// The definition in the object at this position, in this row of its symbol table.
    Object(u32, u32),
    /// The common symbol of this name.
    Common,
    /// The address that the link itself provides under this name.
    Provided,
    /// The library at this position, which defines the name.
    Library(u32),
    /// Nothing, and whoever loads the made library has to find it.
    Import,
    /// Nothing, and the name stands for 0.
    Zero,
}

/// A name that objects mention.
#[derive(Debug, PartialEq, Eq, Drop)]
pub struct NameRow {
    /// The name: bytes, not empty, without NUL.
    pub name: Text,
    /// What it is bound to.
    pub bound: Bound,
    /// What it is.
    pub class: Fact,
    /// Whether every mention of it is STB_WEAK.
    pub weak_only: bool,
    /// The strictest visibility of its mentions: STV_DEFAULT 0, STV_INTERNAL 1, STV_HIDDEN 2, STV_PROTECTED 3.
    pub visibility: u8,
    /// Whether the made file defines the name for others.
    pub exported: bool,
    /// Whether another file's definition of the name may take the place of this one when the file is loaded.
    pub preemptible: bool,
}

/// A section of an object.
#[derive(Clone, Copy, Debug, PartialEq, Eq)]
pub struct Member {
    /// The position of the object.
    pub object: u32,
    /// The number of the section.
    pub section: u32,
}

/// What the names of a link stand for.
#[derive(Debug, PartialEq, Eq, Drop)]
pub struct Resolution {
    /// A row for each mentioned name, in byte order. Elsewhere a name is given by its position here.
    pub names: List<NameRow>,
    /// The names of the libraries that the made file asks for (DT_NEEDED), in order, each once.
    pub needed: List<Text>,
    /// The sections that COMDAT groups leave out, by object and section.
    pub dropped: List<Member>,
}
