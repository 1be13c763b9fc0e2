//! The reader of relocatable objects, of 64 bits with the lowest byte first: the bytes of a file give the object
//! that they stand for, or the first cause why they don't.
//!
//! `parts` finds where the names of sections, the symbol table and its names stand in the file. The other modules
//! look at one table each, first for what is wrong and then, once nothing is, for what it says. Each check is a fact on
//! places of the file, in the order of `object_of`. Only names, members of groups and references are copied: an
//! `Object` owns the bytes of its file, and a section's bytes stand there. Names may overlap, so that together they can
//! have more bytes than the file.
//!
//! A body that always answers that memory ran out meets the contract of each function that takes memory: that calls
//! succeed is tested.
#![tactic(auto)]

mod cause;
mod constants;
mod group;
mod object;
mod parts;
mod printed;
mod reference;
mod section;
mod symbol;

pub use cause::ObjectCause;
pub use elf_file::{ElfCause, NamePlace};
pub use group::Group;
pub use object::Object;
pub use reference::Reference;
pub use section::ObjSection;
pub use symbol::{ObjPlace, ObjSymbol};

#[cfg(test)]
mod tests;
