//! The libraries of a link, read from bytes: shared libraries, and interfaces as texts.
//!
//! `read_lib` takes bytes that begin as an ELF file or as an archive for a shared library, and all others for
//! a text. A link asks an `AnyLib` as it asks any `SharedLib`. `check_sides` refuses the first library that
//! wasn't read.
//!
//! Bodies that always answer that memory ran out meet the contracts of `read_lib` and `check_sides`: that the
//! calls succeed is tested.
#![tactic(auto)]

mod any;
mod sides;
mod source;

pub use any::AnyLib;
pub use sides::check_sides;
pub use source::read_lib;

#[cfg(test)]
mod tests;
