//! The reader of shared libraries, in all four forms of ELF files: the bytes of a file give the library that
//! they stand for, or the first cause why they don't.
//!
//! Both ways into a library, by its sections and by its segments, end in `Places`: where the dynamic entries,
//! the rows of the dynamic symbol table and their strings stand in the file. All later steps know these
//! alone, and each is a fact on places of the whole file. Names are counted before any is copied, by where the next NUL
//! is (`names`), since they may overlap. What was read keeps its rows by name too (`by_name`), so that a link can ask of
//! each name what it is (`facts`).
//!
//! A body that always answers that memory ran out meets the contract of each function that takes memory
//! (`visible_rows`, `candidate_bytes`, `needed_of`, `needed_bytes`, `Lengths::new`, `places_by_name`, `defined_places` and
//! those that call them): that calls succeed is tested. How much room `visible_rows` takes at once is said by no clause either.
#![tactic(auto)]

mod addresses;
mod by_name;
mod constants;
mod entries;
mod facts;
mod hash;
mod library;
mod names;
mod places;
mod ranked;
mod rows;
mod sections;
mod segments;
mod strings;

pub use by_name::places_by_name;
pub use constants::{MOST_NAME_BYTES, MOST_ROWS};
pub use elf_file::{ElfCause, NamePlace};
pub use ifs_interface::DynRow;
pub use library::Library;

#[cfg(test)]
mod tests;
