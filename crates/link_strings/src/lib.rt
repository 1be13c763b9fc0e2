//! The strings of a made file: the tables .dynstr and .shstrtab, where strings start in them, and the path in
//! .interp.
//!
//! `dynamic_strings` gives the strings of .dynstr in their order, without a copy of their bytes;
//! `put_strings` writes a table, and `places_of` says where each string starts in it.
#![tactic(auto)]

mod dynamic;
mod interpreter;
mod places;
mod table;

pub use dynamic::{dynamic_strings, symbol_names};
pub use interpreter::put_interpreter;
pub use places::places_of;
pub use table::put_strings;

#[cfg(test)]
mod tests;
