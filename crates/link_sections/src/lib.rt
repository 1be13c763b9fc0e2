//! The section headers of a made file, and the names of its sections in .shstrtab.
//!
//! `tables.rt` tells which table stands at a position, and what its header says beside its place; `rows.rt` makes one
//! header; `names.rt` lists the names; `put.rt` appends the headers one after the other.
#![tactic(auto)]

mod names;
mod put;
mod rows;
mod tables;

pub use names::put_names;
pub use put::put_sections;
