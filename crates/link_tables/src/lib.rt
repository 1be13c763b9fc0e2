//! The tables of an image and their sizes, which follow from names and needs alone.
//!
//! `count_all` counts rows, strings, relocations, words and entries, and `read_tables`, `code_tables` and `written_tables` make
//! the sections of them, in the order of the image. `aligned` and `ends_at` put sections one after the other at multiples of
//! their alignments. Numbers have 128 bits and stop at 2^128 - 1, so that nothing wraps before the limits of an image are
//! known to be kept.
#![tactic(auto)]

mod counts;
mod fills;
mod names;
mod output;
mod places;
mod section;
mod state;
mod tables;
mod there;

pub use counts::{Counts, Present, count_all};
pub use fills::slot_words;
pub use output::{FilledOutput, Item, Thing};
pub use places::{aligned, ends_at};
pub use section::Section;
pub use state::state_of;
pub use tables::{code_tables, read_tables, written_tables};
pub use there::{has_moves, has_words};

#[cfg(test)]
mod tests;
