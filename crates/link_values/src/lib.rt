//! Values of symbols in the made file: what the formulas of relocation types speak of.
//!
//! `rows.rt` gives the value of a row of an object by the places of the pieces, and `threads.rt` how far an
//! address is from the start of the thread-local segment and from the thread pointer.
#![tactic(auto)]

mod rows;
mod threads;

pub use rows::{place_value, row_value, values_are_of_the_layout};
pub use threads::{block_offset, pointer_offset};
