//! The maps of a text, by the keys of their entries: which keys they may have and which they need, and the
//! value of one.
//!
//! `keys_fault` looks for the first unknown or repeated key, and then for the first that is missing. It
//! takes no memory, and goes through the keys before each: maps have few.
#![tactic(auto)]

mod maps;

pub use maps::{KeyFault, Wrong, is, keys_fault, value_at};
