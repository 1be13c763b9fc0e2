//! What the slots of .got hold, and the dynamic relocations that fill them.
//!
//! `slots_for` gives the one or two words of a slot as the file has them, and at most two relocations, by what
//! is made, by what the slot is for and by what its symbol is. No call takes memory.
#![tactic(auto)]

mod cases;
mod words;

pub use cases::slots_for;
pub use words::{Fill, Fills, Slots, Word, Words};

#[cfg(test)]
mod tests;
