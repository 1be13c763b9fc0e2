//! The objects of a link, read from the bytes of their files.
//!
//! `read_objects` reads one file after the other, up to the first that is no object, which it names by its
//! position. An object owns its bytes, so those of each file are copied once.
//!
//! A body that always answers that memory ran out meets the contract: that the call succeeds is tested.
#![tactic(auto)]

mod objects;

pub use objects::read_objects;

#[cfg(test)]
mod tests;
