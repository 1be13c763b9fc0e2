//! The hash table of a made file, .hash: for each bucket its first row of .dynsym, and for each row the
//! next one of its bucket.
//!
//! `hash_words` goes over the names once, from the last to the first, so that each row is put before the rows
//! of its bucket that stand behind it.
#![tactic(auto)]

mod chains;
mod hash;
mod words;

pub use hash::hash_of;
pub use words::{hash_words, put_words};

#[cfg(test)]
mod tests;
