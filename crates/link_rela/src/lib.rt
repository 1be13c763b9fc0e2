//! The dynamic relocations of a made file.
//!
//! `put_rela` writes an entry of a table of them.
#![tactic(auto)]

mod rela;

pub use rela::{Rela, put_rela};

#[cfg(test)]
mod tests;
