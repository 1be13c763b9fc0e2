//! Text-based stubs of dynamic libraries as YAML, version 4: read.
//!
//! `read` looks for the first fault of the maps of a text without taking memory (`keys.rt`, `values.rt`,
//! `faults.rt`), and makes the libraries where there is none (`library.rt`). The names of all groups are
//! gathered, and `united` makes one of those that are the same. What comes out is in normal form, which is
//! proved (`proofs/Normal.antt`) and isn't looked at again.
//!
//! No clause says when memory runs out; the tests have calls that succeed.
#![tactic(auto)]

mod faults;
mod keys;
mod library;
mod reading;
mod values;

pub use reading::read;

#[cfg(test)]
mod tests;
