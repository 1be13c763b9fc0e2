//! Text-based stubs of dynamic libraries as YAML, version 4.
//!
//! `print` looks first for what has no place in such a text (`places.rt`), which takes no memory. It then
//! appends line by line (`printed.rt`, `lines.rt`). The names of a list are sorted by their targets, and each
//! run of equal targets is a group (`groups.rt`, `listed.rt`).
//!
//! No clause says when memory runs out, so a body of `print` that answers `Memory` alone meets its clause; the
//! tests have calls that succeed.
#![tactic(auto)]

mod groups;
mod lines;
mod listed;
mod places;
mod printed;

pub use printed::print;

#[cfg(test)]
mod tests;
