//! The tokens of the YAML profile that text stubs are written in (YAML 1.2, chapters 5 to 7): where its
//! documents begin, how their lines are cut into comments, indicators and scalars, and what of that the
//! profile refuses.
//!
//! No clause says when memory runs out, so a body that answers `Memory` alone meets those of each call that takes memory;
//! the tests have calls that succeed. `Written::as_plain` tells where a scalar needs no copy; one that always answers None
//! meets its clause too, and costs memory alone.
//!
//! `find_fault` and `Tokens` stand on one cutter, and take no memory. The finder goes first, over the bytes once. `Tokens`
//! are a place of the text: each token is cut when it is asked for, and again where it is asked for again. Its scalar is
//! the bytes that stand in the text until its text is asked for.
#![tactic(auto)]

mod byte;
mod cutter;
mod escape;
mod fault;
mod front;
mod kind;
mod line;
mod piece;
mod scalar;
mod token;

pub use fault::find_fault;
pub use kind::{Fault, YamlKind};
pub use token::{Token, Tokens, Written};

#[cfg(test)]
mod tests;
