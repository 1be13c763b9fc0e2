//! The nodes and documents of YAML texts, in the profile that text stubs are written in (YAML 1.2, chapters 6 to 9):
//! which tokens are a node, and which documents tokens are.
//!
//! Each grammar of `specs/` is a relation of what stands at the front of tokens and what follows; the reading beside
//! it is what the code answers, and `proofs/` has that the two agree. The recursion goes as deep as the depth that is
//! left, so 17 calls of each kind at most, and each list is one loop. So each token is cut and passed a fixed
//! number of times; none is kept.
//!
//! No clause says when memory runs out, so a body that answers `Memory` alone meets them; the tests of the crate
//! `yaml_profile` have calls that succeed.
#![tactic(auto)]

mod block;
mod cause;
mod document;
mod flow;
mod found;
mod laws;
mod node;

pub use cause::YamlCause;
pub use document::{Document, documents};
pub use laws::{nodes_are_unique, parts_are_read};
pub use node::{Entry, Node, Scalar};
