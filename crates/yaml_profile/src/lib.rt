//! The profile of YAML that text stubs are written in. `read` gives the documents of a text. A scalar is printed
//! plain where readers of YAML 1.2 take it for a text, and else in quotes, so that no name is read back as a truth
//! value, a number or a mark.
//!
//! `read` looks for the faults of tokens first, which takes no memory, and then reads nodes from tokens that are cut from
//! the text as they are asked for. It takes memory for the documents alone, and these have the bytes of the text, but for
//! scalars in quotes.
//!
//! No clause says when memory runs out, so a body of `scalar_text` or `append_scalar` that answers `Memory` alone meets
//! them, and so does one of `read` for a text whose tokens have no fault; the tests have calls that succeed.
#![tactic(auto)]

mod laws;
mod printed;
mod reading;

pub use laws::{printed_scalars_are_read_back, texts_have_one_reading};
pub use printed::{append_scalar, scalar_text};
pub use reading::read;
pub use yaml_nodes::{Document, Entry, Node, Scalar, YamlCause};
pub use yaml_tokens::YamlKind;

#[cfg(test)]
mod tests;
