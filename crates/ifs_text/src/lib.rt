//! Interfaces as IFS text, the YAML that people read and keep beside their sources.
//!
//! `print` appends line by line. `read` looks for the first fault of the maps of a text without taking memory, and
//! makes the interface where there is none; whether a name stands twice is known once the symbols are in order.
//!
//! No clause says when memory runs out, so bodies of `print`, `TextCause::printed` and `TextCause::copy` that answer
//! `Memory` alone meet theirs; the tests have calls that succeed.
#![tactic(auto)]

mod cause;
mod fault;
mod laws;
mod maps;
mod printed;
mod reading;
mod root;
mod second;
mod symbols;
mod target;
mod values;

pub use cause::TextCause;
pub use laws::{documents_are_interfaces, printed_interfaces_are_read_back};
pub use printed::print;
pub use reading::read;

#[cfg(test)]
mod tests;
