//! From a library to its interface, and from an interface to a stub library.
//!
//! The rows of a library's dynamic symbol table are put in byte order of their names, and each run of rows of
//! one name becomes one symbol (`symbols_of`). With the library's soname, machine and needed libraries these
//! are its interface (`extract`).
//!
//! A stub library has what an interface says and nothing else: the file is described part by part in
//! specs/StubFile.antt, each part with its place and its bytes. `emit` looks at the limits, counts the names,
//! takes the room for the whole file, and writes each part once, in order. Laws say that what is written is read
//! back (`stubs_are_read_back`), and that the interface of a library always has a stub
//! (`extracted_interfaces_have_stubs`).
//!
//! A body that always answers that memory ran out meets each of these contracts: that calls succeed is tested. The laws
//! have empty bodies.
#![tactic(auto)]

mod cause;
mod collapse;
mod described;
mod dynamic;
mod hash;
mod headers;
mod interface;
mod laws;
mod layout;
mod limits;
mod sections;
mod strings;
mod stub;
mod symbols;

pub use cause::StubCause;
pub use collapse::symbols_of;
pub use ifs_interface::TargetField;
pub use interface::extract;
pub use laws::{extracted_interfaces_have_stubs, stubs_are_read_back, stubs_have_their_size};
pub use stub::emit;

#[cfg(test)]
mod tests;
