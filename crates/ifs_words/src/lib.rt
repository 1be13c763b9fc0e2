//! The words of the command line: a command with its values, or the first cause why they aren't understood.
//!
//! Each option and flag is a row of one table (specs/Settings.antt), and a command names the rows that it takes. Words are
//! read one by one (specs/Reading.antt), which gives the causes of single words, and then looked at together
//! (specs/Together.antt, Stub.antt, Link.antt, Tbd.antt). `Command::parse` knows `stub`; `parse_link` and `parse_tbd`
//! read the words behind the names of two commands that it doesn't know yet.
//!
//! No clause says when memory runs out, so bodies of these and of `WordCause::printed` that answer `Memory` alone meet
//! theirs; the tests have calls that succeed.
#![tactic(auto)]

mod cause;
mod command;
mod conflict;
mod given;
mod link;
mod read;
mod settings;
mod stub;
mod tbd;
mod together;
mod values;

pub use cause::WordCause;
pub use command::{Command, InputFormat, StubWords};
pub use link::{LinkKind, LinkWords, parse_link};
pub use tbd::{TbdVersion, TbdWords, parse_tbd};

#[cfg(test)]
mod tests;
