//! What a shared library offers and wants, apart from the file that it came in.
//!
//! A library that was read stands for a `LibraryRecord` (specs/Library.antt): plain data. Its interface is
//! one `Symbol` a name, by specs/Extracted.antt, and an `Interface` keeps it with the soname, the target and
//! the needed libraries. Readers of files give records, and everything above speaks of records and
//! interfaces alone.
//!
//! A body that always answers that memory ran out meets the contracts of `put_arch` and of the copies: that these succeed
//! is tested.
#![tactic(auto)]

mod arch;
mod fact;
mod interface;
mod machine;
mod row;
mod shared_lib;
mod symbol;
mod target;

pub use arch::{arch_of, put_arch};
pub use fact::{Fact, fact_of_kind, fact_of_type};
pub use interface::{Interface, copied_symbols, copied_texts};
pub use machine::{parts, triple_parts};
pub use row::DynRow;
pub use shared_lib::{SharedLib, Wanted};
pub use symbol::{Kind, Symbol};
pub use target::{MachineFact, Target, TargetField};

#[cfg(test)]
mod tests;
