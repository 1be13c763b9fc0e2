//! The order of the references of a link: by object, then by section, then by index, each place once.
//!
//! So a reference is the one of its place, and the references of a section are one run of all. Among items
//! that each have a reference (`Referring`), in this order, `run_of` finds that run by two binary searches,
//! and `found_at` the item of a place by one.
#![tactic(auto)]

mod found;
mod laws;
mod read;
mod referring;
mod run;

pub use found::found_at;
pub use laws::{references_ascend, sections_are_runs, uses_are_found, uses_ascend};
pub use read::all_are_read;
pub use referring::Referring;
pub use run::run_of;

#[cfg(test)]
mod tests;
