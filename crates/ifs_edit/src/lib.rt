//! Edits of interfaces: patterns of names, what is kept of symbols and targets, and one interface of several.
//!
//! No clause says when memory runs out, so a body that answers `Memory` alone meets them, as one of `strip_target` or
//! `printed`; the tests have calls of each that succeed.
#![tactic(auto)]

mod adjusted;
mod cause;
mod conflict;
mod element;
mod front;
mod glob;
mod laws;
mod merged;
mod set;
mod soname;
mod sorted;
mod strip;
mod united;

pub use adjusted::{AdjustOptions, adjust};
pub use cause::{AdjustCause, GlobCause, MergeCause};
pub use element::{Element, Span};
pub use glob::Glob;
pub use laws::{merges_alone, merges_in_any_order, patterns_are_read};
pub use merged::merge;
pub use strip::{Strip, strip_target};

#[cfg(test)]
mod tests;
