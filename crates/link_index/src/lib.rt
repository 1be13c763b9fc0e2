//! Where the slots, the linkage entries and the dynamic symbols of a plan stand, found by their symbols.
//!
//! A `PlanIndex` has a map from each slot of .got to its place, from each name with an entry in .plt to its entry, and from
//! each name of .dynsym to its row, so that a look-up takes one step.
#![tactic(auto)]

mod index;
mod places;
mod words;

pub use index::PlanIndex;
