//! Which sections of its objects a link drops, and which it keeps.
//!
//! `dropped.rt` goes once through the groups of all objects, with a set of their signatures so far. An
//! object has a list of flags, one for each of its sections, which are set for the members of its dropped
//! groups and then listed.
//!
//! `flags.rt` has such a list for each object, so that a look at a section takes one step. The flags begin
//! with what the sections themselves say (`is_loadable`), and each dropped section then clears its own.
//!
//! A body that always answers that memory ran out meets the contracts of both calls.
#![tactic(auto)]

mod dropped;
mod flags;

pub use dropped::dropped_sections;
pub use flags::kept_flags;
