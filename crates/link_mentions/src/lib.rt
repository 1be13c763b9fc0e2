//! What objects say of names: the mentions of all names in byte order of the names, a run for each name, and
//! what the mentions of one name say together.
//!
//! A `Mention` points to the row that it stands for, so that no row is copied. The mentions stand in one
//! vector (`mention.rt`), which a stable sort puts in byte order of names (`by_name.rt`), and a name is looked
//! at through its run there (`one_name.rt`, `twice.rt`, `room.rt`).
#![tactic(auto)]

mod by_name;
mod mention;
mod one_name;
mod room;
mod twice;

pub use by_name::{Run, runs_of, sorted};
pub use mention::Mention;
pub use one_name::{
    are_weak, first_definition, first_strong_definition, first_strong_want, has_common,
    is_first_threaded, strictest,
};
pub use room::{common_align, common_size};
pub use twice::defined_twice;
