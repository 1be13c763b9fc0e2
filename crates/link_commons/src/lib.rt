//! The room of the common symbols of a link: symbols of C that objects ask room for and that none of them
//! defines. A name gets the greatest size and the greatest alignment that objects ask for.
//!
//! One pass over the rows of all objects notes in a map what is asked for under each name (`asked.rt`), and one
//! over the names of the link looks it up there (`room.rt`).
#![tactic(auto)]

mod asked;
mod room;

pub use room::{Room, rooms};
