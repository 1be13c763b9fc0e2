//! What one name of a link stands for: an object's definition, room, an address that the link provides, what a
//! library has under the name, or nothing.
//!
//! `library.rt` asks libraries, however they were read; `wanted.rt` lists the names that they want; `bind.rt`
//! puts the choices in order; `row.rt` makes the row of the name.
#![tactic(auto)]

mod bind;
mod library;
mod row;
mod wanted;

pub use bind::{Bind, bind_name};
pub use library::{HeldLib, first_library, held_libs, is_defined_by_one};
pub use row::{is_offered, row_of};
pub use wanted::{is_wanted, wanted_names};
