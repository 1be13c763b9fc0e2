//! The symbol that a reference names, and what a reference to it needs.
//!
//! A symbol of an object is the object's own, or a name of the link, which is found among the names of a
//! `Resolution` by halving (names.rt). What the symbol is to the made file (state.rt) and what the relocation
//! type asks for give the need, by a table (need.rt).
#![tactic(auto)]

mod names;
mod need;
mod state;
mod target;

pub use need::{Setting, fits_class, need_of};
pub use state::is_threaded;
pub use target::{Target, no_symbol, target_at};
