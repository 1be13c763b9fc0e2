//! All names of a link: what objects mention, by the sections that are kept, what each name stands for, and what
//! is wrong with one.
//!
//! `mentioned.rt` makes the mentions of all objects; `provided.rt` knows the names that the link itself provides;
//! `names.rt` makes the rows, in byte order of names; `checks.rt` looks for the first name that a link refuses.
#![tactic(auto)]

mod checks;
mod mentioned;
mod names;
mod provided;

pub use checks::{check_hidden, check_once, check_undefined};
pub use mentioned::mentions_of;
pub use names::{Name, names_of};
pub use provided::is_provided;
