//! What is wrong with the inputs of a link as a whole, and what the made file asks for.
//!
//! `inputs.rt` looks for a library with versions and for an input of another machine; `found.rt` finds a name
//! among those of a link; `needed.rt` lists the libraries that the made file asks for.
#![tactic(auto)]

mod found;
mod inputs;
mod needed;

pub use found::{check_entry, is_offered_among};
pub use inputs::{check_machines, check_versions};
pub use needed::{needed_names, rows_of};
