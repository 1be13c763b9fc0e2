//! The references of the kept sections of a link, in order, each with what it needs, or the first refusal.
//!
//! One pass goes over the references (pass.rt). Before those of an object it notes which of the object's
//! sections are kept (kept.rt), and makes a table of the symbols in its rows (table.rt), so that a name is
//! looked up once for each row and not for each reference. The first reference with a cause ends the pass.
//! Among what is taken, `run_of` of `link_order` finds the references of a section, and `found_at` that of a
//! place, since each item has a reference (`Referring`).
//!
//! A body that always answers that memory ran out meets the contract of `taken_uses`.
#![tactic(auto)]

mod given;
mod kept;
mod laws;
mod pass;
mod table;
mod taken;

pub use laws::uses_are_kept_beside_needs;
pub use taken::{Taken, taken_uses};
