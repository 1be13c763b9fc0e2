//! Output sections with what stands in them.
//!
//! `order.rt` puts the pieces of an output section in the order of their priorities, `filling.rt` fills
//! output sections, and `outputs.rt` makes and fills those of a link.
#![tactic(auto)]

mod filling;
mod order;
mod outputs;

pub use outputs::fill_outputs;
