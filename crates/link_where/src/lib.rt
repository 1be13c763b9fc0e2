//! Look-ups in a layout: where the sections, the pieces and the common symbols of the made file stand.
//!
//! `Pieces` and `Commons` find what stands in an output section by one look-up, and `Ends` has where the
//! parts of the file end. `table_positions` finds the tables by what is there of them, and by the flags of
//! the sections. Each is made by one pass over the layout.
#![tactic(auto)]

mod commons;
mod ends;
mod named;
mod pieces;
mod tables;

pub use commons::Commons;
pub use ends::Ends;
pub use named::named_section;
pub use pieces::Pieces;
pub use tables::{TablePositions, table_address, table_positions, table_size};
