//! The output sections of a link: their names and classes, and which input sections make them, in which order.
//!
//! `piece.rt` lists the sections that a link keeps; `groups.rt` puts them together by the name (`name.rt`) and the
//! class (`class.rt`) of their output sections; `suffix.rt` reads the priority of constructors and destructors.
//!
//! A body that always answers that memory ran out meets the contracts of `kept_pieces`, `group` and `section_names`.
#![tactic(auto)]

mod class;
mod groups;
mod name;
mod piece;
mod suffix;
#[cfg(test)]
mod tests;

pub use class::class_of;
pub use groups::{Grouped, group, section_names};
pub use name::output_name;
pub use piece::{Piece, kept_pieces};
pub use suffix::priority;
