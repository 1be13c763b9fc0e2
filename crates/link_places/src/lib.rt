//! The sections of an image at their places.
//!
//! `make_segments` makes the sections of all output sections beside the tables, segment by segment, `find_bounds` says where the
//! segments start and end and how much memory the image takes, and `place_all` gives each section its address. Numbers stop at
//! 2^128 - 1, so that the span is known, and a limit can be kept, before any address is taken for one of 64 bits.
#![tactic(auto)]

mod bounds;
mod placed;
mod segments;

pub use bounds::{Bounds, find_bounds};
pub use placed::place_all;
pub use segments::{Segments, make_segments, same_class};
