//! The program headers of a made file: what a loader maps, and where it finds what it needs.
//!
//! `rows.rt` makes the headers, each by a function of its own; `there.rt` tells which of them are there;
//! `starts.rt` has the addresses that they speak of; `put.rt` appends them.
#![tactic(auto)]

mod put;
mod rows;
mod starts;
mod there;

pub use put::put_segments;
pub use starts::offset_of;
pub use there::segment_count;
