//! Where everything of the made file stands.
//!
//! `lay_out` makes the output sections of a link, counts its tables, and so gives exactly the layout that the link has, or the
//! first limit that it doesn't keep. Laws say how things stand in each layout.
#![tactic(auto)]

mod complete;
mod laws;
mod layout;

pub use complete::lay_out;
pub use laws::{
    pieces_are_within, places_are_aligned, places_ascend, sections_are_the_contents,
    sections_are_within, tables_have_their_size,
};
