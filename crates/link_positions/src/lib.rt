//! The layout of an image by counts of its tables and by its output sections, or the first limit that it doesn't keep.
//!
//! `next` counts the positions of output sections, class by class; `standing` gives pieces and common symbols their
//! addresses; `whole` looks at the limits and puts all together. An address that is above a limit is never used.
#![tactic(auto)]

mod next;
mod standing;
mod whole;

pub use next::Next;
pub use whole::lay_out_from;
