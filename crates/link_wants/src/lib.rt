//! Names that libraries want from a link: whether something is there for each.
//!
//! A library is looked at where all libraries that it needs are given. Of the names that it wants strongly, and for
//! which nothing is there, a link names the least.
#![tactic(auto)]

mod least;
mod wants;

pub use wants::check_libraries;
