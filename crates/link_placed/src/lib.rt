//! A link that has its layout, and what finds things in it: tables, sections, slots and linkage entries.
//!
//! `Link` holds what the steps before gave, with an index of each. Clauses speak of `link_of M.rules self.now`, the link without
//! its layout, and of `self.now.layout`. `tables.rt` has the tables of the made file, and `slots.rt` the addresses of what
//! stands in them. Each look-up takes one step.
#![tactic(auto)]

mod link;
mod slots;
mod table;
mod tables;

pub use link::Link;
pub use table::Table;
