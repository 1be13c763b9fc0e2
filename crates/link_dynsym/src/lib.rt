//! The dynamic symbols of a made file, .dynsym: a row for no symbol, a row for each import, and a row for each
//! export.
//!
//! `rows.rt` makes one row, by what its name is bound to; `commons.rt` finds once for a link what the rows of
//! common symbols say; `put.rt` goes over the imports and the exports, and appends row by row.
#![tactic(auto)]

mod commons;
mod fields;
mod link;
mod put;
mod rows;
mod tables;

pub use link::Link;
pub use put::put_dynsym;
pub use tables::{put_dynstr, put_hash, put_interp};
