//! What the names of a link stand for, or the first refusal.
//!
//! `resolve` takes objects and libraries. What objects mention is put in byte order of the names, and each
//! name gets its row by its own mentions alone. Of a library it asks one fact for each name that no object
//! defines, and goes once through the names that it wants.
#![tactic(auto)]

mod names;
mod refused;
mod resolution;

pub use resolution::resolve;
