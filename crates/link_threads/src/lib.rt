//! Whether a link has references to the thread pointer, which a library's DT_FLAGS tell.
//!
//! One pass goes over the references of all objects, and asks flags of kept sections which of them count.
#![tactic(auto)]

mod pointer;

pub use pointer::{has_flags, has_initial_exec};
