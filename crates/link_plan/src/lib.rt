//! What the references of a link need, or the first refusal: the plan of a link.
//!
//! The references come one by one with what each needs, or with the first refusal (`taken_uses` of
//! `link_uses`), and the lists grow by these needs in that order (planned.rt). What the names add stands in
//! names.rt.
//!
//! A body that always answers that memory ran out meets the contract of `plan`.
#![tactic(auto)]

mod names;
mod planned;

pub use planned::plan;
