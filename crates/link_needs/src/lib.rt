//! What one reference of a link needs, once its symbol is known, and the lists of a plan, as they grow by what
//! references need.
//!
//! `reference.rt` looks at what stands alone in an object: whether the machine takes the reference there.
//! `needed.rt` asks the table what it needs, or makes its refusal. `lists.rt` keeps slots and names each once, in
//! sets that stay in the order of the first need.
//!
//! A body that always answers that memory ran out meets the contracts of `needed_with` and `add`.
#![tactic(auto)]

mod lists;
mod needed;
mod reference;

pub use lists::Lists;
pub use needed::{Needed, needed_with};
pub use reference::Use;
