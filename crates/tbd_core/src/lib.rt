//! What text-based stubs of dynamic libraries say.
//!
//! A `Dylib` holds parts in normal form. `Dylib::new` looks at them part by part (`broken.rt`) and takes no memory, so
//! it goes through the targets, of which a library has few, once for each.
//!
//! `united` sorts symbols and makes one of each run of one key (`unite.rt`). The libraries of `of_interface`,
//! `forget_for_v4` and `segments_for_v5` are made of such symbols.
//!
//! No clause says when memory runs out, so bodies of the copies, of `append_to` and of `printed` that answer `Memory`
//! alone meet theirs.
#![tactic(auto)]

mod broken;
mod cause;
mod convert;
mod dylib;
mod fault;
mod from_interface;
mod place;
mod symbol;
mod unite;
mod version;

pub use broken::is_proper_name;
pub use cause::{PrintCause, TbdCause};
pub use convert::{forget_for_v4, segments_for_v5};
pub use dylib::{Dylib, DylibField, DylibParts, Named, Tbd, TbdTarget};
pub use fault::{Fault, Wrong, bad_unless};
pub use from_interface::of_interface;
pub use place::place_of;
pub use symbol::{Part, Section, SymbolKind, TbdSymbol};
pub use unite::united;
pub use version::{FIRST_VERSION, Version, version_named};
