//! What a machine is to a link: the classes of its relocation types, the values that their formulas take,
//! how a value goes into the bits of a field, and the bytes of the procedure linkage table.
#![tactic(auto)]

mod class;
mod dynamic;
mod laws;
mod machine;
mod patch;
mod rule;
mod value;

pub use class::{PatchCause, RefClass, Values};
pub use dynamic::DynamicTypes;
pub use laws::{
    later_patch_stands, patch_keeps_other_bits, signed_value_is_read_back,
    unsigned_value_is_read_back, value_is_read_back,
};
pub use machine::Machine;
pub use patch::{patch_by, put_field};
pub use rule::{Bits, Field, Formula, Range, Rule};
pub use value::{pages_apart, value_by};
