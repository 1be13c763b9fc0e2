//! How the bytes of an image are written: fields in place, words, and parts at their offsets.
#![tactic(auto)]

mod field;
mod part;

pub use field::{field_at, put_field, put_words};
pub use part::{pad_to, put_part};

#[cfg(test)]
mod tests;
