//! What every crate of `ifs` stands on: fields of 16, 32 and 64 bits in either byte order, names that end
//! in a NUL, texts as lists of bytes, and the one error of a call that finds no memory.
#![tactic(auto)]

mod decimal;
mod field;
mod form;
mod list;
mod memory;
mod name;
mod numeral;
mod text;

pub use field::{
    get_u16, get_u32, get_u64, get_word, has_room, put_u16, put_u32, put_u64, put_word, u16_at,
    u32_at, u64_at, word_at,
};
pub use form::{Order, Width};
pub use list::List;
pub use memory::Memory;
pub use name::name_at;
pub use numeral::number_of;
pub use text::Text;

#[cfg(test)]
mod tests;
