//! The records of ELF files, in both widths and both byte orders: the file header, section headers,
//! program headers, rows of symbol tables and dynamic entries. Each is read at an offset and written at the
//! end of a vector; `Elf::parse` answers the header of a file with its two tables, or the first cause why
//! it can't be read. The width and the order are parameters of one table of places for each record, so
//! nothing here is written twice.
//!
//! Only the put calls and `ElfCause::printed` take memory. No clause ties their `Memory` to a refused
//! growth, so a body that always answers it would meet them; the tests show that each call succeeds.
#![tactic(auto)]

mod cause;
mod dynamic;
mod elf;
mod fields;
mod form;
mod header;
mod laws;
mod printed;
mod put;
mod section;
mod segment;
mod sizes;
mod symbol;

pub use cause::{ElfCause, NamePlace};
pub use dynamic::{Dyn, dyn_at, dynamic_entry_at, put_dyn};
pub use elf::Elf;
pub use header::{Header, put_header};
pub use laws::{headers_are_read_back, records_are_read_back, sizes_are_kept};
pub use section::{SectionHeader, put_section};
pub use segment::{Segment, put_segment};
pub use sizes::{dynamic_size, header_size, section_size, segment_size, symbol_size};
pub use symbol::{Row, put_row, row_at, symbol_row_at};

#[cfg(test)]
mod tests;
