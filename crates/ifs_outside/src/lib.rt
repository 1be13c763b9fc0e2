//! The outside of `ifs`: bytes that are read to their end, bytes that are written, and files. Each is a
//! trait whose contract says what a call gives, what it leaves, and that a fault is answered only where
//! the object that was handed in counted one. The forms in memory tell all that they hold and fail at
//! the calls that a list names, and at no others. The forms over std tell nothing: no contract can say
//! what a real file holds, so a StdFiles whose `same` always answered false would meet the trait too. What
//! they make of a reader or a writer whose bytes are known is proved beside it, and tests show the rest.
#![tactic(auto)]

mod cause;
mod counts;
mod entries;
mod files;
mod memory_files;
mod memory_sink;
mod memory_source;
mod schedule;
mod sink;
mod source;
mod std_files;
mod std_sink;
mod std_source;

pub use cause::{Failed, ReadCause, WriteCause};
pub use counts::FileCounts;
pub use files::Files;
pub use memory_files::MemoryFiles;
pub use memory_sink::MemorySink;
pub use memory_source::MemorySource;
pub use sink::{Sink, write_all};
pub use source::Source;
pub use std_files::StdFiles;
pub use std_sink::StdSink;
pub use std_source::StdSource;

#[cfg(test)]
mod tests;
