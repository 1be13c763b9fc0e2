//! Limits of what is read.

/// The most bytes that a file may have.
pub const MOST_FILE_BYTES: u64 = 134_217_728;
