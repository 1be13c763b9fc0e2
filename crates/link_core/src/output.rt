//! The parts that the sections of the made file fall into.

/// What a section needs of the memory that it is loaded to.
#[derive(Clone, Copy, Debug, PartialEq, Eq)]
pub enum OutClass {
    /// It is only read.
    R,
    /// It is executed, and not written.
    X,
    /// It is written.
    W,
    /// Each thread has its own, with bytes in the file.
    T,
    /// Each thread has its own, all zero (.tbss).
    Z,
    /// It is written, and all zero (.bss).
    B,
}
