//! The positions of output sections.

ghost use Rattle.std.specs.Prelude.{◌≡◌};
ghost use Rattle.link_positions.specs.Next as meant;

use link_core::OutClass;
use link_places::Segments;

/// The position of the next output section of each class among all sections. 2^32 - 1 stands for any greater one.
#[derive(Clone, Copy, Debug, PartialEq, Eq)]
pub struct Next {
    /// Of those that are only read.
    pub read: u32,
    /// Of those that are executed.
    pub code: u32,
    /// Of those that each thread has for itself.
    pub thread: u32,
    /// Of their zeros.
    pub zeros: u32,
    /// Of those that are written.
    pub written: u32,
    /// Of those that are written and all zero.
    pub blank: u32,
}

// A position.
fn position(n: u128) -> u32
    ensures { result ≡ meant.position n }
{
    n.min(u128::from(u32::MAX)) as u32
}

impl Next {
    /// The positions of the first output sections.
    #[tactic(auto, unfolding(crate::specs::Next::first_of))]
    pub fn first_of(s: &Segments) -> Next
        ensures { result ≡ meant.first_of s.now }
    {
        let code = s.read.as_slice().len() as u128;
        let thread = code + s.code.as_slice().len() as u128;
        let zeros = thread + s.thread.as_slice().len() as u128;
        let written = zeros + s.zeros.as_slice().len() as u128;
        Next {
            read: position(s.read_tables as u128),
            code: position(code + s.code_tables as u128),
            thread: position(thread),
            zeros: position(zeros),
            written: position(written + s.written_tables as u128),
            blank: position(written + s.first_zeros as u128),
        }
    }

    /// The position of the next one of a class.
    pub fn at(self, class: OutClass) -> u32
        ensures { result ≡ meant.at self class }
    {
        match class {
            OutClass::R => self.read,
            OutClass::X => self.code,
            OutClass::T => self.thread,
            OutClass::Z => self.zeros,
            OutClass::W => self.written,
            OutClass::B => self.blank,
        }
    }

    /// The positions behind the next one of a class.
    pub fn behind(self, class: OutClass) -> Next
        ensures { result ≡ meant.behind self class }
    {
        let mut next = self;
        match class {
            OutClass::R => next.read = self.read.saturating_add(1),
            OutClass::X => next.code = self.code.saturating_add(1),
            OutClass::T => next.thread = self.thread.saturating_add(1),
            OutClass::Z => next.zeros = self.zeros.saturating_add(1),
            OutClass::W => next.written = self.written.saturating_add(1),
            OutClass::B => next.blank = self.blank.saturating_add(1),
        }
        next
    }
}
