//! Whoever links.

ghost use Rattle.std.specs.Prelude.{◌≡◌, ℕ, ◌+◌, ◌-◌, ◌<◌, ◌^◌, IfOk};
ghost use Rattle.link_core.specs.Answer.{IsJob, answer_of};

use crate::input::Job;
use crate::refusal::Answer;
use ifs_bytes::Memory;
use std::alloc::Global;

/// A linker, which counts its calls.
pub trait Linker {
    /// How often it was asked.
    ghost calls: { Self → ℕ };

    /// Links a job of 1 to 4,096 objects, each of fewer than 2^32 bytes, and at most 256 libraries. The count rises by one,
    /// whatever is answered. Only want of memory has no answer.
    fn link(&mut self, alloc: Global, job: &Job) -> Result<Answer, Memory>
        requires job { IsJob job.now }
        requires counts { calls self.old < 2 ^ 64 - 1 }
        ensures counted { calls self.new ≡ calls self.old + 1 }
        ensures answers { IfOk result (λ answer. answer ≡ answer_of job.now) };
}
