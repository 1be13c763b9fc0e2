//! Files by their paths.

ghost use Rattle.std.specs.Prelude.{◌≡◌, ◌≤◌, Option, IfSome, IfOk, vec_len};
ghost use Rattle.ifs_outside.specs.declared.counts.FileCounts.{FileCounts};
ghost use Rattle.ifs_outside.specs.Files.{FileMap, reading, ReadTells, ReadCounts, SameTells, SameCounts, Stores, WriteCounts};

use crate::cause::{Failed, ReadCause, WriteCause};
use std::alloc::Global;

/// Files, each whole at a path. A path is a text of bytes.
pub trait Files {
    /// The bytes that each path holds, where the files tell them.
    ghost map: { Self → Option FileMap };

    /// How often something happened to the files.
    ghost counts: { Self → FileCounts };

    /// The bytes that the path holds, at most `limit` of them. No file is changed.
    fn read(&mut self, alloc: Global, path: &[u8], limit: u64) -> Result<Vec<u8>, ReadCause>
        ensures within { IfOk result (λ bytes. vec_len bytes ≤ limit) }
        ensures tells { IfSome (map self.old) (λ files. ReadTells result (reading limit (files path.now))) }
        ensures keeps { map self.new ≡ map self.old }
        ensures counted { ReadCounts result (counts self.old) (counts self.new) };

    /// Whether the path holds just these bytes; false for a missing file. No file is changed.
    fn same(&mut self, path: &[u8], bytes: &[u8]) -> Result<bool, Failed>
        ensures tells { IfSome (map self.old) (λ files. SameTells result (files path.now) bytes.now) }
        ensures keeps { map self.new ≡ map self.old }
        ensures counted { SameCounts result (counts self.old) (counts self.new) };

    /// Makes the path hold the bytes. Where it fails the path may hold any bytes, or none; where memory
    /// runs out no file is changed.
    fn write(&mut self, path: &[u8], bytes: &[u8]) -> Result<(), WriteCause>
        ensures stores { Stores result path.now bytes.now (map self.old) (map self.new) }
        ensures counted { WriteCounts result (counts self.old) (counts self.new) };
}
