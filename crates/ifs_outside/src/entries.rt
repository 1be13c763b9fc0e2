//! What paths hold in memory.

ghost use Rattle.std.specs.Prelude.{◌≡◌, ◌≢◌, ◌≤◌, ◌<◌, ◌↔◌, [], length, position, slice_get, slice_set, IfSome, Some, None, OnOk, OnErr, IfOk, IsTrue, vec_len};
ghost use Rattle.std.specs.Option.{option_copied};
ghost use Rattle.std.specs.Str.{bytes_eq};
ghost use Rattle.ifs_outside.specs.Files.{put, reading, ReadTells};
ghost use Rattle.ifs_outside.specs.MemoryFiles.{held_in};

use crate::cause::ReadCause;
use ifs_bytes::{Memory, Text};
use std::alloc::Global;
use std::marker::Model;

/// A path, and the bytes that it holds; None where it was taken away, which so takes no memory.
#[derive(Debug, Drop)]
pub(crate) struct Entry {
    path: Text,
    bytes: Option<Text>,
}

/// What paths hold.
#[derive(Debug, Drop)]
pub(crate) struct Entries {
    list: Vec<Entry>,
}

impl Model for Entries {
    ghost use Rattle.std.specs.Prelude.{List};
    ghost use Rattle.ifs_outside.specs.declared.entries.Entry.{Entry};

    ghost Value = { List Entry };

    ghost view = { λ entries. entries.list.items };
}

impl Entries {
    /// No path holds anything.
    pub(crate) fn new(alloc: Global) -> Entries
        ensures { result ≡ [] }
    {
        Entries {
            list: Vec::new(alloc),
        }
    }

    // The place of the first entry with the path.
    fn place(&self, path: &[u8]) -> Option<usize>
        ensures { result ≡ position (λ entry. bytes_eq entry.path path.now) self.now }
    {
        self.list
            .iter()
            .position(|entry| entry.path.as_bytes() == path)
    }

    /// What the path holds.
    pub(crate) fn get(&self, path: &[u8]) -> Option<&[u8]>
        ensures { option_copied result ≡ held_in self.now path.now }
    {
        let place = self.place(path)?;
        match &self.list[place].bytes {
            Some(bytes) => Some(bytes.as_bytes()),
            None => None,
        }
    }

    /// A copy of what the path holds, at most `limit` bytes.
    pub(crate) fn read(&self, alloc: Global, path: &[u8], limit: u64) -> Result<Vec<u8>, ReadCause>
        ensures within { IfOk result (λ bytes. vec_len bytes ≤ limit) }
        ensures tells { ReadTells result (reading limit (held_in self.now path.now)) }
        ensures steady { result ≢ Err ReadCause.Failed }
    {
        match self.get(path) {
            None => Err(ReadCause::Missing),
            Some(bytes) => {
                if bytes.len() as u64 > limit {
                    return Err(ReadCause::TooLarge);
                }
                Ok(Vec::from_slice(alloc, bytes)?)
            }
        }
    }

    /// Whether the path holds just these bytes.
    pub(crate) fn holds(&self, path: &[u8], bytes: &[u8]) -> bool
        ensures { IsTrue result ↔ (held_in self.now path.now ≡ Some bytes.now) }
    {
        match self.get(path) {
            None => false,
            Some(held) => held == bytes,
        }
    }

    // Changes what the entry at a place holds.
    fn change(&mut self, place: usize, held: Option<Text>)
        requires { place < length self.old }
        ensures { IfSome (slice_get self.old place) (λ entry. self.new ≡ slice_set self.old place (record entry { bytes = held })) }
    {
        self.list[place].bytes = held;
    }

    /// Makes the path hold the bytes; where memory runs out nothing changes.
    pub(crate) fn put(&mut self, path: &[u8], bytes: &[u8]) -> Result<(), Memory>
        ensures ok { OnOk result (held_in self.new ≡ put path.now (Some bytes.now) (held_in self.old)) }
        ensures memory { OnErr result (self.new ≡ self.old) }
    {
        let alloc = *self.list.allocator();
        let bytes = Text::from_slice(alloc, bytes)?;
        match self.place(path) {
            Some(place) => self.change(place, Some(bytes)),
            None => self.list.push(Entry {
                path: Text::from_slice(alloc, path)?,
                bytes: Some(bytes),
            })?,
        }
        Ok(())
    }

    /// Takes the path away.
    pub(crate) fn remove(&mut self, path: &[u8])
        ensures { held_in self.new ≡ put path.now None (held_in self.old) }
    {
        if let Some(place) = self.place(path) {
            self.change(place, None);
        }
    }
}
