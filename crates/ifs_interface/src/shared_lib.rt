//! What a link asks of a library, however it was read.

ghost use Rattle.std.specs.Prelude.{◌≡◌, ℕ, Bool, true, List, Option, length, option_map, slice_get};
ghost use Rattle.std.specs.Option.{option_copied, option_flatten};
ghost use Rattle.ifs_interface.specs.Facts.{Facts, AreWanted, wanted_names};
ghost use Rattle.ifs_interface.specs.Interface.{ascends};
ghost use Rattle.ifs_interface.specs.Wanted.{seen};

use crate::fact::Fact;
use crate::target::MachineFact;

/// A name that a library wants from elsewhere.
#[derive(Clone, Copy, Debug, PartialEq, Eq)]
pub struct Wanted<'a> {
    /// The name: bytes, not empty, without NUL.
    pub name: &'a [u8],
    /// Whether a link without the name fails.
    pub strong: bool,
}

/// A library as a link sees it. No call takes memory.
pub trait SharedLib {
    /// What the library is, defines and wants.
    ghost facts: { Self → Facts };

    /// What `wanted` answers at each place below `wanted_len`.
    ghost wanted_list: { Self → List (Option (List ℕ × Bool)) };

    /// The library's own name, by which clients ask for it (DT_SONAME).
    fn soname(&self) -> Option<&[u8]>
        ensures { option_copied result ≡ (facts self.now).soname };

    /// How many libraries it needs.
    fn needed_len(&self) -> usize
        ensures { result ≡ length (facts self.now).needed };

    /// The name of the needed library at place `i` (DT_NEEDED); None exactly where `i` isn't below
    /// `needed_len`.
    fn needed(&self, i: usize) -> Option<&[u8]>
        ensures { option_copied result ≡ slice_get (facts self.now).needed i };

    /// What a name is that the library defines; None exactly where it doesn't define it.
    fn fact(&self, name: &[u8]) -> Option<Fact>
        ensures { result ≡ (facts self.now).fact_of name.now };

    /// How many places `wanted` has. Each wanted name stands at one of them at least, and strongly at
    /// one exactly where it is wanted strongly. The facts have these names in byte order, each once.
    fn wanted_len(&self) -> usize
        ensures places { result ≡ length (wanted_list self.now) }
        ensures wanted { AreWanted (facts self.now) (wanted_list self.now) }
        ensures order { ascends (wanted_names (facts self.now)) ≡ true };

    /// The wanted name at place `i`; a place may have none, and from `wanted_len` on none has.
    fn wanted(&self, i: usize) -> Option<Wanted<'_>>
        ensures { option_map seen result ≡ option_flatten (slice_get (wanted_list self.now) i) };

    /// The machine, byte order and width that it is for, as far as they are known.
    fn machine(&self) -> MachineFact
        ensures { result ≡ (facts self.now).machine };
}
