//! Items that each have a reference.

ghost use Rattle.std.specs.Prelude.{◌≡◌};
ghost use Rattle.link_core.specs.References.{Use, at_of};

use link_core::At;

/// An item that has a reference of a link.
pub trait Referring {
    ghost use_of: { Self → Use };

    /// The place of the reference.
    fn at(&self) -> At
        ensures { result ≡ at_of (use_of self.now) };
}
