//! What the references of a link are taken from.

use elf_object::Object;
use link_core::{LinkOptions, Resolution};
use std::marker::Model;

/// The options, the names and the objects of a link.
#[derive(Drop)]
pub struct Given<'g, 'a> {
    pub options: &'g LinkOptions,
    pub names: &'g Resolution,
    pub objects: &'a [Object],
}

impl<'g, 'a> Model for Given<'g, 'a> {
    ghost use Rattle.link_uses.specs.Passes.{Given as GivenMeant};

    ghost Value = { GivenMeant };

    ghost view = { λ g. record { options = g.options.now; names = g.names.now; objects = g.objects.now } };
}
