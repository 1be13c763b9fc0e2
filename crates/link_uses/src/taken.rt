//! The references of a link, each with what it needs.

ghost use Rattle.std.specs.Prelude.{◌≡◌};
ghost use Rattle.ifs_bytes.specs.Outcome.{UnlessMemory};
ghost use Rattle.link_needs.specs.Needs.{stopped};
ghost use Rattle.link_uses.specs.Comes.{Comes};
ghost use Rattle.link_uses.specs.Uses.{taken_of, seen};

use crate::given::Given;
use crate::pass::pass_objects;
use elf_object::Object;
use link_core::{At, LinkOptions, LinkStop, Machine, Resolution, names_are_bound_once};
use link_needs::{Needed, Use};
use link_order::Referring;
use std::alloc::Global;
use std::marker::Model;

/// A reference of a kept section, with what it needs.
#[derive(Drop)]
pub struct Taken<'a> {
    /// The reference, with its object and the object's position.
    pub used: Use<'a>,
    /// What it needs, with its place and its symbol.
    pub needed: Needed,
}

impl<'a> Model for Taken<'a> {
    ghost use Rattle.link_uses.specs.Uses.{Taken as TakenMeant};

    ghost Value = { TakenMeant };

    ghost view = { λ t. record { used = t.used; needed = t.needed } };
}

impl<'a> Referring for Taken<'a> {
    ghost use_of = { λ t. t.used };

    fn at(&self) -> At {
        self.used.at()
    }
}

/// The references of the kept sections of these objects, by object, section and index, each with what it
/// needs, where `names` is what their names stand for under the same options. The first reference that can't
/// be taken or can't have what it needs gives the refusal: Unsupported, Discarded, TlsMismatch,
/// TextRelocation, NotPic, CopyRelocation or CanonicalPlt. There are at most 4,096 objects, each of fewer
/// than 2^32 bytes.
pub fn taken_uses<'a, M: Machine>(
    alloc: Global,
    machine: &M,
    options: &LinkOptions,
    objects: &'a [Object],
    names: &Resolution,
) -> Result<Vec<Taken<'a>>, LinkStop>
    requires { Comes options.now objects.now names.now }
    ensures { UnlessMemory LinkStop.Memory (seen result)
        (stopped (taken_of M.rules options.now objects.now names.now)) }
{
    names_are_bound_once();
    let given = Given {
        options,
        names,
        objects,
    };
    pass_objects(alloc, machine, &given)
}
