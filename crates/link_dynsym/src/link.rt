//! A link that has its layout.

ghost use Rattle.std.specs.Prelude.{◌≡◌};
ghost use Rattle.link_core.specs.Places as places;
ghost use Rattle.link_tables.specs.Filled.{outputs_filled};
ghost use Rattle.link_dynsym.specs.Made as meant;

use elf_object::Object;
use link_core::{Layout, LinkOptions, Machine, Plan, Resolution};
use link_tables::FilledOutput;
use link_where::{Commons, Pieces};
use std::marker::Model;

/// A link that has its layout, and what finds things in it.
pub struct Link<'a, M: Machine> {
    machine: &'a M,
    options: &'a LinkOptions,
    objects: &'a [Object],
    names: &'a Resolution,
    plan: &'a Plan,
    layout: &'a Layout,
    outputs: &'a [FilledOutput],
    pieces: &'a Pieces<'a>,
    commons: &'a Commons<'a>,
}

impl<'a, M: Machine> Model for Link<'a, M> {
    ghost use Rattle.link_dynsym.specs.Made.{Keeps, Laid as LaidMeant, laid};

    ghost Value = { LaidMeant };

    ghost view = { λ x. laid x.options.now x.objects.now x.names.now x.plan.now x.layout.now };

    ghost invariant = { λ x. Keeps M.rules
        (laid x.options.now x.objects.now x.names.now x.plan.now x.layout.now)
        x.outputs.now x.pieces.now x.commons.now };
}

impl<'a, M: Machine> Drop for Link<'a, M> {
    fn drop(self) {
        let Link {
            machine: _,
            options: _,
            objects: _,
            names: _,
            plan: _,
            layout: _,
            outputs: _,
            pieces: _,
            commons: _,
        } = self;
    }
}

impl<'a, M: Machine> Link<'a, M> {
    /// A link with its layout. `outputs` are its output sections in order of first appearance, and `pieces`
    /// and `commons` what finds pieces and common symbols in the layout.
    pub fn of(
        machine: &'a M,
        options: &'a LinkOptions,
        objects: &'a [Object],
        names: &'a Resolution,
        plan: &'a Plan,
        layout: &'a Layout,
        outputs: &'a [FilledOutput],
        pieces: &'a Pieces<'a>,
        commons: &'a Commons<'a>,
    ) -> Link<'a, M>
        requires keeps { meant.Keeps M.rules
            (meant.laid options.now objects.now names.now plan.now layout.now)
            outputs.now pieces.now commons.now }
        ensures { result ≡ meant.laid options.now objects.now names.now plan.now layout.now }
    {
        Link {
            machine,
            options,
            objects,
            names,
            plan,
            layout,
            outputs,
            pieces,
            commons,
        }
    }

    /// The machine.
    pub fn machine(&self) -> &M {
        self.machine
    }

    /// Law: the layout is that of the link.
    pub fn is_made(&self)
        ensures { meant.IsMade M.rules self.now }
    {
        let _ = &self.layout;
    }

    /// The options.
    pub fn options(&self) -> &LinkOptions
        ensures { result.now ≡ self.now.options }
    {
        self.options
    }

    /// The objects.
    pub fn objects(&self) -> &[Object]
        ensures { result.now ≡ self.now.objects }
    {
        self.objects
    }

    /// What their names stand for.
    pub fn names(&self) -> &Resolution
        ensures { result.now ≡ self.now.names }
    {
        self.names
    }

    /// What their references need.
    pub fn plan(&self) -> &Plan
        ensures { result.now ≡ self.now.plan }
    {
        self.plan
    }

    /// Where everything stands.
    pub fn layout(&self) -> &Layout
        ensures { result.now ≡ self.now.layout }
    {
        self.layout
    }

    /// The output sections in order of first appearance, each with what stands in it.
    pub fn outputs(&self) -> &[FilledOutput]
        ensures { result.now ≡ outputs_filled (meant.link_of M.rules self.now) }
    {
        self.outputs
    }

    /// Where the pieces stand.
    pub fn pieces(&self) -> &Pieces<'a>
        ensures { result.now ≡ self.now.layout.pieces }
    {
        self.pieces
    }

    /// The position of the section that a section of an object is a piece of, 0 where it is no piece.
    #[tactic(auto, unfolding(link_core::specs::Places::section_position))]
    pub fn section_position(&self, object: u32, section: u32) -> u32
        ensures { result ≡ places.section_position self.now.layout object section }
    {
        self.pieces.out(object, section)
    }

    /// The address of the common symbol whose name is at a position, 0 where there is none.
    #[tactic(auto, unfolding(link_core::specs::Places::common_address))]
    pub fn common_address(&self, name: u64) -> u64
        ensures { result ≡ places.common_address self.now.layout name }
    {
        self.commons.address(name)
    }
}
