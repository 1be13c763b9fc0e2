//! A link that has its layout.

ghost use Rattle.std.specs.Option.{option_copied};
ghost use Rattle.std.specs.Prelude.{◌≡◌};
ghost use Rattle.link_core.specs.Places as places;
ghost use Rattle.link_tables.specs.Filled.{outputs_filled};
ghost use Rattle.link_where.specs.Tables as tables;
ghost use Rattle.link_placed.specs.Made as meant;

use elf_object::Object;
use link_core::{Layout, LinkOptions, Machine, OutSection, Plan, Resolution};
use link_index::PlanIndex;
use link_tables::FilledOutput;
use link_where::{Commons, Ends, Pieces, TablePositions, named_section};
use std::marker::Model;

/// A link that has its layout, and what finds things in it.
pub struct Link<'a, M: Machine> {
    machine: &'a M,
    options: &'a LinkOptions,
    objects: &'a [Object],
    names: &'a Resolution,
    plan: &'a Plan,
    layout: &'a Layout,
    outputs: &'a [FilledOutput],
    pieces: &'a Pieces<'a>,
    commons: &'a Commons<'a>,
    index: &'a PlanIndex<'a>,
    positions: TablePositions,
    ends: Ends,
    moves: bool,
    words: bool,
}

impl<'a, M: Machine> Model for Link<'a, M> {
    ghost use Rattle.link_placed.specs.Made.{Keeps, Laid as LaidMeant, laid};

    ghost Value = { LaidMeant };

    ghost view = { λ x. laid x.options.now x.objects.now x.names.now x.plan.now x.layout.now };

    ghost invariant = { λ x. Keeps M.rules
        (laid x.options.now x.objects.now x.names.now x.plan.now x.layout.now)
        x.outputs.now x.pieces.now x.commons.now x.index.now x.positions x.ends x.moves x.words };
}

impl<'a, M: Machine> Drop for Link<'a, M> {
    fn drop(self) {
        let Link {
            machine: _,
            options: _,
            objects: _,
            names: _,
            plan: _,
            layout: _,
            outputs: _,
            pieces: _,
            commons: _,
            index: _,
            positions: _,
            ends: _,
            moves: _,
            words: _,
        } = self;
    }
}

impl<'a, M: Machine> Link<'a, M> {
    /// A link with its layout. `outputs` are its output sections in order of first appearance, `pieces` and
    /// `commons` what finds pieces and common symbols in the layout, `index` what finds things of the plan,
    /// `positions` those of the tables among the sections, `ends` where the parts of the file end, and `moves` and `words` whether .rela.dyn and
    /// .got have entries.
    pub fn of(
        machine: &'a M,
        options: &'a LinkOptions,
        objects: &'a [Object],
        names: &'a Resolution,
        plan: &'a Plan,
        layout: &'a Layout,
        outputs: &'a [FilledOutput],
        pieces: &'a Pieces<'a>,
        commons: &'a Commons<'a>,
        index: &'a PlanIndex<'a>,
        positions: TablePositions,
        ends: Ends,
        moves: bool,
        words: bool,
    ) -> Link<'a, M>
        requires keeps { meant.Keeps M.rules
            (meant.laid options.now objects.now names.now plan.now layout.now)
            outputs.now pieces.now commons.now index.now positions ends moves words }
        ensures { result ≡ meant.laid options.now objects.now names.now plan.now layout.now }
    {
        Link {
            machine,
            options,
            objects,
            names,
            plan,
            layout,
            outputs,
            pieces,
            commons,
            index,
            positions,
            ends,
            moves,
            words,
        }
    }

    /// The machine.
    pub fn machine(&self) -> &M {
        self.machine
    }

    /// Law: the layout is that of the link.
    pub fn is_made(&self)
        ensures { meant.IsMade M.rules self.now }
    {
        let _ = &self.layout;
    }

    /// The options.
    pub fn options(&self) -> &LinkOptions
        ensures { result.now ≡ self.now.options }
    {
        self.options
    }

    /// The objects.
    pub fn objects(&self) -> &[Object]
        ensures { result.now ≡ self.now.objects }
    {
        self.objects
    }

    /// What their names stand for.
    pub fn names(&self) -> &Resolution
        ensures { result.now ≡ self.now.names }
    {
        self.names
    }

    /// What their references need.
    pub fn plan(&self) -> &Plan
        ensures { result.now ≡ self.now.plan }
    {
        self.plan
    }

    /// Where everything stands.
    pub fn layout(&self) -> &Layout
        ensures { result.now ≡ self.now.layout }
    {
        self.layout
    }

    /// The output sections in order of first appearance, each with what stands in it.
    pub fn outputs(&self) -> &[FilledOutput]
        ensures { result.now ≡ outputs_filled (meant.link_of M.rules self.now) }
    {
        self.outputs
    }

    /// Where the pieces stand.
    pub fn pieces(&self) -> &Pieces<'a>
        ensures { result.now ≡ self.now.layout.pieces }
    {
        self.pieces
    }

    /// What finds slots, linkage entries and dynamic symbols.
    pub fn index(&self) -> &PlanIndex<'a>
        ensures { result.now ≡ self.now.plan }
    {
        self.index
    }

    /// The positions of the tables among the sections.
    pub fn positions(&self) -> TablePositions
        ensures { result ≡ tables.positions (meant.link_of M.rules self.now) }
    {
        self.positions
    }

    /// Where the parts of the made file end.
    pub fn ends(&self) -> Ends
        ensures { result ≡ meant.ends_of self.now.layout }
    {
        self.ends
    }

    /// The section of the first output section of a name; None where there is none.
    pub fn named_section(&self, name: &[u8]) -> Option<&OutSection>
        ensures { option_copied result ≡ places.named_section (meant.link_of M.rules self.now) self.now.layout name.now }
    {
        named_section(
            self.options.kind,
            self.plan,
            self.moves,
            self.words,
            self.outputs,
            self.layout,
            name,
        )
    }

    /// The address of a section of an object, 0 where it is no piece.
    #[tactic(auto, unfolding(link_core::specs::Places::section_address))]
    pub fn section_address(&self, object: u32, section: u32) -> u64
        ensures { result ≡ places.section_address self.now.layout object section }
    {
        self.pieces.address(object, section)
    }

    /// The position of the section that a section of an object is a piece of, 0 where it is no piece.
    #[tactic(auto, unfolding(link_core::specs::Places::section_position))]
    pub fn section_position(&self, object: u32, section: u32) -> u32
        ensures { result ≡ places.section_position self.now.layout object section }
    {
        self.pieces.out(object, section)
    }

    /// The address of the common symbol whose name is at a position, 0 where there is none.
    #[tactic(auto, unfolding(link_core::specs::Places::common_address))]
    pub fn common_address(&self, name: u64) -> u64
        ensures { result ≡ places.common_address self.now.layout name }
    {
        self.commons.address(name)
    }
}
