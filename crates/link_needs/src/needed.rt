//! What one reference needs.

ghost use Rattle.std.specs.Prelude.{◌≡◌, IfOk, take, option_map, Result, Ok, Err};
ghost use Rattle.ifs_bytes.specs.Outcome.{UnlessMemory};
ghost use Rattle.link_core.specs.Plan as meant;
ghost use Rattle.link_core.specs.References as references;
ghost use Rattle.link_targets.specs.Targets as targets;
ghost use Rattle.link_needs.specs.Needs as needs;

use crate::reference::{Use, supported};
use ifs_bytes::{Memory, Text};
use link_core::{
    At, LinkOptions, LinkRefusal, LinkStop, Machine, Need, RefClass, Resolution, SymbolId, Unmet,
};
use link_targets::{Setting, Target, fits_class, need_of};
use std::alloc::Global;
use std::marker::Model;

/// What a reference needs, with its place and its symbol.
#[derive(Drop)]
pub struct Needed {
    /// The place of the reference.
    pub at: At,
    /// The symbol.
    pub symbol: SymbolId,
    /// What is needed.
    pub need: Need,
}

impl Model for Needed {
    ghost use Rattle.link_core.specs.Plan.{Needed as NeededMeant};

    ghost Value = { NeededMeant };

    ghost view = { λ n. record { at = n.at; symbol = n.symbol; need = n.need } };
}

// The name of a symbol.
fn name_of(alloc: Global, names: &Resolution, symbol: SymbolId) -> Result<Text, Memory>
    ensures { IfOk result (λ name. name ≡ targets.name_of names.now symbol) }
{
    match symbol {
        SymbolId::Name(i) => match names.names.as_slice().get(i as usize) {
            Some(row) => Ok(row.name.copy(alloc)?),
            None => Ok(Text::new(alloc)),
        },
        SymbolId::Local(_, _) => Ok(Text::new(alloc)),
        SymbolId::Module => Ok(Text::new(alloc)),
    }
}

// The refusal of a reference that can't have what it needs.
fn refusal_of(
    alloc: Global,
    names: &Resolution,
    taken: &Use<'_>,
    target: &Target,
    cause: Unmet,
) -> Result<LinkRefusal, Memory>
    ensures { IfOk result (λ refusal. refusal
        ≡ meant.refusal_of taken.now (targets.target_seen names.now target.now) cause) }
{
    let at = taken.at();
    match cause {
        Unmet::TextRelocation => Ok(LinkRefusal::TextRelocation(at)),
        Unmet::NotPic => Ok(LinkRefusal::NotPic(at)),
        Unmet::CopyRelocation => {
            let name = name_of(alloc, names, target.symbol)?;
            Ok(LinkRefusal::CopyRelocation(name, at))
        }
        Unmet::CanonicalPlt => {
            let name = name_of(alloc, names, target.symbol)?;
            Ok(LinkRefusal::CanonicalPlt(name, at))
        }
    }
}

// What a reference needs by the table, or its refusal.
fn met(
    alloc: Global,
    names: &Resolution,
    taken: &Use<'_>,
    target: &Target,
    answer: Result<Need, Unmet>,
) -> Result<Needed, LinkStop>
    ensures { UnlessMemory LinkStop.Memory result
        (needs.stopped (meant.met taken.now (targets.target_seen names.now target.now) answer)) }
{
    match answer {
        Ok(need) => Ok(Needed {
            at: taken.at(),
            symbol: target.symbol,
            need,
        }),
        Err(cause) => {
            let refusal = refusal_of(alloc, names, taken, target, cause)?;
            Err(LinkStop::Refused(refusal))
        }
    }
}

// The first bytes of a name, at most `count`.
fn front(name: &[u8], count: usize) -> &[u8]
    ensures { result.now ≡ take count name.now }
{
    if count < name.len() {
        let (front, _) = name.split_at(count);
        front
    } else {
        name
    }
}

// Whether a section of that name says of code what was left out with it.
fn is_cleared_in(name: &[u8]) -> bool
    ensures { result ≡ meant.is_cleared_in name.now }
{
    name == b".eh_frame".as_slice() || front(name, 17) == b".gcc_except_table".as_slice()
}

// What a reference to what was left out needs.
fn left_out(taken: &Use<'_>) -> Result<Needed, LinkStop>
    ensures { result ≡ needs.stopped (meant.left_out taken.now) }
{
    if is_cleared_in(taken.section_name()) {
        Ok(Needed {
            at: taken.at(),
            symbol: SymbolId::Local(taken.object, 0),
            need: Need::Clear,
        })
    } else {
        Err(LinkStop::Refused(LinkRefusal::Discarded(taken.at())))
    }
}

// What a reference of a class needs, to a symbol.
fn need_at(
    alloc: Global,
    options: &LinkOptions,
    names: &Resolution,
    taken: &Use<'_>,
    class: RefClass,
    target: &Target,
) -> Result<Needed, LinkStop>
    ensures { UnlessMemory LinkStop.Memory result (needs.stopped
        (meant.need_at options.now taken.now class (Some (targets.target_seen names.now target.now)))) }
{
    if !fits_class(class, target.state, target.threaded) {
        return Err(LinkStop::Refused(LinkRefusal::TlsMismatch(taken.at())));
    }
    let setting = Setting {
        kind: options.kind,
        writable: taken.is_writable(),
        class: target.class,
    };
    let answer = need_of(class, target.state, &setting);
    met(alloc, names, taken, target, answer)
}

/// What a reference needs whose symbol is `target`, or its first refusal.
#[tactic(auto, unfolding(crate::specs::Needs::needed_with))]
pub fn needed_with<M: Machine>(
    alloc: Global,
    machine: &M,
    options: &LinkOptions,
    names: &Resolution,
    taken: &Use<'_>,
    target: &Option<Target>,
) -> Result<Needed, LinkStop>
    ensures { UnlessMemory LinkStop.Memory result (needs.stopped
        (needs.needed_with M.rules options.now taken.now
        (option_map (targets.target_seen names.now) target.now))) }
{
    match supported(machine, taken) {
        None => {
            let refusal = LinkRefusal::Unsupported(taken.at(), taken.reference.kind);
            Err(LinkStop::Refused(refusal))
        }
        Some(class) => match target {
            None => left_out(taken),
            Some(target) => need_at(alloc, options, names, taken, class, target),
        },
    }
}
