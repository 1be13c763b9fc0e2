//! Names that a link refuses.

ghost use Rattle.std.specs.Prelude.{◌≡◌, is_some, find};
ghost use Rattle.std.specs.Option.{option_copied};
ghost use Rattle.ifs_bytes.specs.Outcome.{UnlessMemory};
ghost use Rattle.link_core.specs.Lists.{first_some};
ghost use Rattle.link_core.specs.declared.refusal.LinkStop.TheVariants as stops;
ghost use Rattle.link_names.specs.Named as named;

use crate::names::{Name, run_name};
use ifs_bytes::Text;
use link_core::{LinkRefusal, LinkStop, STV_DEFAULT};
use link_mentions::{Mention, Run, defined_twice};
use std::alloc::Global;

// Whether these mentions of one name define it twice.
#[tactic(auto, using(crate::proofs::FirstRefused::twice_by_objects))]
fn is_twice(mentions: &[Mention]) -> bool
    ensures { result ≡ is_some (named.twice_in mentions.now) }
{
    defined_twice(mentions).is_some()
}

// The first name that is defined twice.
#[tactic(auto, using(crate::proofs::FirstRefused::find_more, crate::proofs::FirstRefused::find_end))]
fn first_twice<'b, 'a>(runs: &'b [Run<'a>]) -> Option<&'b Run<'a>>
    ensures { option_copied result ≡ find named.is_twice runs.now }
{
    for run in runs {
        if is_twice(run.mentions()) {
            return Some(run);
        }
    }
    None
}

// Refuses a name that these mentions define twice.
#[tactic(auto, using(crate::proofs::FirstRefused::twice_by_objects))]
fn refuse_twice(alloc: Global, mentions: &[Mention]) -> Result<(), LinkStop>
    ensures { UnlessMemory stops.Memory result (named.stopped_by (named.twice_in mentions.now)) }
{
    match defined_twice(mentions) {
        Some((one, other)) => {
            let name = Text::from_slice(alloc, run_name(mentions))?;
            Err(LinkStop::Refused(LinkRefusal::Duplicate(name, one, other)))
        }
        None => Ok(()),
    }
}

/// Refuses the first name that two definitions define, none of them weak.
#[tactic(auto, using(crate::proofs::FirstRefused::first_is_twice))]
pub fn check_once(alloc: Global, runs: &[Run]) -> Result<(), LinkStop>
    ensures { UnlessMemory stops.Memory result (named.stopped_by (first_some named.twice_in runs.now)) }
{
    match first_twice(runs) {
        Some(run) => refuse_twice(alloc, run.mentions()),
        None => Ok(()),
    }
}

// The first name that is wanted in vain, and that no library may define.
#[tactic(auto, using(crate::proofs::FirstRefused::find_more, crate::proofs::FirstRefused::find_end))]
fn first_hidden(names: &[Name]) -> Option<&Name>
    ensures { option_copied result ≡ find named.is_hidden names.now }
{
    for name in names {
        if name.unmet.is_some() && name.row.visibility != STV_DEFAULT {
            return Some(name);
        }
    }
    None
}

// Refuses a name, where it is wanted in vain and no library may define it.
fn refuse_hidden(alloc: Global, name: &Name) -> Result<(), LinkStop>
    ensures { UnlessMemory stops.Memory result (named.stopped_by (named.hidden_by name.now)) }
{
    if name.row.visibility == STV_DEFAULT {
        return Ok(());
    }
    match name.unmet {
        Some(_object) => {
            let text = name.row.name.copy(alloc)?;
            Err(LinkStop::Refused(LinkRefusal::HiddenUndefined(text)))
        }
        None => Ok(()),
    }
}

/// Refuses the first name that is wanted in vain, and that no library may define.
#[tactic(auto, using(crate::proofs::FirstRefused::first_is_hidden))]
pub fn check_hidden(alloc: Global, names: &[Name]) -> Result<(), LinkStop>
    ensures { UnlessMemory stops.Memory result (named.stopped_by (first_some named.hidden_by names.now)) }
{
    match first_hidden(names) {
        Some(name) => refuse_hidden(alloc, name),
        None => Ok(()),
    }
}

// The first name that is wanted in vain.
#[tactic(auto, using(crate::proofs::FirstRefused::find_more, crate::proofs::FirstRefused::find_end))]
fn first_undefined(names: &[Name]) -> Option<&Name>
    ensures { option_copied result ≡ find named.is_undefined names.now }
{
    for name in names {
        if name.unmet.is_some() {
            return Some(name);
        }
    }
    None
}

// Refuses a name, where it is wanted in vain.
fn refuse_undefined(alloc: Global, name: &Name) -> Result<(), LinkStop>
    ensures { UnlessMemory stops.Memory result (named.stopped_by (named.undefined_by name.now)) }
{
    match name.unmet {
        Some(object) => {
            let text = name.row.name.copy(alloc)?;
            Err(LinkStop::Refused(LinkRefusal::Undefined(text, object)))
        }
        None => Ok(()),
    }
}

/// Refuses the first name that is wanted in vain.
#[tactic(auto, using(crate::proofs::FirstRefused::first_is_undefined))]
pub fn check_undefined(alloc: Global, names: &[Name]) -> Result<(), LinkStop>
    ensures { UnlessMemory stops.Memory result (named.stopped_by (first_some named.undefined_by names.now)) }
{
    match first_undefined(names) {
        Some(name) => refuse_undefined(alloc, name),
        None => Ok(()),
    }
}
