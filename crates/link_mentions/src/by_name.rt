//! Mentions by their names.

ghost use Rattle.std.specs.Prelude.{◌≡◌, ◌<◌, ◌++◌, ◌∷◌, [], IfOk, OnOk, length};
ghost use Rattle.link_mentions.specs.ByName.{by_name, run_length, AreInNameOrder, IsSortedByName};

use crate::mention::Mention;
use ifs_bytes::Memory;
use std::alloc::Global;
use std::marker::Model;

/// The mentions of one name, by object and row.
#[derive(Debug, Drop)]
pub struct Run<'a> {
    mentions: &'a [Mention<'a>],
}

impl<'a> Model for Run<'a> {
    ghost use Rattle.std.specs.Prelude.{List};
    ghost use Rattle.link_core.specs.Mentions as said;

    ghost Value = { List said.Mention };

    ghost view = { λ run. run.mentions.now };
}

impl<'a> Run<'a> {
    /// The mentions.
    pub fn mentions(&self) -> &'a [Mention<'a>]
        ensures { result.now ≡ self.now }
    {
        self.mentions
    }
}

/// The mentions in byte order of their names, those of one name in the order that they had.
pub fn sorted(mentions: Vec<Mention<'_>>) -> Result<Vec<Mention<'_>>, Memory>
    ensures { IfOk result (λ sorted. IsSortedByName mentions.entry.items sorted.items) }
{
    let mut sorted = mentions;
    sorted.sort_by(|a, b| a.name().cmp(b.name()))?;
    Ok(sorted)
}

// How many mentions at the front have the name of the first.
fn run_length(mentions: &[Mention]) -> usize
    requires { 0 < length mentions.now }
    ensures { result ≡ run_length mentions.now }
{
    let name = mentions[0].name();
    mentions
        .iter()
        .take_while(|mention| mention.name() == name)
        .count()
}

// Appends a run.
fn push_run<'a>(runs: &mut Vec<Run<'a>>, mentions: &'a [Mention<'a>]) -> Result<(), Memory>
    ensures { OnOk result (runs.new.items ≡ runs.old.items ++ mentions.now ∷ []) }
{
    Ok(runs.push(Run { mentions })?)
}

/// The runs of the names, in byte order of these, of mentions in that order.
pub fn runs_of<'a>(alloc: Global, sorted: &'a [Mention<'a>]) -> Result<Vec<Run<'a>>, Memory>
    requires { AreInNameOrder sorted.now }
    ensures { IfOk result (λ runs. runs.items ≡ by_name sorted.now) }
{
    let mut runs = Vec::new(alloc);
    let mut start = 0;
    while start < sorted.len() {
        let (_, rest) = sorted.split_at(start);
        let (run, _) = rest.split_at(run_length(rest));
        push_run(&mut runs, run)?;
        start += run.len();
    }
    Ok(runs)
}
