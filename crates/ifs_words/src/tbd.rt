//! What the words behind `tbd` ask for.

ghost use Rattle.std.specs.Prelude.{◌≡◌, IfOk, map, option_and_then, string_bytes};
ghost use Rattle.ifs_bytes.specs.Outcome.{UnlessMemory};
ghost use Rattle.ifs_words.specs.declared.settings.Setting.TheVariants as settings;
ghost use Rattle.ifs_words.specs.Reading.{value_of};
ghost use Rattle.ifs_words.specs.Tbd.{asked_version, only_path, tbd_of, tbd_words};
ghost use Rattle.ifs_words.specs.Values.{version_named};

use crate::cause::WordCause;
use crate::given::{Given, has, value_of};
use crate::read::{Read, read_words};
use crate::settings::{Setting, tbd_settings};
use crate::together::text_or;
use crate::values::version_named;
use ifs_bytes::{Memory, Text};
use std::alloc::Global;

/// A version of text-based stubs.
#[derive(Clone, Copy, Debug, PartialEq, Eq)]
pub enum TbdVersion {
    /// Version 4, which is YAML.
    V4,
    /// Version 5, which is JSON.
    V5,
}

/// What `tbd` is asked for.
#[derive(Debug, Drop)]
pub struct TbdWords {
    /// The path of the input.
    pub input: Text,
    /// The version that is made.
    pub version: TbdVersion,
    /// The path of the output, `-` where none is given.
    pub output: Text,
    /// Whether a file that is there already and is the same stays untouched.
    pub write_if_changed: bool,
}

// The one path.
fn only_path(alloc: Global, paths: &[Text]) -> Result<Text, WordCause>
    ensures { UnlessMemory WordCause.Memory result (only_path paths.now) }
{
    match paths {
        [] => Err(WordCause::NoInput),
        [path] => Ok(path.copy(alloc)?),
        [_, _, ..] => Err(WordCause::TooManyInputs(paths.len() as u64)),
    }
}

// The version that is given.
fn version_given(given: &[Given]) -> Option<TbdVersion>
    ensures { result ≡ option_and_then version_named (value_of settings.To given.now) }
{
    match value_of(Setting::To, given) {
        Some(value) => version_named(value),
        None => None,
    }
}

// The version that has to be given.
fn asked_version(alloc: Global, given: &[Given]) -> Result<TbdVersion, WordCause>
    ensures { UnlessMemory WordCause.Memory result (asked_version given.now) }
{
    match version_given(given) {
        Some(version) => Ok(version),
        None => {
            let name = Text::from_slice(alloc, Setting::To.name())?;
            Err(WordCause::MissingOption(name))
        }
    }
}

// The values of options and flags, and the path.
#[tactic(auto, unfolding(crate::specs::Tbd::tbd_words))]
fn tbd_words(
    alloc: Global,
    given: &[Given],
    input: Text,
    version: TbdVersion,
) -> Result<TbdWords, Memory>
    ensures { IfOk result (λ words. words ≡ tbd_words given.now input version) }
{
    Ok(TbdWords {
        input,
        version,
        output: text_or(alloc, Setting::Output, given, b"-")?,
        write_if_changed: has(Setting::WriteIfChanged, given),
    })
}

/// What the words behind `tbd` ask for, or the first cause why they ask for nothing: those of single words at the
/// first word that has one, then `NoInput`, `TooManyInputs` and `MissingOption`.
#[tactic(auto, unfolding(crate::specs::Tbd::tbd_of))]
pub fn parse_tbd(alloc: Global, words: &[String]) -> Result<TbdWords, WordCause>
    ensures { UnlessMemory WordCause.Memory result (tbd_of (map string_bytes words.now)) }
{
    let Read {
        given,
        paths,
        next: _,
    } = read_words(alloc, tbd_settings(), words)?;
    let input = only_path(alloc, paths.as_slice())?;
    let version = asked_version(alloc, given.as_slice())?;
    Ok(tbd_words(alloc, given.as_slice(), input, version)?)
}
