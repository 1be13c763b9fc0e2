//! What the words behind `link` ask for.

ghost use Rattle.std.specs.Prelude.{◌≡◌, IfOk, map, option_and_then, string_bytes};
ghost use Rattle.ifs_bytes.specs.Outcome.{UnlessMemory};
ghost use Rattle.ifs_words.specs.declared.settings.Setting.TheVariants as settings;
ghost use Rattle.ifs_words.specs.Link.{link_kind, link_of, link_words};
ghost use Rattle.ifs_words.specs.Reading.{value_of};
ghost use Rattle.ifs_words.specs.Usable.{CanLink};
ghost use Rattle.ifs_words.specs.Values.{kind_named};

use crate::cause::WordCause;
use crate::given::{Given, has, value_of};
use crate::read::{Read, read_words};
use crate::settings::{Setting, link_settings};
use crate::together::{at_most, needed, paths_fit, text_given, text_or, values_of};
use crate::values::kind_named;
use ifs_bytes::{List, Memory, Text};
use std::alloc::Global;

// The greatest number of objects.
const MAX_OBJECTS: usize = 4096;

// The greatest number of libraries.
const MAX_LIBS: usize = 256;

/// The kind of file that a link makes.
#[derive(Clone, Copy, Debug, PartialEq, Eq)]
pub enum LinkKind {
    /// A program at fixed addresses.
    Exec,
    /// A program that may be loaded at any address.
    Pie,
    /// A shared library.
    Shared,
}

/// What `link` is asked for. No text is empty or has a NUL, but for those of `objects`, which may be any words.
#[derive(Debug, Drop)]
pub struct LinkWords {
    /// The paths of the objects in order, 1 to 4,096 of them.
    pub objects: List<Text>,
    /// The paths of the libraries in order, at most 256 of them.
    pub libs: List<Text>,
    /// The path of the file that is made; `-` is a file of that name.
    pub output: Text,
    /// What is made.
    pub kind: LinkKind,
    /// The name of the symbol at which a program starts, `_start` where none is given.
    pub entry_name: Text,
    /// The soname of a shared library that is made.
    pub soname: Option<Text>,
    /// Where a loader looks for libraries first.
    pub runpath: Option<Text>,
    /// The path of the interpreter, where it isn't the machine's usual one.
    pub interp: Option<Text>,
    /// Whether a program exports all names that it may export.
    pub export_dynamic: bool,
    /// Whether a name that a library wants may stay undefined.
    pub allow_shlib_undefined: bool,
    /// Whether only libraries that are used are asked for when the file is loaded.
    pub as_needed: bool,
    /// Whether a loader binds all names at once.
    pub bind_now: bool,
    /// Whether a file that is there already and is the same stays untouched.
    pub write_if_changed: bool,
}

// The kind that is given.
fn kind_given(given: &[Given]) -> Option<LinkKind>
    ensures { result ≡ option_and_then kind_named (value_of settings.Kind given.now) }
{
    match value_of(Setting::Kind, given) {
        Some(value) => kind_named(value),
        None => None,
    }
}

// The kind, a program at fixed addresses where none is given.
fn link_kind(given: &[Given]) -> LinkKind
    ensures { result ≡ link_kind given.now }
{
    match kind_given(given) {
        Some(kind) => kind,
        None => LinkKind::Exec,
    }
}

// The values of options and flags, and the paths.
#[tactic(auto, unfolding(crate::specs::Link::link_words))]
fn link_words(
    alloc: Global,
    given: &[Given],
    objects: List<Text>,
    libs: List<Text>,
    output: Text,
) -> Result<LinkWords, Memory>
    ensures { IfOk result (λ words. words ≡ link_words given.now objects libs output) }
{
    Ok(LinkWords {
        objects,
        libs,
        output,
        kind: link_kind(given),
        entry_name: text_or(alloc, Setting::Entry, given, b"_start")?,
        soname: text_given(alloc, Setting::Soname, given)?,
        runpath: text_given(alloc, Setting::Runpath, given)?,
        interp: text_given(alloc, Setting::DynamicLinker, given)?,
        export_dynamic: has(Setting::ExportDynamic, given),
        allow_shlib_undefined: has(Setting::AllowShlibUndefined, given),
        as_needed: has(Setting::AsNeeded, given),
        bind_now: has(Setting::Now, given),
        write_if_changed: has(Setting::WriteIfChanged, given),
    })
}

// What the words ask for, or the first cause.
#[tactic(auto, unfolding(crate::specs::Link::link_of))]
fn link_of(alloc: Global, words: &[String]) -> Result<LinkWords, WordCause>
    ensures { UnlessMemory WordCause.Memory result (link_of (map string_bytes words.now)) }
{
    let Read {
        given,
        paths,
        next: _,
    } = read_words(alloc, link_settings(), words)?;
    paths_fit(MAX_OBJECTS, paths.as_slice())?;
    let libs = List::from_vec(values_of(alloc, Setting::Lib, given.as_slice())?);
    at_most(MAX_LIBS, libs.as_slice())?;
    let output = needed(alloc, Setting::Output, given.as_slice())?;
    Ok(link_words(alloc, given.as_slice(), paths, libs, output)?)
}

/// What the words behind `link` ask for, or the first cause why they ask for nothing: those of single words at the
/// first word that has one, then `NoInput`, `TooManyInputs` of objects and then of libraries, and `MissingOption`.
pub fn parse_link(alloc: Global, words: &[String]) -> Result<LinkWords, WordCause>
    ensures meant { UnlessMemory WordCause.Memory result (link_of (map string_bytes words.now)) }
    ensures usable { IfOk result CanLink }
{
    link_of(alloc, words)
}
