//! What the words behind `stub` ask for.

ghost use Rattle.std.specs.Prelude.{◌≡◌, ◌++◌, IfOk, OnOk, map, option_and_then, string_bytes};
ghost use Rattle.ifs_bytes.specs.Outcome.{UnlessMemory};
ghost use Rattle.ifs_interface.specs.Arch.{machine_named};
ghost use Rattle.ifs_edit.specs.Parsed.{glob_of};
ghost use Rattle.ifs_words.specs.declared.settings.Setting.TheVariants as settings;
ghost use Rattle.ifs_words.specs.Reading.{value_of};
ghost use Rattle.ifs_words.specs.Values.{format_named, order_named, width_named};
ghost use Rattle.ifs_words.specs.Stub.{adjustment, excluded, given_target, pattern_in, pattern_of, stripping, stub_of, stub_words};

use crate::cause::WordCause;
use crate::command::{InputFormat, StubWords};
use crate::conflict::no_conflict;
use crate::given::{Given, has, is_of, value_of};
use crate::read::{Read, read_words};
use crate::settings::{Setting, stub_settings};
use crate::together::{paths_fit, text_given};
use crate::values::{format_named, order_named, width_named};
use ifs_bytes::{List, Memory, Order, Text, Width};
use ifs_edit::{AdjustOptions, Glob, GlobCause, Strip};
use ifs_interface::{Target, arch_of};
use std::alloc::Global;

// The greatest number of inputs.
const MAX_INPUTS: usize = 4096;

// The machine that is given.
fn machine_given(given: &[Given]) -> Option<u16>
    ensures { result ≡ option_and_then machine_named (value_of settings.Arch given.now) }
{
    match value_of(Setting::Arch, given) {
        Some(value) => arch_of(value),
        None => None,
    }
}

// The byte order that is given.
fn order_given(given: &[Given]) -> Option<Order>
    ensures { result ≡ option_and_then order_named (value_of settings.Endianness given.now) }
{
    match value_of(Setting::Endianness, given) {
        Some(value) => order_named(value),
        None => None,
    }
}

// The width that is given.
fn width_given(given: &[Given]) -> Option<Width>
    ensures { result ≡ option_and_then width_named (value_of settings.BitWidth given.now) }
{
    match value_of(Setting::BitWidth, given) {
        Some(value) => width_named(value),
        None => None,
    }
}

// The format of the inputs that is given.
fn format_given(given: &[Given]) -> Option<InputFormat>
    ensures { result ≡ option_and_then format_named (value_of settings.InputFormat given.now) }
{
    match value_of(Setting::InputFormat, given) {
        Some(value) => format_named(value),
        None => None,
    }
}

// The target that is given.
#[tactic(auto, unfolding(crate::specs::Stub::given_target))]
fn given_target(alloc: Global, given: &[Given]) -> Result<Target, Memory>
    ensures { IfOk result (λ target. target ≡ given_target given.now) }
{
    Ok(Target {
        triple: text_given(alloc, Setting::Target, given)?,
        machine: machine_given(given),
        order: order_given(given),
        width: width_given(given),
    })
}

// Appends a pattern, where the bytes write one.
fn push_pattern(alloc: Global, patterns: &mut Vec<Glob>, value: &[u8]) -> Result<(), Memory>
    ensures { OnOk result (patterns.new.items ≡ patterns.old.items ++ pattern_in (glob_of value.now)) }
{
    match Glob::parse(alloc, value) {
        Ok(pattern) => Ok(patterns.push(pattern)?),
        Err(GlobCause::BadGlob(_)) => Ok(()),
        Err(GlobCause::Memory) => Err(Memory),
    }
}

// Appends the pattern of an option, where it is one of patterns.
fn push_excluded(alloc: Global, patterns: &mut Vec<Glob>, given: &Given) -> Result<(), Memory>
    ensures { OnOk result (patterns.new.items ≡ patterns.old.items ++ pattern_of given.now) }
{
    if is_of(Setting::Exclude, given) {
        push_pattern(alloc, patterns, given.value.as_bytes())?;
    }
    Ok(())
}

// The patterns that are given.
fn excluded(alloc: Global, given: &[Given]) -> Result<Vec<Glob>, Memory>
    ensures { IfOk result (λ patterns. patterns.items ≡ excluded given.now) }
{
    let mut patterns = Vec::new(alloc);
    let mut rest = given;
    while let [one, more @ ..] = rest {
        push_excluded(alloc, &mut patterns, one)?;
        rest = more;
    }
    Ok(patterns)
}

// What changes the interface.
#[tactic(auto, unfolding(crate::specs::Stub::adjustment))]
fn adjustment(alloc: Global, given: &[Given]) -> Result<AdjustOptions, Memory>
    ensures { IfOk result (λ options. options ≡ adjustment given.now) }
{
    Ok(AdjustOptions {
        given: given_target(alloc, given)?,
        soname: text_given(alloc, Setting::Soname, given)?,
        exclude: List::from_vec(excluded(alloc, given)?),
        strip_undefined: has(Setting::StripUndefined, given),
        strip_needed: has(Setting::StripNeeded, given),
        strip_size: has(Setting::StripSize, given),
    })
}

// What is left out of the target.
#[tactic(auto, unfolding(crate::specs::Stub::stripping))]
fn stripping(given: &[Given]) -> Strip
    ensures { result ≡ stripping given.now }
{
    Strip {
        arch: has(Setting::StripIfsArch, given),
        width: has(Setting::StripIfsBitWidth, given),
        order: has(Setting::StripIfsEndianness, given),
        target: has(Setting::StripIfsTarget, given),
    }
}

// The values of options and flags, and the paths.
#[tactic(auto, unfolding(crate::specs::Stub::stub_words))]
fn stub_words(alloc: Global, given: &[Given], paths: List<Text>) -> Result<StubWords, Memory>
    ensures { IfOk result (λ words. words ≡ stub_words given.now paths) }
{
    Ok(StubWords {
        inputs: paths,
        input_format: format_given(given),
        output_ifs: text_given(alloc, Setting::OutputIfs, given)?,
        output_elf: text_given(alloc, Setting::OutputElf, given)?,
        adjust: adjustment(alloc, given)?,
        strip: stripping(given),
        write_if_changed: has(Setting::WriteIfChanged, given),
    })
}

// What the words behind `stub` ask for, or the first cause.
#[tactic(auto, unfolding(crate::specs::Stub::stub_of))]
pub(crate) fn stub_of(alloc: Global, words: &[String]) -> Result<StubWords, WordCause>
    ensures { UnlessMemory WordCause.Memory result (stub_of (map string_bytes words.now)) }
{
    let Read {
        given,
        paths,
        next: _,
    } = read_words(alloc, stub_settings(), words)?;
    no_conflict(alloc, given.as_slice())?;
    paths_fit(MAX_INPUTS, paths.as_slice())?;
    Ok(stub_words(alloc, given.as_slice(), paths)?)
}
