//! The values of options.

ghost use Rattle.std.specs.Prelude.{◌≡◌, ◌==◌, not, IfOk, is_ok};
ghost use Rattle.std.specs.List.{list_all};
ghost use Rattle.ifs_interface.specs.Interface.{is_proper_name};
ghost use Rattle.ifs_edit.specs.Parsed.{glob_of};
ghost use Rattle.ifs_words.specs.Values.{format_named, has_form, is_good, kind_named, order_named, version_named, width_named};

use crate::command::InputFormat;
use crate::link::LinkKind;
use crate::settings::Form;
use crate::tbd::TbdVersion;
use ifs_bytes::{Memory, Order, Width};
use ifs_edit::{Glob, GlobCause};
use ifs_interface::{arch_of, triple_parts};
use std::alloc::Global;

// The format of `IFS` or `ELF`, in either case.
pub(crate) fn format_named(value: &[u8]) -> Option<InputFormat>
    ensures { result ≡ format_named value.now }
{
    if value.eq_ignore_ascii_case(b"IFS") {
        Some(InputFormat::Ifs)
    } else if value.eq_ignore_ascii_case(b"ELF") {
        Some(InputFormat::Elf)
    } else {
        None
    }
}

// The width of `32` or `64`.
pub(crate) fn width_named(value: &[u8]) -> Option<Width>
    ensures { result ≡ width_named value.now }
{
    if value == b"32".as_slice() {
        Some(Width::W32)
    } else if value == b"64".as_slice() {
        Some(Width::W64)
    } else {
        None
    }
}

// The byte order of `little` or `big`.
pub(crate) fn order_named(value: &[u8]) -> Option<Order>
    ensures { result ≡ order_named value.now }
{
    if value == b"little".as_slice() {
        Some(Order::Little)
    } else if value == b"big".as_slice() {
        Some(Order::Big)
    } else {
        None
    }
}

// The kind of `exec`, `pie` or `shared`.
pub(crate) fn kind_named(value: &[u8]) -> Option<LinkKind>
    ensures { result ≡ kind_named value.now }
{
    if value == b"exec".as_slice() {
        Some(LinkKind::Exec)
    } else if value == b"pie".as_slice() {
        Some(LinkKind::Pie)
    } else if value == b"shared".as_slice() {
        Some(LinkKind::Shared)
    } else {
        None
    }
}

// The version of `4` or `5`.
pub(crate) fn version_named(value: &[u8]) -> Option<TbdVersion>
    ensures { result ≡ version_named value.now }
{
    if value == b"4".as_slice() {
        Some(TbdVersion::V4)
    } else if value == b"5".as_slice() {
        Some(TbdVersion::V5)
    } else {
        None
    }
}

// Whether the bytes write a pattern.
fn is_pattern(alloc: Global, value: &[u8]) -> Result<bool, Memory>
    ensures { IfOk result (λ is. is ≡ is_ok (glob_of value.now)) }
{
    match Glob::parse(alloc, value) {
        Ok(_glob) => Ok(true),
        Err(GlobCause::BadGlob(_)) => Ok(false),
        Err(GlobCause::Memory) => Err(Memory),
    }
}

// Whether a value has the form.
fn has_form(alloc: Global, form: Form, value: &[u8]) -> Result<bool, Memory>
    ensures { IfOk result (λ has. has ≡ has_form form value.now) }
{
    match form {
        Form::Text => Ok(true),
        Form::Format => Ok(format_named(value).is_some()),
        Form::Machine => Ok(arch_of(value).is_some()),
        Form::Width => Ok(width_named(value).is_some()),
        Form::Order => Ok(order_named(value).is_some()),
        Form::Triple => Ok(triple_parts(value).is_some()),
        Form::Pattern => is_pattern(alloc, value),
        Form::Kind => Ok(kind_named(value).is_some()),
        Form::Version => Ok(version_named(value).is_some()),
    }
}

// Whether no byte is a NUL.
fn is_without_nul(bytes: &[u8]) -> bool
    ensures { result ≡ list_all (λ c. not (c == 0)) bytes.now }
{
    bytes.iter().all(|byte| *byte != 0)
}

// Whether a value isn't empty and has no NUL.
fn is_proper(value: &[u8]) -> bool
    ensures { result ≡ is_proper_name value.now }
{
    match value {
        [] => false,
        [_, ..] => is_without_nul(value),
    }
}

// Whether a value is a good one of the form.
pub(crate) fn is_good(alloc: Global, takes: Option<Form>, value: &[u8]) -> Result<bool, Memory>
    ensures { IfOk result (λ good. good ≡ is_good takes value.now) }
{
    match takes {
        Some(form) if is_proper(value) => has_form(alloc, form, value),
        Some(_) => Ok(false),
        None => Ok(true),
    }
}
