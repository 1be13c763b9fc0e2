//! Why an edit is refused.

ghost use Rattle.std.specs.Prelude.{◌≡◌, ◌++◌, codes, decimal, IfOk, OnOk};
ghost use Rattle.ifs_edit.specs.Printed.{kind_name, size_text, last_two, with_one, with_three, printed_glob_cause, printed_adjust_cause, printed_merge_cause};

use ifs_bytes::{Memory, Text};
use ifs_interface::{Kind, TargetField};
use std::alloc::{AllocFailed, Global};

/// Why bytes are no pattern.
#[derive(Clone, Copy, Debug, PartialEq, Eq)]
pub enum GlobCause {
    /// The first broken element begins at this offset, with a `[` or a `\`.
    BadGlob(u64),
    /// Memory ran out.
    Memory,
}

/// Why an interface isn't adjusted.
#[derive(Debug, PartialEq, Eq, Drop)]
pub enum AdjustCause {
    /// The field of the target is known already, and given otherwise: what was there, and what was given.
    TargetConflict(TargetField, Text, Text),
    /// Memory ran out.
    Memory,
}

/// Why interfaces aren't merged.
#[derive(Debug, PartialEq, Eq, Drop)]
pub enum MergeCause {
    /// The input at this position has another target than the first.
    TargetMismatch(u64),
    /// The input at this position has another soname than the first.
    SonameMismatch(u64),
    /// The input at this position needs other libraries than the first, or in another order.
    NeededMismatch(u64),
    /// Inputs give the symbol of this name different types: that of the first input with the name, and that of the
    /// first input that differs from it.
    TypeMismatch(Text, Kind, Kind),
    /// Inputs give the symbol of this name different sizes, or some a size and others none: that of the first input
    /// with the name, and that of the first input that differs from it.
    SizeMismatch(Text, Option<u64>, Option<u64>),
    /// The symbol of this name is weak in some inputs with the name, and not weak in others.
    WeakMismatch(Text),
    /// The symbol of this name is undefined in some inputs with the name, and defined in others.
    UndefinedMismatch(Text),
    /// Inputs give the symbol of this name different warnings, or some a warning and others none.
    WarningMismatch(Text),
    /// Memory ran out.
    Memory,
}

impl From<Memory> for GlobCause {
    ghost use Rattle.std.specs.Prelude.{◌≡◌};
    ghost use Rattle.ifs_edit.specs.declared.cause.GlobCause.TheVariants as causes;

    ghost from_gives = { λ _ cause. cause ≡ causes.Memory };

    fn from(_error: Memory) -> GlobCause {
        GlobCause::Memory
    }
}

impl<T: Drop> From<AllocFailed<T>> for GlobCause {
    ghost use Rattle.std.specs.Prelude.{◌≡◌};
    ghost use Rattle.ifs_edit.specs.declared.cause.GlobCause.TheVariants as causes;

    ghost from_gives = { λ _ cause. cause ≡ causes.Memory };

    fn from(_error: AllocFailed<T>) -> GlobCause {
        GlobCause::Memory
    }
}

impl From<Memory> for AdjustCause {
    ghost use Rattle.std.specs.Prelude.{◌≡◌};
    ghost use Rattle.ifs_edit.specs.declared.cause.AdjustCause.TheVariants as causes;

    ghost from_gives = { λ _ cause. cause ≡ causes.Memory };

    fn from(_error: Memory) -> AdjustCause {
        AdjustCause::Memory
    }
}

impl From<Memory> for MergeCause {
    ghost use Rattle.std.specs.Prelude.{◌≡◌};
    ghost use Rattle.ifs_edit.specs.declared.cause.MergeCause.TheVariants as causes;

    ghost from_gives = { λ _ cause. cause ≡ causes.Memory };

    fn from(_error: Memory) -> MergeCause {
        MergeCause::Memory
    }
}

// The name of a type of symbol, as a cause gives it.
fn kind_name(kind: Kind) -> &'static [u8]
    ensures { result.now ≡ kind_name kind }
{
    match kind {
        Kind::NoType => b"NoType",
        Kind::Func => b"Func",
        Kind::Object => b"Object",
        Kind::Tls => b"Tls",
        Kind::Unknown => b"Unknown",
    }
}

// Appends a size, or `none`.
fn append_size(text: &mut Text, size: Option<u64>) -> Result<(), Memory>
    ensures { OnOk result (text.new ≡ text.old ++ size_text size) }
{
    match size {
        Some(size) => text.append_number(size),
        None => text.append(b"none"),
    }
}

// Appends bytes, a comma and a space.
fn append_field(text: &mut Text, bytes: &[u8]) -> Result<(), Memory>
    ensures { OnOk result (text.new ≡ text.old ++ (bytes.now ++ codes ", ")) }
{
    text.append(bytes)?;
    text.append(b", ")
}

// Appends the name of a cause, and one field behind it.
#[tactic(auto, unfolding(crate::specs::Printed::with_one))]
fn append_one(text: &mut Text, cause: &[u8], field: &[u8]) -> Result<(), Memory>
    ensures { OnOk result (text.new ≡ text.old ++ with_one cause.now field.now) }
{
    text.append(cause)?;
    text.append(field)?;
    text.append(b")")
}

// Appends the name of a cause, and a number behind it.
#[tactic(auto, unfolding(crate::specs::Printed::with_one))]
fn append_number(text: &mut Text, cause: &[u8], number: u64) -> Result<(), Memory>
    ensures { OnOk result (text.new ≡ text.old ++ with_one cause.now (decimal number)) }
{
    text.append(cause)?;
    text.append_number(number)?;
    text.append(b")")
}

// Appends the last two fields.
#[tactic(auto, unfolding(crate::specs::Printed::last_two))]
fn append_two(text: &mut Text, one: &[u8], other: &[u8]) -> Result<(), Memory>
    ensures { OnOk result (text.new ≡ text.old ++ last_two one.now other.now) }
{
    append_field(text, one)?;
    text.append(other)?;
    text.append(b")")
}

// Appends the name of a cause, and three fields behind it.
#[tactic(auto, unfolding(crate::specs::Printed::with_three))]
fn append_three(
    text: &mut Text,
    cause: &[u8],
    one: &[u8],
    two: &[u8],
    three: &[u8],
) -> Result<(), Memory>
    ensures { OnOk result (text.new ≡ text.old ++ with_three cause.now one.now two.now three.now) }
{
    text.append(cause)?;
    append_field(text, one)?;
    append_two(text, two, three)
}

// Appends two sizes, the last two fields.
#[tactic(auto, unfolding(crate::specs::Printed::last_two))]
fn append_two_sizes(text: &mut Text, one: Option<u64>, other: Option<u64>) -> Result<(), Memory>
    ensures { OnOk result (text.new ≡ text.old ++ last_two (size_text one) (size_text other)) }
{
    append_size(text, one)?;
    text.append(b", ")?;
    append_size(text, other)?;
    text.append(b")")
}

// Appends the cause of two sizes.
#[tactic(auto, unfolding(crate::specs::Printed::with_three))]
fn append_sizes(
    text: &mut Text,
    cause: &[u8],
    name: &[u8],
    one: Option<u64>,
    other: Option<u64>,
) -> Result<(), Memory>
    ensures { OnOk result (text.new ≡ text.old ++ with_three cause.now name.now (size_text one) (size_text other)) }
{
    text.append(cause)?;
    append_field(text, name)?;
    append_two_sizes(text, one, other)
}

impl GlobCause {
    /// The cause as text: its name, and the offset in parentheses, as `BadGlob(3)`.
    pub fn printed(&self, alloc: Global) -> Result<Text, Memory>
        ensures { IfOk result (λ text. text ≡ printed_glob_cause self.now) }
    {
        let mut text = Text::new(alloc);
        match self {
            GlobCause::BadGlob(at) => append_number(&mut text, b"BadGlob(", *at)?,
            GlobCause::Memory => text.append(b"Memory")?,
        }
        Ok(text)
    }
}

impl AdjustCause {
    /// The cause as text: its name, and its fields in parentheses, as `TargetConflict(Arch, x86_64, AArch64)`.
    pub fn printed(&self, alloc: Global) -> Result<Text, Memory>
        ensures { IfOk result (λ text. text ≡ printed_adjust_cause self.now) }
    {
        let mut text = Text::new(alloc);
        match self {
            AdjustCause::TargetConflict(field, there, given) => append_three(
                &mut text,
                b"TargetConflict(",
                field.name(),
                there.as_bytes(),
                given.as_bytes(),
            )?,
            AdjustCause::Memory => text.append(b"Memory")?,
        }
        Ok(text)
    }
}

impl MergeCause {
    /// The cause as text: its name, and its fields in parentheses, as `SizeMismatch(bar, 4, none)`.
    pub fn printed(&self, alloc: Global) -> Result<Text, Memory>
        ensures { IfOk result (λ text. text ≡ printed_merge_cause self.now) }
    {
        let mut text = Text::new(alloc);
        self.append_to(&mut text)?;
        Ok(text)
    }

    // Appends the cause as text.
    fn append_to(&self, text: &mut Text) -> Result<(), Memory>
        ensures { OnOk result (text.new ≡ text.old ++ printed_merge_cause self.now) }
    {
        match self {
            MergeCause::TargetMismatch(at) => append_number(text, b"TargetMismatch(", *at),
            MergeCause::SonameMismatch(at) => append_number(text, b"SonameMismatch(", *at),
            MergeCause::NeededMismatch(at) => append_number(text, b"NeededMismatch(", *at),
            MergeCause::TypeMismatch(name, one, other) => append_three(
                text,
                b"TypeMismatch(",
                name.as_bytes(),
                kind_name(*one),
                kind_name(*other),
            ),
            MergeCause::SizeMismatch(name, one, other) => {
                append_sizes(text, b"SizeMismatch(", name.as_bytes(), *one, *other)
            }
            MergeCause::WeakMismatch(name) => append_one(text, b"WeakMismatch(", name.as_bytes()),
            MergeCause::UndefinedMismatch(name) => {
                append_one(text, b"UndefinedMismatch(", name.as_bytes())
            }
            MergeCause::WarningMismatch(name) => {
                append_one(text, b"WarningMismatch(", name.as_bytes())
            }
            MergeCause::Memory => text.append(b"Memory"),
        }
    }
}
