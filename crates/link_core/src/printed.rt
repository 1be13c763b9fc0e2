//! Refusals as text.

ghost use Rattle.std.specs.Prelude.{◌≡◌, ◌++◌, decimal, IfOk, OnOk};
ghost use Rattle.link_core.specs.Printed.{with_one, with_two, with_three, last_two, printed_at, printed_place, printed_lib_cause, printed_refusal};

use crate::input::LibCause;
use crate::refusal::{At, LinkRefusal, Place};
use ifs_bytes::{Memory, Text};
use itoa::Buffer;
use std::alloc::Global;

// Appends a name, and one field in parentheses.
#[tactic(auto, unfolding(crate::specs::Printed::with_one))]
fn append_one(text: &mut Text, name: &[u8], one: &[u8]) -> Result<(), Memory>
    ensures { OnOk result (text.new ≡ text.old ++ with_one name.now one.now) }
{
    text.append(name)?;
    text.append(b"(")?;
    text.append(one)?;
    text.append(b")")
}

// Appends a name, and two fields in parentheses.
#[tactic(auto, unfolding(crate::specs::Printed::with_two))]
fn append_two(text: &mut Text, name: &[u8], one: &[u8], two: &[u8]) -> Result<(), Memory>
    ensures { OnOk result (text.new ≡ text.old ++ with_two name.now one.now two.now) }
{
    text.append(name)?;
    text.append(b"(")?;
    text.append(one)?;
    text.append(b", ")?;
    text.append(two)?;
    text.append(b")")
}

// Appends a name and a number in parentheses.
fn append_number(text: &mut Text, name: &[u8], number: u64) -> Result<(), Memory>
    ensures { OnOk result (text.new ≡ text.old ++ with_one name.now (decimal number)) }
{
    let mut buffer = Buffer::new();
    append_one(text, name, buffer.format(number).as_bytes())
}

// Appends a name, a field and a number in parentheses.
fn append_with_number(text: &mut Text, name: &[u8], one: &[u8], number: u64) -> Result<(), Memory>
    ensures { OnOk result (text.new ≡ text.old ++ with_two name.now one.now (decimal number)) }
{
    let mut buffer = Buffer::new();
    append_two(text, name, one, buffer.format(number).as_bytes())
}

// Appends a name, a number and a field in parentheses.
fn append_numbered(text: &mut Text, name: &[u8], number: u32, two: &[u8]) -> Result<(), Memory>
    ensures { OnOk result (text.new ≡ text.old ++ with_two name.now (decimal number) two.now) }
{
    let mut buffer = Buffer::new();
    append_two(text, name, buffer.format(number).as_bytes(), two)
}

// Appends the last two of three fields.
#[tactic(auto, unfolding(crate::specs::Printed::last_two))]
fn append_last(text: &mut Text, two: u32, three: u32) -> Result<(), Memory>
    ensures { OnOk result (text.new ≡ text.old ++ last_two (decimal two) (decimal three)) }
{
    text.append_number(u64::from(two))?;
    text.append(b", ")?;
    text.append_number(u64::from(three))?;
    text.append(b")")
}

// Appends a name, a field and two numbers in parentheses.
#[tactic(auto, unfolding(crate::specs::Printed::with_three))]
fn append_three(
    text: &mut Text,
    name: &[u8],
    one: &[u8],
    two: u32,
    three: u32,
) -> Result<(), Memory>
    ensures { OnOk result (text.new ≡ text.old ++ with_three name.now one.now (decimal two) (decimal three)) }
{
    text.append(name)?;
    text.append(b"(")?;
    text.append(one)?;
    text.append(b", ")?;
    append_last(text, two, three)
}

impl At {
    /// The place as text, as `0:1:2`: the object, the section and the index.
    #[tactic(auto, unfolding(crate::specs::Printed::printed_at))]
    pub fn printed(&self, alloc: Global) -> Result<Text, Memory>
        ensures { IfOk result (λ text. text ≡ printed_at self.now) }
    {
        let mut text = Text::new(alloc);
        text.append_number(u64::from(self.object))?;
        text.append(b":")?;
        text.append_number(u64::from(self.section))?;
        text.append(b":")?;
        text.append_number(u64::from(self.index))?;
        Ok(text)
    }
}

impl Place {
    /// The input as text, as `Object(0)`.
    pub fn printed(&self, alloc: Global) -> Result<Text, Memory>
        ensures { IfOk result (λ text. text ≡ printed_place self.now) }
    {
        let mut text = Text::new(alloc);
        match self {
            Place::Object(at) => append_number(&mut text, b"Object", u64::from(*at))?,
            Place::Library(at) => append_number(&mut text, b"Library", u64::from(*at))?,
        }
        Ok(text)
    }
}

impl LibCause {
    /// The cause as text: the form of the library, and the cause of its reader, as `Elf(NotElf)`.
    pub fn printed(&self, alloc: Global) -> Result<Text, Memory>
        ensures { IfOk result (λ text. text ≡ printed_lib_cause self.now) }
    {
        let mut text = Text::new(alloc);
        match self {
            LibCause::Elf(cause) => append_one(
                &mut text,
                b"Elf",
                cause.printed(alloc)?.as_bytes(),
            )?,
            LibCause::Text(cause) => append_one(
                &mut text,
                b"Text",
                cause.printed(alloc)?.as_bytes(),
            )?,
        }
        Ok(text)
    }

    /// An equal cause.
    pub fn copy(&self, alloc: Global) -> Result<LibCause, Memory>
        ensures { IfOk result (λ copy. copy ≡ self.now) }
    {
        Ok(match self {
            LibCause::Elf(cause) => LibCause::Elf(*cause),
            LibCause::Text(cause) => LibCause::Text(cause.copy(alloc)?),
        })
    }
}

// Appends a name and the place of a reference.
fn append_place(text: &mut Text, name: &[u8], at: At, alloc: Global) -> Result<(), Memory>
    ensures { OnOk result (text.new ≡ text.old ++ with_one name.now (printed_at at)) }
{
    append_one(text, name, at.printed(alloc)?.as_bytes())
}

// Appends a name, a field and the place of a reference.
fn append_named(
    text: &mut Text,
    name: &[u8],
    one: &[u8],
    at: At,
    alloc: Global,
) -> Result<(), Memory>
    ensures { OnOk result (text.new ≡ text.old ++ with_two name.now one.now (printed_at at)) }
{
    append_two(text, name, one, at.printed(alloc)?.as_bytes())
}

impl LinkRefusal {
    /// The refusal as text: its name, and its fields in parentheses, as `Overflow(0:1:0, 134217728)`.
    pub fn printed(&self, alloc: Global) -> Result<Text, Memory>
        ensures { IfOk result (λ text. text ≡ printed_refusal self.now) }
    {
        let mut text = Text::new(alloc);
        self.append_to(&mut text, alloc)?;
        Ok(text)
    }

    // Appends the refusal as text.
    fn append_to(&self, text: &mut Text, alloc: Global) -> Result<(), Memory>
        ensures { OnOk result (text.new ≡ text.old ++ printed_refusal self.now) }
    {
        match self {
            LinkRefusal::BadObject(at, cause) => {
                append_numbered(text, b"BadObject", *at, cause.printed(alloc)?.as_bytes())
            }
            LinkRefusal::BadLibrary(at, cause) => {
                append_numbered(text, b"BadLibrary", *at, cause.printed(alloc)?.as_bytes())
            }
            LinkRefusal::Versioned(at) => append_number(text, b"Versioned", u64::from(*at)),
            LinkRefusal::MachineMismatch(place) => {
                append_one(text, b"MachineMismatch", place.printed(alloc)?.as_bytes())
            }
            LinkRefusal::Duplicate(name, one, other) => {
                append_three(text, b"Duplicate", name.as_bytes(), *one, *other)
            }
            LinkRefusal::HiddenUndefined(name) => {
                append_one(text, b"HiddenUndefined", name.as_bytes())
            }
            LinkRefusal::Undefined(name, at) => {
                append_with_number(text, b"Undefined", name.as_bytes(), u64::from(*at))
            }
            LinkRefusal::LibraryUndefined(name, at) => {
                append_with_number(text, b"LibraryUndefined", name.as_bytes(), u64::from(*at))
            }
            LinkRefusal::NoEntry(name) => append_one(text, b"NoEntry", name.as_bytes()),
            LinkRefusal::Unsupported(at, kind) => {
                append_with_number(
                    text,
                    b"Unsupported",
                    at.printed(alloc)?.as_bytes(),
                    u64::from(*kind),
                )
            }
            LinkRefusal::Discarded(at) => append_place(text, b"Discarded", *at, alloc),
            LinkRefusal::TlsMismatch(at) => append_place(text, b"TlsMismatch", *at, alloc),
            LinkRefusal::TextRelocation(at) => append_place(text, b"TextRelocation", *at, alloc),
            LinkRefusal::NotPic(at) => append_place(text, b"NotPic", *at, alloc),
            LinkRefusal::CopyRelocation(name, at) => {
                append_named(text, b"CopyRelocation", name.as_bytes(), *at, alloc)
            }
            LinkRefusal::CanonicalPlt(name, at) => {
                append_named(text, b"CanonicalPlt", name.as_bytes(), *at, alloc)
            }
            LinkRefusal::ImageTooLarge(size) => append_number(text, b"ImageTooLarge", *size),
            LinkRefusal::Overflow(at, value) => {
                let mut buffer = Buffer::new();
                append_two(
                    text,
                    b"Overflow",
                    at.printed(alloc)?.as_bytes(),
                    buffer.format(*value).as_bytes(),
                )
            }
            LinkRefusal::Misaligned(at) => append_place(text, b"Misaligned", *at, alloc),
        }
    }
}
