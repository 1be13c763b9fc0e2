//! Versions of libraries.

ghost use Rattle.std.specs.Prelude.{◌≡◌, ◌++◌, ◌==◌, ◌^◌, OnOk, position};
ghost use Rattle.tbd_core.specs.Version.{is_first, number_below, minor_version, sub_version, version_named, printed_version, printed_part, printed_minor, printed_sub};

use ifs_bytes::{Memory, Text, number_of};

/// A version of a library, as `1.2.3`.
#[derive(Clone, Copy, Debug, PartialEq, Eq)]
pub struct Version {
    /// The first number.
    pub major: u16,
    /// The second, 0 where it isn't written.
    pub minor: u8,
    /// The third, 0 where it isn't written.
    pub sub: u8,
}

/// The version of a library of which none is said.
pub const FIRST_VERSION: Version = Version {
    major: 1,
    minor: 0,
    sub: 0,
};

// The place of the first dot.
fn dot_at(text: &[u8]) -> Option<usize>
    ensures { result ≡ position (λ b. b == 46) text.now }
{
    text.iter().position(|b| *b == b'.')
}

// A number below 65536.
fn wide_number(digits: &[u8]) -> Option<u16>
    ensures { result ≡ number_below (2 ^ 16) digits.now }
{
    u16::try_from(number_of(digits, 10)?).ok()
}

// A number below 256.
fn narrow_number(digits: &[u8]) -> Option<u8>
    ensures { result ≡ number_below (2 ^ 8) digits.now }
{
    u8::try_from(number_of(digits, 10)?).ok()
}

// The version of a first and second number, and of the text of the third.
fn with_sub(major: u16, minor: u8, text: &[u8]) -> Option<Version>
    ensures { result ≡ sub_version major minor text.now }
{
    let sub = narrow_number(text)?;
    Some(Version { major, minor, sub })
}

// The version of a first number, and of the text behind its dot.
#[tactic(auto, unfolding(crate::specs::Version::minor_version))]
fn with_minor(major: u16, text: &[u8]) -> Option<Version>
    ensures { result ≡ minor_version major text.now }
{
    match dot_at(text) {
        Some(end) => {
            let minor = narrow_number(&text[..end])?;
            let (_, behind) = text.split_at(end + 1);
            with_sub(major, minor, behind)
        }
        None => {
            let minor = narrow_number(text)?;
            Some(Version {
                major,
                minor,
                sub: 0,
            })
        }
    }
}

/// The version that a text writes: `X`, `X.Y` or `X.Y.Z` in decimal digits, X below 65536, Y and Z below 256. None
/// exactly for any other text.
#[tactic(auto, unfolding(crate::specs::Version::version_named))]
pub fn version_named(text: &[u8]) -> Option<Version>
    ensures { result ≡ version_named text.now }
{
    match dot_at(text) {
        Some(end) => {
            let major = wide_number(&text[..end])?;
            let (_, behind) = text.split_at(end + 1);
            with_minor(major, behind)
        }
        None => {
            let major = wide_number(text)?;
            Some(Version {
                major,
                minor: 0,
                sub: 0,
            })
        }
    }
}

// Appends a dot and a number.
fn append_part(out: &mut Text, number: u8) -> Result<(), Memory>
    ensures { OnOk result (out.new ≡ out.old ++ printed_part number) }
{
    out.append(b".")?;
    out.append_number(u64::from(number))
}

// Appends the second number, where it is written.
fn append_minor(out: &mut Text, version: Version) -> Result<(), Memory>
    ensures { OnOk result (out.new ≡ out.old ++ printed_minor version) }
{
    if version.minor != 0 || version.sub != 0 {
        append_part(out, version.minor)?;
    }
    Ok(())
}

// Appends the third number, where it is written.
fn append_sub(out: &mut Text, version: Version) -> Result<(), Memory>
    ensures { OnOk result (out.new ≡ out.old ++ printed_sub version) }
{
    if version.sub != 0 {
        append_part(out, version.sub)?;
    }
    Ok(())
}

impl Version {
    /// Whether it is the version of a library of which none is said, 1.0.0.
    pub fn is_first(self) -> bool
        ensures { result ≡ is_first self }
    {
        self.major == 1 && self.minor == 0 && self.sub == 0
    }

    /// Appends the version: the first number; the second where it or the third isn't 0; the third where it isn't 0.
    /// The only error is want of memory; what `out` holds then is left open.
    #[tactic(auto, unfolding(crate::specs::Version::printed_version))]
    pub fn append_to(self, out: &mut Text) -> Result<(), Memory>
        ensures { OnOk result (out.new ≡ out.old ++ printed_version self) }
    {
        out.append_number(u64::from(self.major))?;
        append_minor(out, self)?;
        append_sub(out, self)
    }
}
