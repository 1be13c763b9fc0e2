//! Escapes between double quotes (YAML 1.2, "Escaped Characters").

ghost use Rattle.std.specs.Prelude.{◌≡◌, ◌≤◌, IfSome};
ghost use Rattle.yaml_tokens.specs.Escapes.{digit, two, four, eight, stands_for_itself, control, short, is_character, coded, escape};

use crate::byte::behind;

/// What the bytes behind a backslash stand for.
#[derive(Clone, Copy)]
pub struct Escape {
    /// How many bytes the escape takes behind its backslash.
    pub size: usize,
    /// The character that it stands for.
    pub character: char,
}

/// The escape that stands at the front, behind its backslash; None exactly where there is none.
#[tactic(auto, unfolding(crate::specs::Escapes::escape))]
pub fn escape_at(bytes: &[u8]) -> Option<Escape>
    ensures { result ≡ escape bytes.now }
{
    match bytes {
        [] => None,
        [b'x', rest @ ..] => coded(3, two(rest).map(u32::from)),
        [b'u', rest @ ..] => coded(5, four(rest).map(u32::from)),
        [b'U', rest @ ..] => coded(9, eight(rest)),
        [byte, ..] => coded(1, short(*byte).map(u32::from)),
    }
}

// An escape of `size` bytes for the character with this code, where it is one.
#[tactic(auto, unfolding(crate::specs::Escapes::coded))]
fn coded(size: usize, code: Option<u32>) -> Option<Escape>
    ensures { result ≡ coded size code }
{
    match char::from_u32(code?) {
        Some(character) => Some(Escape { size, character }),
        None => None,
    }
}

// What a byte alone stands for behind a backslash.
fn short(byte: u8) -> Option<u8>
    ensures { result ≡ short byte }
{
    if stands_for_itself(byte) {
        Some(byte)
    } else {
        control(byte)
    }
}

#[tactic(auto, unfolding(crate::specs::Escapes::stands_for_itself))]
fn stands_for_itself(byte: u8) -> bool
    ensures { result ≡ stands_for_itself byte }
{
    byte == b'\\' || byte == b'"' || byte == b'/' || byte == b' '
}

// The control that a letter or `0` stands for.
#[tactic(auto, unfolding(crate::specs::Escapes::control))]
fn control(byte: u8) -> Option<u8>
    ensures { result ≡ control byte }
{
    match byte {
        b'0' => Some(0),
        b'a' => Some(7),
        b'b' => Some(8),
        b't' => Some(9),
        b'n' => Some(10),
        b'v' => Some(11),
        b'f' => Some(12),
        b'r' => Some(13),
        b'e' => Some(27),
        _ => None,
    }
}

// The value of a hexadecimal digit.
#[tactic(auto, unfolding(crate::specs::Escapes::digit))]
fn digit(byte: u8) -> Option<u8>
    ensures value { result ≡ digit byte }
    ensures below { IfSome result (λ d. d ≤ 15) }
{
    match byte {
        b'0'..=b'9' => Some(byte - b'0'),
        b'A'..=b'F' => Some(byte - b'A' + 10),
        b'a'..=b'f' => Some(byte - b'a' + 10),
        _ => None,
    }
}

// The number of two digits at the front.
#[tactic(auto, unfolding(crate::specs::Escapes::two))]
fn two(bytes: &[u8]) -> Option<u8>
    ensures { result ≡ two bytes.now }
{
    match bytes {
        [high, low, ..] => Some(digit(*high)? * 16 + digit(*low)?),
        _ => None,
    }
}

// The number of four digits at the front.
#[tactic(auto, unfolding(crate::specs::Escapes::four))]
fn four(bytes: &[u8]) -> Option<u16>
    ensures { result ≡ four bytes.now }
{
    let high = two(bytes)?;
    let low = two(behind(bytes, 2))?;
    Some(u16::from(high) * 256 + u16::from(low))
}

// The number of eight digits at the front.
#[tactic(auto, unfolding(crate::specs::Escapes::eight))]
fn eight(bytes: &[u8]) -> Option<u32>
    ensures { result ≡ eight bytes.now }
{
    let high = four(bytes)?;
    let low = four(behind(bytes, 4))?;
    Some(u32::from(high) * 65536 + u32::from(low))
}
