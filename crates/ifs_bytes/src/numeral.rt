//! Numbers that digits write.

ghost use Rattle.std.specs.Prelude.{◌≡◌, ◌+◌, ◌*◌, ◌≤◌, Some, None, if◌then◌else◌};
ghost use Rattle.std.specs.Char.{digit_value, is_digit};
ghost use Rattle.ifs_bytes.specs.Numeral.{numeral, in_64_bits};

// The number that a digit behind those of `value` makes.
fn with_digit(value: u64, byte: u8, radix: u32) -> Option<u64>
    requires least { 2 ≤ radix }
    requires most { radix ≤ 36 }
    ensures { result ≡ in_64_bits (if is_digit byte radix then Some (value * radix + digit_value byte) else None) }
{
    let digit = char::from(byte).to_digit(radix)?;
    value
        .checked_mul(u64::from(radix))?
        .checked_add(u64::from(digit))
}

/// The number that the digits write in a radix of 2 to 36, letters in either case; None exactly where there is
/// no digit, a byte is none, or the number is 2^64 or more. A sign is no digit.
#[tactic(auto, using(crate::proofs::Numerals::none_by_a_digit))]
pub fn number_of(digits: &[u8], radix: u32) -> Option<u64>
    requires least { 2 ≤ radix }
    requires most { radix ≤ 36 }
    ensures { result ≡ in_64_bits (numeral radix digits.now) }
{
    if digits.is_empty() {
        return None;
    }
    let mut value = 0;
    for byte in digits {
        value = with_digit(value, *byte, radix)?;
    }
    Some(value)
}
