//! The priority of a section of constructors or destructors.

ghost use Rattle.std.specs.Prelude.{◌≡◌, codes};
ghost use Rattle.std.specs.Option.{option_copied, option_or};
ghost use Rattle.link_core.specs.OutputNames as meant;

use ifs_bytes::number_of;

// The number of 1 to 5 digits that the bytes write.
#[tactic(auto, using(crate::proofs::Digits::few_fit, crate::proofs::Digits::few_small))]
fn five_digits(digits: &[u8]) -> Option<u32>
    ensures { result ≡ meant.five_digits digits.now }
{
    if digits.len() > 5 {
        return None;
    }
    match number_of(digits, 10) {
        Some(number) => Some(number as u32),
        None => None,
    }
}

// The number of 1 to 5 digits behind a dot.
fn numbered_suffix(bytes: &[u8]) -> Option<u32>
    ensures { result ≡ meant.numbered_suffix bytes.now }
{
    match bytes {
        [] => None,
        [first, digits @ ..] => {
            if *first == b'.' {
                five_digits(digits)
            } else {
                None
            }
        }
    }
}

// The bytes behind `.init_array` or `.fini_array`.
fn behind_array(name: &[u8]) -> Option<&[u8]>
    ensures { option_copied result ≡ option_or (meant.behind (codes ".init_array") name.now) (meant.behind (codes ".fini_array") name.now) }
{
    match name.strip_prefix(b".init_array") {
        Some(rest) => Some(rest),
        None => name.strip_prefix(b".fini_array"),
    }
}

/// The priority of a section of this name: N of `.init_array.N` and `.fini_array.N`, a number of 1 to 5 digits.
#[tactic(auto, unfolding(link_core::specs::OutputNames::priority))]
pub fn priority(name: &[u8]) -> Option<u32>
    ensures { result ≡ meant.priority name.now }
{
    match behind_array(name) {
        Some(rest) => numbered_suffix(rest),
        None => None,
    }
}
