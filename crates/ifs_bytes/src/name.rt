//! Names in a string table (gABI, "String Table").

ghost use Rattle.std.specs.Prelude.{◌≡◌, ◌==◌, option_map, position};
ghost use Rattle.std.specs.Option.{option_copied};
ghost use Rattle.ifs_bytes.specs.Name.{name_in};

use memchr::memchr;

// The place of the first NUL.
fn nul_at(bytes: &[u8]) -> Option<usize>
    ensures { result ≡ position (λ b. b == 0) bytes.now }
{
    memchr(0, bytes)
}

/// The bytes from the offset `at` to before the next NUL; None exactly where no NUL stands at or after
/// `at`.
pub fn name_at(bytes: &[u8], at: u64) -> Option<&[u8]>
    ensures { option_copied result ≡ name_in bytes.now at }
{
    if at > bytes.len() as u64 {
        return None;
    }
    let (_, rest) = bytes.split_at(at as usize);
    match nul_at(rest) {
        Some(end) => Some(&rest[..end]),
        None => None,
    }
}
