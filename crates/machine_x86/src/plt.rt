//! The procedure linkage table.

ghost use Rattle.std.specs.Prelude.{◌≡◌, ◌+◌};
ghost use Rattle.link_machine.specs.Rules.{padded};
ghost use Rattle.link_machine.specs.X86.{displacement, x86_header, x86_entry};

/// 2^32.
const TWO_32: i128 = 0x1_0000_0000;

/// The displacement to the byte `more` bytes behind `address`, from an instruction that ends `after` bytes
/// behind `at`.
fn distance(at: u64, after: u64, address: u64, more: u64) -> [u8; 4]
    ensures { result ≡ displacement (at + after) (address + more) }
{
    let from = i128::from(at) + i128::from(after);
    let to = i128::from(address) + i128::from(more);
    ((to - from).rem_euclid(TWO_32) as u32).to_le_bytes()
}

/// The header at the address `at`, which goes through the second and third slots at `got_plt`, and zeros.
pub fn header(at: u64, got_plt: u64) -> [u8; 32]
    ensures { result ≡ padded 32 (x86_header at got_plt) }
{
    let [a, b, c, d] = distance(at, 6, got_plt, 8);
    let [e, f, g, h] = distance(at, 12, got_plt, 16);
    [
        0xff, 0x35, a, b, c, d, 0xff, 0x25, e, f, g, h, 0x0f, 0x1f, 0x40, 0x00, 0, 0, 0, 0, 0, 0,
        0, 0, 0, 0, 0, 0, 0, 0, 0, 0,
    ]
}

/// The entry at the address `at`: through its slot, else its position and to the header.
pub fn entry(at: u64, slot: u64, header: u64, index: u32) -> [u8; 16]
    ensures { result ≡ x86_entry at slot header index }
{
    let [a, b, c, d] = distance(at, 6, slot, 0);
    let [i, j, k, l] = index.to_le_bytes();
    let [e, f, g, h] = distance(at, 16, header, 0);
    [0xff, 0x25, a, b, c, d, 0x68, i, j, k, l, 0xe9, e, f, g, h]
}
