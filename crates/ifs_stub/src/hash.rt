//! .hash of a stub file.

ghost use Rattle.std.specs.Prelude.{◌≡◌, ◌++◌, ◌<◌, ◌≤◌, OnOk};
ghost use Rattle.std.specs.List.{flat_map};
ghost use Rattle.ifs_bytes.specs.Places.{places};
ghost use Rattle.ifs_stub.specs.StubFile.{next_row, first_row, word_bytes, hash_part};

use ifs_bytes::{Memory, Order, put_u32};

// The row that follows a row in its chain, 0 behind the last.
fn next_row(count: u32, row: u32) -> u32
    requires { row < count }
    ensures { result ≡ next_row count row }
{
    if row == 0 || row + 1 == count {
        0
    } else {
        row + 1
    }
}

// The first row of the chain, 0 where there is none.
fn first_row(count: u32) -> u32
    ensures { result ≡ first_row count }
{
    if count == 1 { 0 } else { 1 }
}

// Appends the chain word of each row.
fn put_chain(out: &mut Vec<u8>, count: u32, order: Order) -> Result<(), Memory>
    ensures { OnOk result (out.new.items
        ≡ out.old.items ++ flat_map (λ row. word_bytes order (next_row count row)) (places 0 count)) }
{
    for row in 0..count {
        put_u32(out, next_row(count, row), order)?;
    }
    Ok(())
}

/// Appends .hash for that many rows: one bucket, whose chain has each row but the first.
#[tactic(auto, unfolding(crate::specs::StubFile::hash_part))]
pub fn put_hash(out: &mut Vec<u8>, count: u32, order: Order) -> Result<(), Memory>
    ensures { OnOk result (out.new.items ≡ out.old.items ++ hash_part count order) }
{
    put_u32(out, 1, order)?;
    put_u32(out, count, order)?;
    put_u32(out, first_row(count), order)?;
    put_chain(out, count, order)
}
