//! Rows behind numbers that put most of them in order of their names.

ghost use Rattle.std.specs.Prelude.{◌≡◌, true, map, IfOk};
ghost use Rattle.std.specs.List.{enumerate_from, list_all};
ghost use Rattle.std.specs.Ordering.{nat_cmp, ordering_then};
ghost use Rattle.std.specs.Cmp.Lexicographic.{slice_cmp};
ghost use Rattle.elf_dyn.specs.Rank.{are_bytes, leading, rank};
ghost use Rattle.elf_dyn.specs.Ranked.{placed};

use ifs_bytes::Memory;
use ifs_interface::DynRow;
use std::alloc::Global;
use std::cmp::Ordering;

// A row, its place and the rank of its name.
#[derive(Clone, Copy)]
pub(crate) struct Ranked<'a> {
    pub(crate) rank: u64,
    pub(crate) place: usize,
    pub(crate) row: &'a DynRow,
}

// The number in the first eight bytes, with zeros where there are fewer.
fn leading(bytes: &[u8]) -> u64
    ensures { result ≡ leading 8 bytes.now }
{
    let mut padded = [0; 8];
    let len = bytes.len().min(8);
    padded[..len].copy_from_slice(&bytes[..len]);
    u64::from_be_bytes(padded)
}

// Where a name stands against the names that begin with `front`.
fn rank(front: &[u8], name: &[u8]) -> u64
    ensures rank { result ≡ rank front.now name.now }
    ensures bytes { are_bytes name.now ≡ true }
{
    match name.strip_prefix(front) {
        Some(rest) => leading(rest),
        None if name < front => 0,
        None => u64::MAX,
    }
}

// The rows with their ranks.
pub(crate) fn with_ranks<'a>(
    alloc: Global,
    front: &[u8],
    rows: &'a [DynRow],
) -> Result<Vec<Ranked<'a>>, Memory>
    ensures rows { IfOk result (λ ranked. map (λ r. r.row.now) ranked.items ≡ rows.now) }
    ensures ranks { IfOk result (λ ranked. map (λ r. r.rank) ranked.items ≡ map (λ row. rank front.now row.name) rows.now) }
    ensures bytes { IfOk result (λ ranked. list_all (λ r. are_bytes r.row.now.name) ranked.items ≡ true) }
    ensures places { IfOk result (λ ranked. map placed ranked.items ≡ enumerate_from 0 rows.now) }
{
    Ok(
        rows.iter()
            .enumerate()
            .map(|(place, row)| Ranked {
                rank: rank(front, row.name.as_bytes()),
                place,
                row,
            })
            .collect(alloc)?,
    )
}

// The order of ranks, and of names where the ranks are equal.
pub(crate) fn compare(one: &Ranked, other: &Ranked) -> Ordering
    ensures { result ≡ ordering_then (nat_cmp one.now.rank other.now.rank) (slice_cmp nat_cmp one.now.row.now.name other.now.row.now.name) }
{
    match one.rank.cmp(&other.rank) {
        Ordering::Equal => one.row.name.cmp(&other.row.name),
        unequal => unequal,
    }
}

// The bytes that both begin with.
fn common_front<'a>(one: &'a [u8], other: &[u8]) -> &'a [u8] {
    for (len, byte) in one.iter().enumerate() {
        if other.get(len) != Some(byte) {
            return &one[..len];
        }
    }
    one
}

// The bytes that up to eight names, from all over the rows, have in common at the front. The order of the rows
// doesn't depend on them: the longer they are, the fewer names share a rank.
pub(crate) fn usual_front(rows: &[DynRow]) -> &[u8] {
    let apart = rows.len() / 8 + 1;
    match rows.get(apart / 2) {
        Some(row) => rows
            .iter()
            .skip(apart / 2)
            .step_by(apart)
            .fold(row.name.as_bytes(), |front, row| {
                common_front(front, row.name.as_bytes())
            }),
        None => &[],
    }
}
