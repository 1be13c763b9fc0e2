//! That calls succeed where memory is there.

use crate::counts::Counts;
use crate::places::ends_at;
use crate::tables::{code_tables, read_tables, written_tables};
use ifs_bytes::Memory;
use std::alloc::Global;
use std::test::Fail;

// The sizes of the tables of a small program, one after the other.
fn ends(alloc: Global, n: &Counts) -> Result<[u128; 3], Memory> {
    let read = read_tables(alloc, n)?;
    let code = code_tables(alloc, n)?;
    let written = written_tables(alloc, n)?;
    Ok([ends_at(&read, 0), ends_at(&code, 0), ends_at(&written, 0)])
}

#[test]
fn a_small_program_has_its_tables(rt: HostRuntime) -> Result<(), Fail> {
    let n = Counts {
        program: true,
        interpreter: 28,
        rows: 2,
        strings: 9,
        moves: 0,
        calls: 1,
        words: 0,
        entries: 10,
        header: 16,
    };
    assert_eq!(rt; ends(rt.alloc(), &n)?, [144, 32, 192]);
    Ok(())
}
