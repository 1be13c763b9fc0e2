//! That an entry is written where memory is there.

use crate::rela::{Rela, put_rela};
use ifs_bytes::Memory;
use std::alloc::Global;
use std::test::Fail;

// An entry of type 6 for row 3.
fn entry(alloc: Global) -> Result<Vec<u8>, Memory> {
    let mut out = Vec::new(alloc);
    let rela = Rela {
        offset: 0x0102,
        kind: 6,
        symbol: 3,
        addend: 5,
    };
    put_rela(&mut out, &rela)?;
    Ok(out)
}

#[test]
fn an_entry_has_24_bytes(rt: HostRuntime) -> Result<(), Fail> {
    let wanted = [
        2, 1, 0, 0, 0, 0, 0, 0, 6, 0, 0, 0, 3, 0, 0, 0, 5, 0, 0, 0, 0, 0, 0, 0,
    ];
    assert_eq!(rt; entry(rt.alloc())?.as_slice(), wanted.as_slice());
    Ok(())
}
