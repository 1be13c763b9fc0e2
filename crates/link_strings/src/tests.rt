//! That calls succeed where memory is there.

use crate::places::places_of;
use crate::table::put_strings;
use ifs_bytes::Memory;
use std::alloc::Global;
use std::test::Fail;

// A table of two strings.
fn table_of(alloc: Global, names: &[&[u8]; 2]) -> Result<Vec<u8>, Memory> {
    let mut out = Vec::new(alloc);
    put_strings(&mut out, names)?;
    Ok(out)
}

// Where each of them starts.
#[tactic(auto, unfolding(link_core::specs::Strings::string_table_size))]
fn starts_of(alloc: Global) -> Result<Vec<u32>, Memory> {
    places_of(alloc, &[b"puts".as_slice(), b"libc.so.6".as_slice()])
}

#[test]
fn strings_end_with_a_nul(rt: HostRuntime) -> Result<(), Fail> {
    let table = table_of(rt.alloc(), &[b"puts".as_slice(), b"libc.so.6".as_slice()])?;
    assert_eq!(rt; table.as_slice(), b"\0puts\0libc.so.6\0".as_slice());
    let starts = starts_of(rt.alloc())?;
    assert_eq!(rt; starts.as_slice(), [1, 6].as_slice());
    Ok(())
}
