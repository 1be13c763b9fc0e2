//! That bytes are written where memory is there.

use crate::field::{field_at, put_field, put_words};
use crate::part::{pad_to, put_part};
use ifs_bytes::Memory;
use std::alloc::Global;
use std::test::Fail;

// A part, zeros up to an offset and a word.
fn image(alloc: Global) -> Result<Vec<u8>, Memory> {
    let mut out = Vec::new(alloc);
    put_part(&mut out, 2, b"abc")?;
    pad_to(&mut out, 7)?;
    put_words(&mut out, &[0x0102])?;
    Ok(out)
}

// A field of two bytes written over others, and what is read there with the byte behind it.
fn written(value: u64) -> u64 {
    let mut bytes = [1, 2, 3, 4, 5];
    put_field(&mut bytes, 1, 2, value);
    field_at(&bytes, 1, 3)
}

#[test]
fn bytes_are_written(rt: HostRuntime) -> Result<(), Fail> {
    let wanted = [0, 0, 97, 98, 99, 0, 0, 2, 1, 0, 0, 0, 0, 0, 0];
    assert_eq!(rt; image(rt.alloc())?.as_slice(), wanted.as_slice());
    assert_eq!(rt; written(0x99_0708), 0x04_0708);
    Ok(())
}
