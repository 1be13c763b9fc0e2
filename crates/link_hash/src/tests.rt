//! Hashes that other tools give, and that the table of a few names is made where memory is there.

use crate::hash::hash_of;
use crate::words::{hash_words, put_words};
use ifs_bytes::Memory;
use std::alloc::Global;
use std::test::Fail;

// The hash, by a call that says nothing of its value.
fn hashed(name: &[u8]) -> u32 {
    hash_of(name)
}

// The words of the table of `names`.
fn words_of(alloc: Global, names: &[&[u8]; 3]) -> Result<Vec<u32>, Memory> {
    hash_words(alloc, names)
}

// The bytes of words.
fn bytes_of(alloc: Global, words: &[u32]) -> Result<Vec<u8>, Memory> {
    let mut out = Vec::new(alloc);
    put_words(&mut out, words)?;
    Ok(out)
}

#[test]
fn names_have_their_known_hashes(rt: HostRuntime) -> Result<(), Fail> {
    assert_eq!(rt; hashed(b"exit"), 0x0006_cf04);
    assert_eq!(rt; hashed(b"printf"), 0x0779_05a6);
    assert_eq!(rt; hashed(b"flapenguin.me"), 0x0398_7915);
    Ok(())
}

#[test]
fn three_names_stand_in_their_buckets(rt: HostRuntime) -> Result<(), Fail> {
    let words = words_of(
        rt.alloc(),
        &[b"a".as_slice(), b"e".as_slice(), b"b".as_slice()],
    )?;
    assert_eq!(rt; words.as_slice(), [4, 4, 0, 1, 3, 0, 0, 2, 0, 0].as_slice());
    let bytes = bytes_of(rt.alloc(), &[1, 258])?;
    assert_eq!(rt; bytes.as_slice(), [1, 0, 0, 0, 2, 1, 0, 0].as_slice());
    Ok(())
}
