//! The tables beside .dynsym: its strings, its hash table, and the path of the interpreter.

ghost use Rattle.std.specs.Prelude.{◌≡◌, ◌++◌, OnOk};
ghost use Rattle.link_core.specs.Contents.{interpreter_of};
ghost use Rattle.link_core.specs.HashTable.{hash_bytes};
ghost use Rattle.link_core.specs.Strings as meant;
ghost use Rattle.link_dynsym.specs.Made.{link_of};

use crate::link::Link;
use ifs_bytes::Memory;
use link_core::Machine;
use link_hash::{hash_words, put_words};
use link_strings::{dynamic_strings, put_interpreter, put_strings, symbol_names};
use std::alloc::Global;

/// Appends the bytes of .dynstr.
#[tactic(auto, using(crate::proofs::TableBytes::strings_are))]
pub fn put_dynstr<M: Machine>(
    alloc: Global,
    out: &mut Vec<u8>,
    p: &Link<'_, M>,
) -> Result<(), Memory>
    ensures { OnOk result (out.new.items
        ≡ out.old.items ++ meant.string_table (meant.dynamic_strings (link_of M.rules p.now))) }
{
    let strings = dynamic_strings(alloc, p.options(), p.names(), p.plan())?;
    put_strings(out, strings.as_slice())
}

/// Appends the bytes of .hash.
#[tactic(auto, unfolding(link_core::specs::HashTable::hash_bytes), using(crate::proofs::TableBytes::names_are))]
pub fn put_hash<M: Machine>(alloc: Global, out: &mut Vec<u8>, p: &Link<'_, M>) -> Result<(), Memory>
    ensures { OnOk result (out.new.items ≡ out.old.items ++ hash_bytes (link_of M.rules p.now)) }
{
    p.is_made();
    let names = symbol_names(alloc, p.names(), p.plan())?;
    let words = hash_words(alloc, names.as_slice())?;
    put_words(out, words.as_slice())
}

/// Appends the bytes of .interp.
#[tactic(auto, using(crate::proofs::TableBytes::interpreter_put))]
pub fn put_interp<M: Machine>(out: &mut Vec<u8>, p: &Link<'_, M>) -> Result<(), Memory>
    ensures { OnOk result (out.new.items
        ≡ out.old.items ++ meant.terminated (interpreter_of (link_of M.rules p.now))) }
{
    put_interpreter(out, p.machine(), p.options())
}
