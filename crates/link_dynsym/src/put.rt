//! The rows of .dynsym, one after the other.

ghost use Rattle.std.specs.Prelude.{◌≡◌, ◌++◌, ◌+◌, ◌<◌, ◌^◌, length, map, OnOk};
ghost use Rattle.std.specs.List.{enumerate_from};
ghost use Rattle.link_core.specs.Symbols as meant;
ghost use Rattle.link_dynsym.specs.Made.{link_of};
ghost use Rattle.link_dynsym.specs.Rows as rows;

use crate::commons::{CommonRows, common_rows};
use crate::fields::{import_row, null_row};
use crate::link::Link;
use crate::rows::export_row;
use elf_file::{Row, put_row};
use ifs_bytes::{Memory, Order, Width};
use link_core::Machine;
use link_strings::{dynamic_strings, places_of};
use std::alloc::Global;

// Appends a row.
fn put(out: &mut Vec<u8>, row: Row) -> Result<(), Memory>
    ensures { OnOk result (out.new.items ≡ out.old.items ++ rows.row_bytes row) }
{
    put_row(out, &row, Order::Little, Width::W64)
}

// The place of a name in .dynstr.
fn name_at(starts: &[u32], i: usize) -> u32
    ensures { result ≡ rows.name_in starts.now i }
{
    match starts.get(i) {
        Some(at) => *at,
        None => 0,
    }
}

// The row of an import, which is at a place among the strings of .dynstr.
fn import_at<M: Machine>(p: &Link<'_, M>, starts: &[u32], i: usize, n: u64) -> Row
    ensures { result ≡ rows.import_in starts.now (link_of M.rules p.now) (i, n) }
{
    match p.names().names.as_slice().get(n as usize) {
        Some(row) => import_row(name_at(starts, i), row),
        None => null_row(),
    }
}

// The row of an export, which is at a place among the strings of .dynstr.
fn export_at<M: Machine>(
    p: &Link<'_, M>,
    commons: &CommonRows,
    starts: &[u32],
    i: usize,
    n: u64,
) -> Row
    requires commons { rows.AreCommons (link_of M.rules p.now) commons.now.found commons.now.section }
    ensures { result ≡ rows.export_in starts.now (link_of M.rules p.now) p.now.layout (i, n) }
{
    match p.names().names.as_slice().get(n as usize) {
        Some(row) => export_row(p, commons, name_at(starts, i), row, n),
        None => null_row(),
    }
}

// Appends the rows of imports.
fn put_imports<M: Machine>(
    out: &mut Vec<u8>,
    p: &Link<'_, M>,
    starts: &[u32],
    imports: &[u64],
) -> Result<(), Memory>
    ensures { OnOk result (out.new.items ≡ out.old.items
        ++ rows.rows_bytes (map (rows.import_in starts.now (link_of M.rules p.now)) (enumerate_from 0 imports.now))) }
{
    for i in 0..imports.len() {
        put(out, import_at(p, starts, i, imports[i]))?;
    }
    Ok(())
}

// Appends the rows of exports, of which the first has its name at a place among the strings of .dynstr.
fn put_exports<M: Machine>(
    out: &mut Vec<u8>,
    p: &Link<'_, M>,
    commons: &CommonRows,
    starts: &[u32],
    first: usize,
    exports: &[u64],
) -> Result<(), Memory>
    requires commons { rows.AreCommons (link_of M.rules p.now) commons.now.found commons.now.section }
    requires room { first + length exports.now < 2 ^ 64 }
    ensures { OnOk result (out.new.items ≡ out.old.items
        ++ rows.rows_bytes (map (rows.export_in starts.now (link_of M.rules p.now) p.now.layout)
        (enumerate_from first exports.now))) }
{
    for i in 0..exports.len() {
        put(out, export_at(p, commons, starts, first + i, exports[i]))?;
    }
    Ok(())
}

// Appends all rows.
#[tactic(auto, unfolding(crate::specs::Rows::all_bytes))]
fn put_rows<M: Machine>(
    out: &mut Vec<u8>,
    p: &Link<'_, M>,
    commons: &CommonRows,
    starts: &[u32],
) -> Result<(), Memory>
    requires commons { rows.AreCommons (link_of M.rules p.now) commons.now.found commons.now.section }
    ensures { OnOk result (out.new.items ≡ out.old.items
        ++ rows.all_bytes starts.now (link_of M.rules p.now) p.now.layout) }
{
    put(out, null_row())?;
    let imports = p.plan().imports.as_slice();
    put_imports(out, p, starts, imports)?;
    put_exports(
        out,
        p,
        commons,
        starts,
        imports.len(),
        p.plan().exports.as_slice(),
    )
}

/// Appends the bytes of .dynsym.
pub fn put_dynsym<M: Machine>(
    alloc: Global,
    out: &mut Vec<u8>,
    p: &Link<'_, M>,
) -> Result<(), Memory>
    ensures { OnOk result (out.new.items ≡ out.old.items ++ meant.dynsym_bytes (link_of M.rules p.now) p.now.layout) }
{
    p.is_made();
    let names = dynamic_strings(alloc, p.options(), p.names(), p.plan())?;
    let starts = places_of(alloc, names.as_slice())?;
    let commons = common_rows(alloc, p)?;
    put_rows(out, p, &commons, starts.as_slice())?;
    Ok(())
}
