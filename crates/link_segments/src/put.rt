//! The program headers, one after the other.

ghost use Rattle.std.specs.Prelude.{◌≡◌, ◌++◌, OnOk};
ghost use Rattle.link_core.specs.Headers as meant;
ghost use Rattle.link_placed.specs.Made.{link_of};
ghost use Rattle.link_segments.specs.Rows as rows;

use crate::rows::{
    code_row, dynamic_row, header_row, interpreter_row, read_row, stack_row, thread_row,
    written_row,
};
use crate::there::{has_code, has_threads, is_program};
use elf_file::{Segment, put_segment};
use ifs_bytes::{Memory, Order, Width};
use link_core::Machine;
use link_placed::Link;

// Appends a header, where it is there.
fn put(out: &mut Vec<u8>, there: bool, row: Segment) -> Result<(), Memory>
    ensures { OnOk result (out.new.items ≡ out.old.items ++ rows.rows_bytes (meant.segment there row)) }
{
    if there {
        put_segment(out, &row, Order::Little, Width::W64)
    } else {
        Ok(())
    }
}

// Appends the headers of the program headers, of .interp, of what is only read and of code.
#[tactic(auto, unfolding(crate::specs::Rows::front_bytes))]
fn put_front<M: Machine>(out: &mut Vec<u8>, p: &Link<'_, M>) -> Result<(), Memory>
    ensures { OnOk result (out.new.items
        ≡ out.old.items ++ rows.front_bytes (link_of M.rules p.now) p.now.layout) }
{
    let program = is_program(p);
    put(out, program, header_row(p))?;
    put(out, program, interpreter_row(p))?;
    put(out, true, read_row(p))?;
    put(out, has_code(p.layout()), code_row(p))
}

// Appends the headers of what is written, of .dynamic, of thread-local data and of the stack.
#[tactic(auto, unfolding(crate::specs::Rows::back_bytes))]
fn put_back<M: Machine>(out: &mut Vec<u8>, p: &Link<'_, M>) -> Result<(), Memory>
    ensures { OnOk result (out.new.items
        ≡ out.old.items ++ rows.back_bytes (link_of M.rules p.now) p.now.layout) }
{
    put(out, true, written_row(p))?;
    put(out, true, dynamic_row(p))?;
    put(out, has_threads(p.layout()), thread_row(p))?;
    put(out, true, stack_row())
}

/// Appends the bytes of the program headers.
pub fn put_segments<M: Machine>(out: &mut Vec<u8>, p: &Link<'_, M>) -> Result<(), Memory>
    ensures { OnOk result (out.new.items
        ≡ out.old.items ++ meant.program_header_bytes (link_of M.rules p.now) p.now.layout) }
{
    put_front(out, p)?;
    put_back(out, p)
}
