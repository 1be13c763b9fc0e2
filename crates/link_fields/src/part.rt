//! Parts of an image, one behind the other, with zeros between them.

ghost use Rattle.std.specs.Prelude.{◌≡◌, ◌≤◌, ◌-◌, ◌++◌, length, replicate, OnOk};
ghost use Rattle.link_fields.specs.Appended.{PutsPart};

use ifs_bytes::Memory;

/// Appends zeros up to the offset `at`; none where the bytes reach as far.
pub fn pad_to(out: &mut Vec<u8>, at: usize) -> Result<(), Memory>
    ensures { OnOk result
        (out.new.items ≡ out.old.items ++ replicate (at - length out.old.items) 0) }
{
    if out.len() < at {
        out.resize(at, 0)?;
    }
    Ok(())
}

/// Appends a part at its offset, behind the parts that stand in `out`.
#[tactic(auto, using(crate::proofs::Parts::puts_part))]
pub fn put_part(out: &mut Vec<u8>, offset: usize, bytes: &[u8]) -> Result<(), Memory>
    requires behind { length out.old.items ≤ offset }
    ensures { OnOk result (PutsPart out.old.items out.new.items offset bytes.now) }
{
    pad_to(out, offset)?;
    out.extend_from_slice(bytes)?;
    Ok(())
}
