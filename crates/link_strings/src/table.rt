//! Tables of strings.

ghost use Rattle.std.specs.Prelude.{◌≡◌, ◌++◌};
ghost use Rattle.std.specs.Result.{OnOk};
ghost use Rattle.link_core.specs.Strings as meant;
ghost use Rattle.link_strings.specs.Named.{strings_of};

use ifs_bytes::Memory;

/// Appends a string and a NUL.
pub fn put_terminated(out: &mut Vec<u8>, name: &[u8]) -> Result<(), Memory>
    ensures { OnOk result (out.new.items ≡ out.old.items ++ meant.terminated name.now) }
{
    out.extend_from_slice(name)?;
    out.push(0)?;
    Ok(())
}

/// Appends a string table (gABI, "String Table"): a NUL, and then each string with a NUL.
pub fn put_strings(out: &mut Vec<u8>, names: &[&[u8]]) -> Result<(), Memory>
    ensures { OnOk result (out.new.items ≡ out.old.items ++ meant.string_table (strings_of names.now)) }
{
    out.push(0)?;
    for name in names {
        put_terminated(out, name)?;
    }
    Ok(())
}
