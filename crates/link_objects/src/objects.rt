//! Objects by the bytes of their files.

ghost use Rattle.std.specs.Prelude.{◌≡◌, ◌≤◌, ◌<◌, ◌^◌, All, IfOk, length};
ghost use Rattle.ifs_bytes.specs.Outcome.{UnlessMemory};
ghost use Rattle.link_core.specs.declared.refusal.LinkStop.TheVariants as stops;
ghost use Rattle.link_core.specs.Link.{object_in, objects_of};
ghost use Rattle.link_objects.specs.Files.{bytes_of, own_bytes, stopped, PushesOne};

use elf_object::{Object, ObjectCause};
use ifs_bytes::List;
use link_core::{Input, LinkRefusal, LinkStop};
use std::alloc::Global;

// The object in the file at a position.
fn read_object(alloc: Global, position: u32, file: &Input) -> Result<Object, LinkStop>
    ensures { UnlessMemory stops.Memory result (stopped (object_in (position, file.now.bytes))) }
{
    let bytes = file.bytes.copy(alloc)?;
    match Object::parse(alloc, bytes) {
        Ok(object) => Ok(object),
        Err(ObjectCause::Memory) => Err(LinkStop::Memory),
        Err(cause) => Err(LinkStop::Refused(LinkRefusal::BadObject(position, cause))),
    }
}

// Appends the object in the file at a position.
fn push_object(
    alloc: Global,
    objects: &mut Vec<Object>,
    position: u32,
    file: &Input,
) -> Result<(), LinkStop>
    ensures { PushesOne result objects.old.items objects.new.items (object_in (position, file.now.bytes)) }
{
    let object = read_object(alloc, position, file)?;
    objects.push(object)?;
    Ok(())
}

// The objects in files, in order.
fn objects_in(alloc: Global, files: &[Input]) -> Result<List<Object>, LinkStop>
    requires { length files.now ≤ 4096 }
    ensures { UnlessMemory stops.Memory result (stopped (objects_of (bytes_of files.now))) }
{
    let mut objects = Vec::new(alloc);
    for (i, file) in files.iter().enumerate() {
        push_object(alloc, &mut objects, i as u32, file)?;
    }
    Ok(List::from_vec(objects))
}

/// The objects in files, in order: one for each file, and its bytes are those of the file, which are copied.
/// Refused with BadObject: the position of the first file that is no object, and the first cause why not
/// (`Object::parse`). It takes the room of all files, beside what `Object::parse` takes.
pub fn read_objects(alloc: Global, files: &[Input]) -> Result<List<Object>, LinkStop>
    requires few { length files.now ≤ 4096 }
    requires small { All (λ file. length file.bytes < 2 ^ 32) files.now }
    ensures value { UnlessMemory stops.Memory result (stopped (objects_of (bytes_of files.now))) }
    ensures bytes { IfOk result (λ objects. own_bytes objects ≡ bytes_of files.now) }
    ensures count { IfOk result (λ objects. length objects ≡ length files.now) }
    ensures small { IfOk result (λ objects. All (λ o. length o.bytes < 2 ^ 32) objects) }
{
    objects_in(alloc, files)
}
