//! That objects were read.

ghost use Rattle.std.specs.Prelude.{All};
ghost use Rattle.elf_object.specs.Object.{IsRead};

use elf_object::Object;

/// Does nothing, and is there for its clause: each object is the one of its own bytes.
pub fn all_are_read(objects: &[Object])
    ensures { All IsRead objects.now }
{
    for object in objects {
        object.is_read();
    }
}
