//! Numbers as text.

ghost use Rattle.std.specs.Prelude.{◌≡◌, decimal, is_ok};
ghost use Rattle.ifs_bytes.specs.Outcome.{appended};

use crate::memory::Memory;
use crate::text::Text;
use itoa::Buffer;

impl Text {
    /// Appends a number in decimal; where memory runs out the text stays as it was.
    pub fn append_number(&mut self, number: u64) -> Result<(), Memory>
        ensures { self.new ≡ appended (is_ok result) self.old (decimal number) }
    {
        let mut buffer = Buffer::new();
        self.append(buffer.format(number).as_bytes())
    }
}
