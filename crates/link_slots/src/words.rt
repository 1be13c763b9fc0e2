//! The words of a slot, and what fills them.

ghost use Rattle.std.specs.Prelude.{◌≡◌};
ghost use Rattle.link_slots.specs.Seen.{fills_of, slots_of, words_of};

use std::marker::Model;

/// A number that a slot holds, or that is added to what a loader finds.
#[derive(Clone, Copy, Debug, PartialEq, Eq)]
pub enum Word {
    /// 0.
    Nought,
    /// 1, the module number of a program.
    One,
    /// The address of the symbol.
    Address,
    /// Its distance from the thread pointer.
    FromPointer,
    /// Its offset in the block of thread-local storage.
    InBlock,
}

/// A dynamic relocation that fills a slot.
#[derive(Clone, Copy, Debug, PartialEq, Eq)]
pub struct Fill {
    /// Its type, by the machine's number.
    pub kind: u32,
    /// Which word of the slot it stands on: 0 or 1.
    pub word: u8,
    /// Whether it names the symbol, which a loader then looks up.
    pub named: bool,
    /// Its addend.
    pub addend: Word,
}

/// The words of a slot as the file has them.
#[derive(Clone, Copy, Debug, PartialEq, Eq)]
pub enum Words {
    /// A slot.
    Single(Word),
    /// A pair of slots, in order.
    Pair(Word, Word),
}

/// The dynamic relocations that fill a slot, in order.
#[derive(Clone, Copy, Debug, PartialEq, Eq)]
pub enum Fills {
    /// None: the words stand as they are.
    Nothing,
    /// One.
    Single(Fill),
    /// Two.
    Pair(Fill, Fill),
}

/// What a slot of .got holds, and what fills it.
#[derive(Debug, Drop)]
pub struct Slots {
    words: Words,
    fills: Fills,
}

impl Model for Slots {
    ghost use Rattle.link_core.specs.Slots.{Slots as SlotsMeant};
    ghost use Rattle.link_slots.specs.Seen.{slots_of};

    ghost Value = { SlotsMeant };

    ghost view = { λ s. slots_of s.words s.fills };
}

impl Slots {
    /// A slot of these words, filled by these relocations.
    pub fn of(words: Words, fills: Fills) -> Slots
        ensures { result ≡ slots_of words fills }
    {
        Slots { words, fills }
    }

    /// Its words.
    pub fn words(&self) -> Words
        ensures { words_of result ≡ self.now.words }
    {
        self.words
    }

    /// What fills them.
    pub fn fills(&self) -> Fills
        ensures { fills_of result ≡ self.now.fills }
    {
        self.fills
    }
}
