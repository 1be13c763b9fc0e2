//! The nodes of a document.

ghost use Rattle.std.specs.Prelude.{◌≡◌, ◌++◌, ◌∷◌, [], IfOk, OnOk};
ghost use Rattle.std.specs.Option.{option_copied};
ghost use Rattle.yaml_nodes.specs.Nodes.{text_of, items_of, entries_of, key_of, value_of};

use ifs_bytes::{Memory, Text};
use sqlite_items::{Boxed, Items};
use std::alloc::Global;
use std::marker::Model;
use yaml_tokens::Written;

// How many items a list has while it grows by one.
const FEW: usize = 4;

// Where the bytes of a scalar are.
#[derive(Debug, Drop)]
enum Held<'a> {
    // in the text that was read
    Lent(&'a [u8]),
    // here, as they don't stand there so
    Own(Boxed<Text>),
}

/// The text that a scalar stands for, whose bytes are those of the text that was read where they stand there.
#[derive(Debug, Drop)]
pub struct Scalar<'a> {
    held: Held<'a>,
}

impl<'a> Model for Scalar<'a> {
    ghost use Rattle.std.specs.Prelude.{ℕ, List};

    ghost Value = { List ℕ };

    ghost use Rattle.yaml_nodes.specs.Held.{held_text};

    ghost view = { λ s. held_text s.held };
}

impl<'a> Scalar<'a> {
    /// The empty text.
    pub fn empty() -> Scalar<'a>
        ensures { result ≡ [] }
    {
        Scalar {
            held: Held::Lent(&[]),
        }
    }

    /// The text of a scalar. The only error is want of memory.
    pub fn of(alloc: Global, written: &Written<'a>) -> Result<Scalar<'a>, Memory>
        ensures { IfOk result (λ scalar. scalar ≡ written.now) }
    {
        match written.as_plain() {
            Some(bytes) => Ok(Scalar {
                held: Held::Lent(bytes),
            }),
            None => Ok(Scalar {
                held: Held::Own(Boxed::new(alloc, written.text(alloc)?)?),
            }),
        }
    }

    /// The bytes.
    pub fn as_bytes(&self) -> &[u8]
        ensures { result.now ≡ self.now }
    {
        match &self.held {
            Held::Lent(bytes) => bytes,
            Held::Own(text) => text.get().as_bytes(),
        }
    }
}

/// A node of a document.
#[cycle(node)]
#[derive(Debug, Drop)]
pub enum Node<'a> {
    /// A scalar, and the text that it stands for.
    Scalar(Scalar<'a>),
    /// A sequence and its items.
    Seq(Items<Node<'a>>),
    /// A map and its entries in the order of the text, equal keys with them.
    Map(Items<Entry<'a>>),
}

/// An entry of a map.
#[cycle(node)]
#[derive(Debug, Drop)]
pub struct Entry<'a> {
    /// The text of the key.
    pub key: Scalar<'a>,
    /// The value.
    pub value: Node<'a>,
}

impl<'a> Node<'a> {
    /// The text of a scalar; None exactly for a map or a sequence.
    pub fn as_scalar(&self) -> Option<&[u8]>
        ensures { option_copied result ≡ text_of self.now }
    {
        match self {
            Node::Scalar(text) => Some(text.as_bytes()),
            Node::Seq(_) | Node::Map(_) => None,
        }
    }

    /// The items of a sequence; None exactly for a map or a scalar.
    pub fn as_seq(&self) -> Option<&[Node<'a>]>
        ensures { option_copied result ≡ items_of self.now }
    {
        match self {
            Node::Seq(items) => Some(items.as_slice()),
            Node::Scalar(_) | Node::Map(_) => None,
        }
    }

    /// The entries of a map; None exactly for a sequence or a scalar.
    pub fn as_map(&self) -> Option<&[Entry<'a>]>
        ensures { option_copied result ≡ entries_of self.now }
    {
        match self {
            Node::Map(entries) => Some(entries.as_slice()),
            Node::Scalar(_) | Node::Seq(_) => None,
        }
    }
}

impl<'a> Entry<'a> {
    /// The text of the key.
    pub fn key(&self) -> &[u8]
        ensures { result.now ≡ key_of self.now }
    {
        self.key.as_bytes()
    }

    /// The value.
    pub fn value(&self) -> &Node<'a>
        ensures { result.now ≡ value_of self.now }
    {
        &self.value
    }
}

/// Puts an item at the end of a list, which has room for just its items while they are few.
pub fn push_item<T: Drop>(items: &mut Vec<T>, item: T) -> Result<(), Memory>
    ensures { OnOk result (items.new.items ≡ items.old.items ++ item ∷ []) }
{
    if items.len() < FEW {
        items.reserve_exact(1)?;
    }
    Ok(items.push(item)?)
}
