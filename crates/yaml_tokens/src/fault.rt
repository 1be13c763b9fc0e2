//! The fault of a text's tokens.

ghost use Rattle.std.specs.Prelude.{◌≡◌, ◌==◌, ◌<◌, ◌+◌, ◌^◌, ◌-◌, IfSome, length, position};
ghost use Rattle.yaml_tokens.specs.Faults.{fault_of, bad_byte, piece_fault, own_fault, tab_fault, escape_fault};
ghost use Rattle.yaml_tokens.specs.Pieces.{pieces_of};
ghost use Rattle.yaml_tokens.specs.Brackets.{turned, found_in, open_count};

use crate::byte::is_bad;
use crate::cutter::Cutter;
use crate::kind::{Fault, YamlKind, first_of};
use crate::piece::{Kind, Piece};
use crate::scalar::{bad_escape, within};

/// The fault of a text's tokens: of all that is wrong with them the fact with the least offset, at one
/// offset the first in the order of `YamlKind`; None exactly where nothing is. `Shape` is none of these
/// facts. It takes no memory.
pub fn find_fault(text: &[u8]) -> Option<Fault>
    ensures { result ≡ fault_of text.now }
{
    first_of(bad_byte(text), fault_of_pieces(text))
}

// The first byte that no text has.
fn bad_byte(text: &[u8]) -> Option<Fault>
    ensures { result ≡ bad_byte 0 text.now }
{
    let mut at = 0;
    let mut rest = text;
    while let [byte, after @ ..] = rest {
        if is_bad(*byte, after) {
            return Some(Fault {
                at,
                kind: YamlKind::BadByte,
            });
        }
        at += 1;
        rest = after;
    }
    None
}

// The least fault of the pieces.
fn fault_of_pieces(text: &[u8]) -> Option<Fault>
    ensures { result ≡ piece_fault (pieces_of text.now) }
{
    let mut cutter = Cutter::new(text);
    let mut fault = None;
    let mut brackets = Brackets::Level;
    while let Some(piece) = cutter.next() {
        fault = first_of(fault, own_fault(&piece));
        brackets = brackets.turn(&piece);
    }
    first_of(fault, brackets.unclosed())
}

// What is wrong with a piece alone.
#[tactic(auto, unfolding(crate::specs::Faults::own_fault))]
fn own_fault(piece: &Piece) -> Option<Fault>
    ensures { result ≡ own_fault piece.now }
{
    let at = piece.at() as u64;
    match piece.kind() {
        Kind::Stray | Kind::Line => tab_fault(piece),
        Kind::Double => escape_fault(piece),
        Kind::Unclosed => Some(Fault {
            at,
            kind: YamlKind::Unclosed,
        }),
        Kind::LeftOut => Some(Fault {
            at,
            kind: YamlKind::Unsupported,
        }),
        Kind::Begin
        | Kind::End
        | Kind::Open
        | Kind::Close
        | Kind::Colon
        | Kind::Dash
        | Kind::Plain
        | Kind::Single
        | Kind::Other => None,
    }
}

// The first tab of an indentation.
fn tab_fault(piece: &Piece) -> Option<Fault>
    ensures { result ≡ tab_fault piece.now }
{
    let place = first_tab(piece.bytes())?;
    Some(Fault {
        at: piece.at() as u64 + place as u64,
        kind: YamlKind::Tab,
    })
}

// The place of the first tab.
fn first_tab(bytes: &[u8]) -> Option<usize>
    ensures value { result ≡ position (λ b. b == 9) bytes.now }
    ensures within { IfSome result (λ i. i < length bytes.now) }
{
    bytes.iter().position(|byte| *byte == b'\t')
}

// The first backslash between double quotes that begins no escape.
fn escape_fault(piece: &Piece) -> Option<Fault>
    ensures { result ≡ escape_fault piece.now }
{
    let place = bad_escape(within(piece.bytes()))?;
    Some(Fault {
        at: piece.at() as u64 + (1 + place as u64),
        kind: YamlKind::BadEscape,
    })
}

/// The brackets that are open, as the pieces go by.
#[derive(Clone, Copy)]
pub enum Brackets {
    /// None that could still be unclosed.
    Level,
    /// The first one at an offset, and so many behind it.
    Open(usize, usize),
    /// The one at this offset is the first that isn't closed.
    Unclosed(usize),
}

impl Brackets {
    // The brackets behind a piece.
    fn turn(self, piece: &Piece) -> Brackets
        requires { open_count self < 2 ^ 64 - 1 }
        ensures { result ≡ turned self piece.now }
    {
        match (self, piece.kind()) {
            (Brackets::Level, Kind::Open) => Brackets::Open(piece.at(), 0),
            (Brackets::Open(at, count), Kind::Open) => Brackets::Open(at, count + 1),
            (Brackets::Open(at, count), Kind::Close) => if count == 0 {
                Brackets::Level
            } else {
                Brackets::Open(at, count - 1)
            },
            (Brackets::Open(at, _), Kind::Begin) => Brackets::Unclosed(at),
            (other, _) => other,
        }
    }

    // The first bracket that isn't closed, at the text's end.
    fn unclosed(self) -> Option<Fault>
        ensures { result ≡ found_in self }
    {
        match self {
            Brackets::Level => None,
            Brackets::Open(at, _) | Brackets::Unclosed(at) => Some(Fault {
                at: at as u64,
                kind: YamlKind::Unclosed,
            }),
        }
    }
}
