//! What stands at the front of a line's rest (YAML 1.2, "Flow Styles" and "Block Styles").

ghost use Rattle.std.specs.Prelude.{◌≡◌, ◌≤◌, length};
ghost use Rattle.yaml_tokens.specs.Pieces.{closed_by, quoted_front, parts_quoted, parts, leaves_out, single_front, bare_front, front, is_dash, begins_item};

use crate::byte::{begins_blank, begins_open, blanks, is_close, is_left_out, is_open, is_quote};
use crate::piece::{Before, Kind};
use crate::scalar::{begins_plain, double_size, plain_size, single_size};

/// The kind of a piece, and how many bytes it has behind its first.
#[derive(Clone, Copy)]
pub struct Front {
    /// What the piece is.
    pub kind: Kind,
    /// How many bytes it has behind its first.
    pub size: usize,
}

impl Front {
    /// Whether a blank is the piece's last byte: only a dash takes blanks with it.
    pub fn ends_blank(self) -> bool
        ensures { result ≡ is_dash self }
    {
        match self.kind {
            Kind::Dash => 0 < self.size,
            _ => false,
        }
    }
}

/// The piece that a byte other than a blank begins, which `rest` follows on its line.
#[tactic(auto, unfolding(crate::specs::Pieces::front))]
pub fn front_of(before: Before, byte: u8, rest: &[u8]) -> Front
    ensures value { result ≡ front before byte rest.now }
    ensures within { result.size ≤ length rest.now }
{
    if is_quote(byte) {
        quoted_front(byte, rest)
    } else if is_open(byte) {
        Front {
            kind: Kind::Open,
            size: 0,
        }
    } else if is_close(byte) {
        Front {
            kind: Kind::Close,
            size: 0,
        }
    } else {
        bare_front(before, byte, rest)
    }
}

// The scalar that a quote begins.
#[tactic(auto, unfolding(crate::specs::Pieces::quoted_front))]
fn quoted_front(byte: u8, rest: &[u8]) -> Front
    ensures value { result ≡ quoted_front byte rest.now }
    ensures within { result.size ≤ length rest.now }
{
    if byte == b'\'' {
        closed_by(Kind::Single, single_size(rest), rest)
    } else {
        closed_by(Kind::Double, double_size(rest), rest)
    }
}

// A scalar whose quote is closed so far behind, or isn't closed.
fn closed_by(kind: Kind, size: Option<usize>, rest: &[u8]) -> Front
    ensures { result ≡ closed_by kind size rest.now }
{
    match size {
        Some(size) => Front { kind, size },
        None => Front {
            kind: Kind::Unclosed,
            size: rest.len(),
        },
    }
}

// A plain scalar, or a piece that neither a quote nor a bracket begins.
#[tactic(auto, unfolding(crate::specs::Pieces::bare_front))]
fn bare_front(before: Before, byte: u8, rest: &[u8]) -> Front
    ensures value { result ≡ bare_front before byte rest.now }
    ensures within { result.size ≤ length rest.now }
{
    let flow = before.in_flow();
    if parts_quoted(before, byte) {
        Front {
            kind: Kind::Colon,
            size: 0,
        }
    } else if begins_plain(flow, byte, rest) {
        Front {
            kind: Kind::Plain,
            size: plain_size(flow, rest),
        }
    } else {
        single_front(before, byte, rest)
    }
}

// A piece that no scalar and no bracket is.
#[tactic(auto, unfolding(crate::specs::Pieces::single_front))]
fn single_front(before: Before, byte: u8, rest: &[u8]) -> Front
    ensures value { result ≡ single_front before byte rest.now }
    ensures within { result.size ≤ length rest.now }
{
    if parts(before, byte, rest) {
        Front {
            kind: Kind::Colon,
            size: 0,
        }
    } else if begins_item(before, byte) {
        Front {
            kind: Kind::Dash,
            size: blanks(rest),
        }
    } else if leaves_out(byte, rest) {
        Front {
            kind: Kind::LeftOut,
            size: 0,
        }
    } else {
        Front {
            kind: Kind::Other,
            size: 0,
        }
    }
}

// Whether a byte is a `:` behind a scalar in quotes, in flow.
#[tactic(auto, unfolding(crate::specs::Pieces::parts_quoted))]
fn parts_quoted(before: Before, byte: u8) -> bool
    ensures { result ≡ parts_quoted before byte }
{
    byte == b':' && before.in_flow() && before.quoted
}

// Whether a byte is a `:` that may part a key and its value.
#[tactic(auto, unfolding(crate::specs::Pieces::parts))]
fn parts(before: Before, byte: u8, rest: &[u8]) -> bool
    ensures { result ≡ parts before byte rest.now }
{
    byte == b':' && !(before.in_flow() && begins_open(rest))
}

// Whether a byte is a `-` outside flow.
fn begins_item(before: Before, byte: u8) -> bool
    ensures { result ≡ begins_item before byte }
{
    byte == b'-' && !before.in_flow()
}

// Whether a byte begins a form that the profile leaves out.
#[tactic(auto, unfolding(crate::specs::Pieces::leaves_out))]
fn leaves_out(byte: u8, rest: &[u8]) -> bool
    ensures { result ≡ leaves_out byte rest.now }
{
    is_left_out(byte) || byte == b'?' && begins_blank(rest)
}
