//! The pieces that a text is cut into.

ghost use Rattle.std.specs.Prelude.{◌≡◌, ◌+◌, ◌<◌, ◌^◌, length};
ghost use Rattle.yaml_tokens.specs.Pieces.{in_flow, after};

use crate::byte::blanks;
use std::marker::Model;

/// What a piece of a text is.
#[derive(Clone, Copy)]
pub enum Kind {
    /// The line that begins a document, whole.
    Begin,
    /// The line that ends a document, whole.
    End,
    /// The indentation of a line outside documents that isn't skipped.
    Stray,
    /// The indentation of a line that begins outside flow and isn't skipped.
    Line,
    /// `{` or `[`.
    Open,
    /// `}` or `]`.
    Close,
    /// A `:` that may stand between a key and its value.
    Colon,
    /// The `-` of an item outside flow, and the blanks behind it.
    Dash,
    /// A plain scalar.
    Plain,
    /// A scalar in single quotes, with them.
    Single,
    /// A scalar in double quotes, with them.
    Double,
    /// A quote that isn't closed, and the rest of its line.
    Unclosed,
    /// A byte that begins a form that the profile leaves out.
    LeftOut,
    /// Another byte.
    Other,
}

/// What stands before a place of a text.
#[derive(Clone, Copy)]
pub struct Before {
    /// A document has begun and hasn't ended.
    pub inside: bool,
    /// How many `{` and `[` of the document.
    pub opened: usize,
    /// How many `}` and `]` of the document.
    pub closed: usize,
    /// The last token is a scalar in quotes.
    pub quoted: bool,
}

impl Before {
    /// Whether the place is in flow: more brackets have opened than closed.
    pub fn in_flow(self) -> bool
        ensures { result ≡ in_flow self }
    {
        self.closed < self.opened
    }

    /// What stands before the place behind a piece of this kind.
    pub fn after(self, kind: Kind) -> Before
        requires opened { self.opened < 2 ^ 63 }
        requires closed { self.closed < 2 ^ 63 }
        ensures { result ≡ after self kind }
    {
        match kind {
            Kind::Begin => Before {
                inside: true,
                opened: 0,
                closed: 0,
                quoted: false,
            },
            Kind::End => Before {
                inside: false,
                opened: 0,
                closed: 0,
                quoted: false,
            },
            Kind::Stray | Kind::Line => self,
            Kind::Open => Before {
                opened: self.opened + 1,
                quoted: false,
                ..self
            },
            Kind::Close => Before {
                closed: self.closed + 1,
                quoted: false,
                ..self
            },
            Kind::Single | Kind::Double | Kind::Unclosed => Before {
                quoted: true,
                ..self
            },
            Kind::Colon | Kind::Dash | Kind::Plain | Kind::LeftOut | Kind::Other => Before {
                quoted: false,
                ..self
            },
        }
    }
}

/// What a line is, by what stands before it.
#[derive(Clone, Copy)]
pub enum Class {
    /// It begins a document.
    Begins,
    /// It has nothing but blanks and a comment.
    Skipped,
    /// It stands outside documents.
    Stray,
    /// It ends a document.
    Ends,
    /// It is cut.
    Body,
}

/// A piece of a text, with the offset of its line and its column there.
#[derive(Drop)]
pub struct Piece<'a> {
    line: usize,
    column: usize,
    kind: Kind,
    bytes: &'a [u8],
}

impl<'a> Model for Piece<'a> {
    ghost use Rattle.std.specs.Prelude.{◌+◌, ◌<◌, ◌^◌, length};
    ghost use Rattle.yaml_tokens.specs.Pieces.{PieceRecord};

    ghost Value = { PieceRecord };

    ghost view = { λ p. record { line = p.line; column = p.column; kind = p.kind; bytes = p.bytes.now } };

    ghost invariant = { λ p. p.line + p.column + length p.bytes.now < 2 ^ 63 };
}

impl<'a> Piece<'a> {
    ghost use Rattle.yaml_tokens.specs.Pieces.{indentation};

    /// The piece with these parts.
    pub fn new(line: usize, column: usize, kind: Kind, bytes: &'a [u8]) -> Piece<'a>
        requires { line + column + length bytes.now < 2 ^ 63 }
        ensures { result ≡ record { line = line; column = column; kind = kind; bytes = bytes.now } }
    {
        Piece {
            line,
            column,
            kind,
            bytes,
        }
    }

    /// The indentation of a line at an offset.
    pub fn indentation(kind: Kind, line: usize, bytes: &'a [u8]) -> Piece<'a>
        requires { line + length bytes.now < 2 ^ 63 }
        ensures { result ≡ indentation kind (record { at = line; bytes = bytes.now }) }
    {
        let (blanks, _) = bytes.split_at(blanks(bytes));
        Piece::new(line, 0, kind, blanks)
    }

    /// The offset of the line of the piece.
    pub fn line(&self) -> usize
        ensures { result ≡ self.now.line }
    {
        self.line
    }

    /// The offset of the piece.
    pub fn at(&self) -> usize
        ensures value { result ≡ self.now.line + self.now.column }
        ensures fits { result + length self.now.bytes < 2 ^ 63 }
    {
        self.line + self.column
    }

    /// How many bytes of its line stand before what follows the piece.
    pub fn end_column(&self) -> usize
        ensures { result ≡ self.now.column + length self.now.bytes }
    {
        self.column + self.bytes.len()
    }

    /// What the piece is.
    pub fn kind(&self) -> Kind
        ensures { result ≡ self.now.kind }
    {
        self.kind
    }

    /// The bytes of the piece.
    pub fn bytes(&self) -> &'a [u8]
        ensures { result.now ≡ self.now.bytes }
    {
        self.bytes
    }
}
