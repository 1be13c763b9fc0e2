//! Tokens, as the nodes of a document are made of them.

ghost use Rattle.std.specs.Prelude.{◌≡◌, ◌&&◌, zero, false, IfOk, IfSome};
ghost use Rattle.yaml_tokens.specs.Scalars.{undoubled, unescaped};
ghost use Rattle.yaml_tokens.specs.Tokens.{tokens_of, token_of, indicator_by, text_by, first_byte};
ghost use Rattle.yaml_tokens.specs.Parts.{begins_part, NextToken};
ghost use Rattle.yaml_tokens.specs.Lines.{tag_of};

use crate::cutter::Cutter;
use crate::line::tag_of;
use crate::piece::{Kind, Piece};
use crate::scalar::{append_undoubled, append_unescaped, within};
use ifs_bytes::{Memory, Text};
use std::alloc::Global;
use std::marker::Model;

/// A scalar or a tag as it stands in a text. A contract sees the text that it stands for.
#[derive(Drop)]
pub struct Written<'a> {
    kind: Kind,
    bytes: &'a [u8],
}

impl<'a> Model for Written<'a> {
    ghost use Rattle.std.specs.Prelude.{ℕ, List};

    ghost Value = { List ℕ };

    ghost use Rattle.yaml_tokens.specs.Tokens.{text_by};

    ghost view = { λ w. text_by w.kind w.bytes.now };
}

impl<'a> Written<'a> {
    // The text that bytes of this kind stand for.
    fn new(kind: Kind, bytes: &'a [u8]) -> Written<'a>
        ensures { result ≡ text_by kind bytes.now }
    {
        Written { kind, bytes }
    }

    /// Its bytes, where they are known to be the text that it stands for.
    pub fn as_plain(&self) -> Option<&'a [u8]>
        ensures { IfSome result (λ bytes. bytes.now ≡ self.now) }
    {
        match self.kind {
            Kind::Plain => Some(self.bytes),
            _ => None,
        }
    }

    /// The text that it stands for.
    pub fn text(&self, alloc: Global) -> Result<Text, Memory>
        ensures { IfOk result (λ text. text ≡ self.now) }
    {
        scalar_text(alloc, self.kind, self.bytes)
    }
}

/// A token of the profile. Outside flow `Line` stands before the first token of each line.
#[derive(Drop)]
pub enum Token<'a> {
    /// A document begins with the line at this offset, and has this tag, with its `!`.
    Begin(u64, Option<Written<'a>>),
    /// The line at this offset stands outside documents and has more than blanks and a comment.
    Stray(u64),
    /// A line begins outside flow, and its first token stands at this column.
    Line(u64),
    /// The `-` of an item, outside flow; what follows it on its line stands at this column.
    Dash(u64),
    /// A `:` that may stand between a key and its value.
    Colon,
    /// `,`
    Comma,
    /// `{`
    OpenMap,
    /// `}`
    CloseMap,
    /// `[`
    OpenSeq,
    /// `]`
    CloseSeq,
    /// A plain or quoted scalar, and the text that it stands for.
    Scalar(Written<'a>),
    /// Another byte, which no document may have as a token.
    Other(u8),
}

/// The tokens from a place of a text on, each cut when it is asked for, so that they take no memory. A contract sees
/// the list of them.
#[derive(Drop)]
pub struct Tokens<'a> {
    cutter: Cutter<'a>,
    // they end before the next document, or before a line outside documents
    bounded: bool,
}

impl<'a> Model for Tokens<'a> {
    ghost use Rattle.std.specs.Prelude.{List};
    ghost use Rattle.yaml_tokens.specs.declared.token.Token.{Token};

    ghost Value = { List Token };

    ghost use Rattle.yaml_tokens.specs.Parts.{up_to, tokens_at};

    ghost view = { λ t. up_to t.bounded (tokens_at t.cutter) };
}

impl<'a> Tokens<'a> {
    ghost use Rattle.yaml_tokens.specs.Parts.{body, parted};

    /// The tokens of a text in order, whatever is wrong with it.
    pub fn new(text: &'a [u8]) -> Tokens<'a>
        ensures { result ≡ tokens_of text.now }
    {
        Tokens {
            cutter: Cutter::new(text),
            bounded: false,
        }
    }

    /// The first token and those behind it; None exactly where there is none.
    #[tactic(auto, using(crate::proofs::Parts::parted_more, crate::proofs::Parts::parted_bound, crate::proofs::Parts::parted_none))]
    pub fn split(&self) -> Option<(Token<'a>, Tokens<'a>)>
        ensures { parted result ≡ self.now }
    {
        let bounded = self.bounded;
        let mut cutter = self.cutter.copy();
        match next_token(&mut cutter) {
            Some(token) => if is_beyond(bounded, &token) {
                None
            } else {
                Some((token, Tokens { cutter, bounded }))
            },
            None => None,
        }
    }

    /// The tokens up to the next document, or to a line outside documents.
    #[tactic(auto, using(crate::proofs::Parts::body_bound))]
    pub fn body(&self) -> Tokens<'a>
        ensures { result ≡ body self.now }
    {
        Tokens {
            cutter: self.cutter.copy(),
            bounded: true,
        }
    }
}

impl<'a> Token<'a> {
    /// Whether a document or a line outside documents begins with it.
    pub fn begins_part(&self) -> bool
        ensures { result ≡ begins_part self.now }
    {
        match self {
            Token::Begin(_, _) | Token::Stray(_) => true,
            _ => false,
        }
    }
}

// Whether a token stands behind the body, where the tokens end there.
fn is_beyond(bounded: bool, token: &Token) -> bool
    ensures { result ≡ (bounded && begins_part token.now) }
{
    bounded && token.begins_part()
}

// The next token of a text; None exactly where there is no more.
fn next_token<'a>(cutter: &mut Cutter<'a>) -> Option<Token<'a>>
    ensures { NextToken result cutter.old cutter.new }
{
    while let Some(piece) = cutter.next() {
        if let Some(token) = token_of(&piece) {
            return Some(token);
        }
    }
    None
}

// The token of a piece.
#[tactic(auto, unfolding(crate::specs::Tokens::token_of))]
fn token_of<'a>(piece: &Piece<'a>) -> Option<Token<'a>>
    ensures { result ≡ token_of piece.now }
{
    match piece.kind() {
        Kind::Begin => Some(Token::Begin(piece.line() as u64, tag_text(piece.bytes()))),
        Kind::End => None,
        Kind::Stray => Some(Token::Stray(piece.line() as u64)),
        Kind::Line => Some(Token::Line(piece.end_column() as u64)),
        Kind::Dash => Some(Token::Dash(piece.end_column() as u64)),
        Kind::Plain | Kind::Single | Kind::Double => {
            Some(Token::Scalar(Written::new(piece.kind(), piece.bytes())))
        }
        Kind::Open | Kind::Close | Kind::Colon | Kind::Unclosed | Kind::LeftOut | Kind::Other => {
            Some(indicator(piece))
        }
    }
}

// The token of a piece that keeps no text.
fn indicator<'a>(piece: &Piece<'a>) -> Token<'a>
    ensures { result ≡ indicator_by piece.now.kind (first_byte piece.now.bytes) }
{
    let byte = first_byte(piece.bytes());
    match piece.kind() {
        Kind::Colon => Token::Colon,
        Kind::Open => if byte == b'{' {
            Token::OpenMap
        } else {
            Token::OpenSeq
        },
        Kind::Close => if byte == b'}' {
            Token::CloseMap
        } else {
            Token::CloseSeq
        },
        Kind::Other => if byte == b',' {
            Token::Comma
        } else {
            Token::Other(byte)
        },
        _ => Token::Other(byte),
    }
}

fn first_byte(bytes: &[u8]) -> u8
    ensures { result ≡ first_byte bytes.now }
{
    match bytes {
        [] => 0,
        [byte, ..] => *byte,
    }
}

// The tag of a line that begins a document.
fn tag_text<'a>(line: &'a [u8]) -> Option<Written<'a>>
    ensures { result ≡ tag_of line.now }
{
    match tag_of(line) {
        Some(tag) => Some(Written::new(Kind::Plain, tag)),
        None => None,
    }
}

// The text that a scalar of a kind stands for.
fn scalar_text(alloc: Global, kind: Kind, bytes: &[u8]) -> Result<Text, Memory>
    ensures { IfOk result (λ text. text ≡ text_by kind bytes.now) }
{
    match kind {
        Kind::Single => undoubled_text(alloc, within(bytes)),
        Kind::Double => unescaped_text(alloc, within(bytes)),
        _ => Text::from_slice(alloc, bytes),
    }
}

// The text between single quotes.
fn undoubled_text(alloc: Global, bytes: &[u8]) -> Result<Text, Memory>
    ensures { IfOk result (λ text. text ≡ undoubled false bytes.now) }
{
    let mut text = Text::new(alloc);
    append_undoubled(&mut text, bytes)?;
    Ok(text)
}

// The text between double quotes.
fn unescaped_text(alloc: Global, bytes: &[u8]) -> Result<Text, Memory>
    ensures { IfOk result (λ text. text ≡ unescaped zero bytes.now) }
{
    let mut text = Text::new(alloc);
    append_unescaped(&mut text, bytes)?;
    Ok(text)
}
