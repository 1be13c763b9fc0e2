//! The cutter, which goes over the bytes of a text once and gives its pieces.

ghost use Rattle.std.specs.Prelude.{◌≡◌, ◌+◌, ◌*◌, ◌<◌, ◌≤◌, ◌^◌, ◌||◌, ◌∷◌, [], true, Some, length};
ghost use Rattle.yaml_tokens.specs.Bytes.{is_blank, begins};
ghost use Rattle.yaml_tokens.specs.Pieces.{class_of, opening, content};
ghost use Rattle.yaml_tokens.specs.Places.{opened, passed};

use crate::byte::{begins_blank, is_blank};
use crate::front::front_of;
use crate::line::{begins_document, behind_line, ends_document, is_skipped, line_size};
use crate::piece::{Before, Class, Kind, Piece};
use std::marker::Model;

/// A place in a text: what is left of its line, and the text behind that line.
#[derive(Drop)]
pub struct Cutter<'a> {
    line: &'a [u8],
    // the offset of the line, and how many of its bytes were cut
    line_at: usize,
    column: usize,
    // the line's start or a blank stands before
    fresh: bool,
    after: &'a [u8],
    after_at: usize,
    before: Before,
}

impl<'a> Model for Cutter<'a> {
    ghost use Rattle.std.specs.Prelude.{length};
    ghost use Rattle.yaml_tokens.specs.Places.{Place, Fits};

    ghost Value = { Place };

    ghost view = { λ c. record {
      line = c.line.now;
      line_at = c.line_at;
      column = c.column;
      fresh = c.fresh;
      after = c.after.now;
      after_at = c.after_at;
      before = c.before;
    } };

    ghost invariant = { λ c. Fits c.before c.line_at c.column (length c.line.now) c.after_at (length c.after.now) };
}

impl<'a> Cutter<'a> {
    ghost use Rattle.yaml_tokens.specs.Pieces.{pieces_of};
    ghost use Rattle.yaml_tokens.specs.Places.{left, work, begins_piece, Cuts, CutsLine, OpensLine, Skips};

    /// The place before a text.
    #[tactic(auto, unfolding(crate::specs::Places::left))]
    pub fn new(text: &'a [u8]) -> Cutter<'a>
        ensures left { left result ≡ pieces_of text.now }
        ensures work { work result ≡ 2 * length text.now }
    {
        Cutter {
            line: &[],
            line_at: 0,
            column: 0,
            fresh: true,
            after: text,
            after_at: 0,
            before: Before {
                inside: false,
                opened: 0,
                closed: 0,
                quoted: false,
            },
        }
    }

    /// The same place.
    pub fn copy(&self) -> Cutter<'a>
        ensures { result ≡ self.now }
    {
        Cutter {
            line: self.line,
            line_at: self.line_at,
            column: self.column,
            fresh: self.fresh,
            after: self.after,
            after_at: self.after_at,
            before: self.before,
        }
    }

    /// The next piece of the text; None exactly where there is no more.
    pub fn next(&mut self) -> Option<Piece<'a>>
        ensures { Cuts result self.old self.new }
    {
        loop {
            if let Some(piece) = self.cut_line() {
                return Some(piece);
            }
            if self.after.is_empty() {
                return None;
            }
            if let Some(piece) = self.open_line() {
                return Some(piece);
            }
        }
    }

    // The next piece of the line; None exactly where there is no more.
    fn cut_line(&mut self) -> Option<Piece<'a>>
        ensures { CutsLine result self.old self.new }
    {
        self.skip();
        match self.line {
            [] => None,
            [byte, rest @ ..] => Some(self.take(*byte, rest)),
        }
    }

    // Goes on to the next byte of the line that begins a piece, or to the line's end.
    #[tactic(auto, unfolding(crate::specs::Places::left))]
    fn skip(&mut self)
        ensures { Skips self.old self.new }
    {
        let rest = passed(self.line, self.fresh);
        self.fresh = is_fresh(self.fresh, self.line);
        self.column += self.line.len() - rest.len();
        self.line = rest;
    }

    // Cuts the piece that a byte begins, which `rest` follows on the line.
    #[tactic(auto, unfolding(crate::specs::Places::left))]
    fn take(&mut self, byte: u8, rest: &'a [u8]) -> Piece<'a>
        requires line { self.old.line ≡ byte ∷ rest.now }
        requires begins { begins_piece self.old.fresh self.old.line ≡ true }
        ensures { Cuts (Some result) self.old self.new }
    {
        let found = front_of(self.before, byte, rest);
        let (bytes, _) = self.line.split_at(found.size + 1);
        let (_, line) = rest.split_at(found.size);
        let piece = Piece::new(self.line_at, self.column, found.kind, bytes);
        self.before = self.before.after(found.kind);
        self.fresh = found.ends_blank();
        self.column += 1 + found.size;
        self.line = line;
        piece
    }

    // Opens the next line, whose indentation or whole may be a piece.
    #[tactic(auto, unfolding(crate::specs::Places::left))]
    fn open_line(&mut self) -> Option<Piece<'a>>
        requires line { self.old.line ≡ [] }
        requires after { 0 < length self.old.after }
        ensures { OpensLine result self.old self.new }
    {
        let (line, _) = self.after.split_at(line_size(self.after));
        let rest = behind_line(self.after);
        let class = class_of(self.before, line);
        let piece = opening(class, self.before, self.after_at, line);
        self.before = opened(class, self.before);
        self.line_at = self.after_at;
        self.column = 0;
        self.fresh = true;
        self.line = content(class, line);
        self.after_at += self.after.len() - rest.len();
        self.after = rest;
        piece
    }
}

// Whether the line's start or a blank stands before what follows the blanks at the front.
fn is_fresh(fresh: bool, line: &[u8]) -> bool
    ensures { result ≡ (fresh || begins is_blank line.now) }
{
    fresh || begins_blank(line)
}

// The rest of a line from the next byte on that begins a piece.
fn passed(line: &[u8], fresh: bool) -> &[u8]
    ensures value { result.now ≡ passed fresh line.now }
    ensures less { length result.now ≤ length line.now }
{
    let mut fresh = fresh;
    let mut rest = line;
    while let [byte, after @ ..] = rest {
        if !is_blank(*byte) {
            return if *byte == b'#' && fresh { &[] } else { rest };
        }
        fresh = true;
        rest = after;
    }
    rest
}

// The piece that a line at an offset opens with.
fn opening(class: Class, before: Before, at: usize, line: &[u8]) -> Option<Piece<'_>>
    requires { at + length line.now < 2 ^ 63 }
    ensures { result ≡ opening class before (record { at = at; bytes = line.now }) }
{
    match class {
        Class::Begins => Some(Piece::new(at, 0, Kind::Begin, line)),
        Class::Skipped => None,
        Class::Stray => Some(Piece::indentation(Kind::Stray, at, line)),
        Class::Ends => Some(Piece::new(at, 0, Kind::End, line)),
        Class::Body => {
            if before.in_flow() {
                None
            } else {
                Some(Piece::indentation(Kind::Line, at, line))
            }
        }
    }
}

// What of a line is cut.
fn content(class: Class, line: &[u8]) -> &[u8]
    ensures value { result.now ≡ content class line.now }
    ensures within { length result.now ≤ length line.now }
{
    match class {
        Class::Body => line,
        Class::Begins | Class::Skipped | Class::Stray | Class::Ends => &[],
    }
}

// What stands before the content of a line.
fn opened(class: Class, before: Before) -> Before
    requires opened { before.opened < 2 ^ 63 }
    requires closed { before.closed < 2 ^ 63 }
    ensures value { result ≡ opened class before }
    ensures opened_bound { result.opened ≤ before.opened }
    ensures closed_bound { result.closed ≤ before.closed }
{
    match class {
        Class::Begins => before.after(Kind::Begin),
        Class::Ends => before.after(Kind::End),
        Class::Skipped | Class::Stray | Class::Body => before,
    }
}

// What a line is, by what stands before it.
#[tactic(auto, unfolding(crate::specs::Pieces::class_of))]
fn class_of(before: Before, line: &[u8]) -> Class
    ensures { result ≡ class_of before line.now }
{
    if begins_document(line) {
        Class::Begins
    } else if is_skipped(line) {
        Class::Skipped
    } else if !before.inside {
        Class::Stray
    } else if ends_document(line) {
        Class::Ends
    } else {
        Class::Body
    }
}
