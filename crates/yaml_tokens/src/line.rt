//! The lines of a text, and those that begin and end documents (YAML 1.2, "Line Break Characters",
//! "Document Markers").

ghost use Rattle.std.specs.Prelude.{◌≡◌, ◌≤◌, ◌<◌, length};
ghost use Rattle.std.specs.Option.{option_copied};
ghost use Rattle.yaml_tokens.specs.Lines.{line_ends, line_size, behind_line, skipped, ends_idle, word_size, tag_behind, begins_document, tag_of, ends_document};

use crate::byte::{begins_blank, begins_with, behind, blanks, is_blank};

// Whether a line ends before these bytes.
#[tactic(auto, unfolding(crate::specs::Lines::line_ends))]
fn line_ends(byte: u8, rest: &[u8]) -> bool
    ensures { result ≡ line_ends byte rest.now }
{
    byte == b'\n' || byte == b'\r' && begins_with(rest, b'\n')
}

/// How many bytes stand before the end of the first line.
pub fn line_size(text: &[u8]) -> usize
    ensures value { result ≡ line_size text.now }
    ensures within { result ≤ length text.now }
{
    let mut size = 0;
    let mut rest = text;
    while let [byte, after @ ..] = rest {
        if line_ends(*byte, after) {
            break;
        }
        size += 1;
        rest = after;
    }
    size
}

/// What stands behind the end of the first line.
pub fn behind_line(text: &[u8]) -> &[u8]
    ensures value { result.now ≡ behind_line text.now }
    ensures within { length result.now ≤ length text.now }
    ensures less { 0 < length text.now → length result.now < length text.now }
{
    let mut rest = text;
    while let [byte, after @ ..] = rest {
        if *byte == b'\n' {
            return after;
        }
        rest = after;
    }
    rest
}

/// Whether a line has nothing but blanks and a comment.
pub fn is_skipped(line: &[u8]) -> bool
    ensures { result ≡ skipped line.now }
{
    let mut rest = line;
    while let [byte, after @ ..] = rest {
        if !is_blank(*byte) {
            return *byte == b'#';
        }
        rest = after;
    }
    true
}

// Whether nothing stands there, or a blank and nothing but blanks and a comment.
fn ends_idle(rest: &[u8]) -> bool
    ensures { result ≡ ends_idle rest.now }
{
    match rest {
        [] => true,
        [byte, after @ ..] => is_blank(*byte) && is_skipped(after),
    }
}

// How many bytes stand before a blank.
fn word_size(bytes: &[u8]) -> usize
    ensures value { result ≡ word_size bytes.now }
    ensures within { result ≤ length bytes.now }
{
    let mut size = 0;
    let mut rest = bytes;
    while let [byte, after @ ..] = rest {
        if is_blank(*byte) {
            break;
        }
        size += 1;
        rest = after;
    }
    size
}

// The tag behind the marker of a line that begins a document, if nothing else follows.
#[tactic(auto, unfolding(crate::specs::Lines::tag_behind))]
fn tag_behind(rest: &[u8]) -> Option<&[u8]>
    ensures { option_copied result ≡ tag_behind rest.now }
{
    if !begins_blank(rest) {
        return None;
    }
    let (_, found) = rest.split_at(blanks(rest));
    let (tag, more) = found.split_at(word_size(found));
    if begins_with(tag, b'!') && 2 <= tag.len() && ends_idle(more) {
        Some(tag)
    } else {
        None
    }
}

/// Whether a line begins a document: `---`, and blanks, a tag and a comment where they are there.
#[tactic(auto, unfolding(crate::specs::Lines::begins_document))]
pub fn begins_document(line: &[u8]) -> bool
    ensures { result ≡ begins_document line.now }
{
    line.starts_with(b"---")
        && (ends_idle(behind(line, 3)) || tag_behind(behind(line, 3)).is_some())
}

/// The tag of the document that a line begins.
#[tactic(auto, unfolding(crate::specs::Lines::tag_of))]
pub fn tag_of(line: &[u8]) -> Option<&[u8]>
    ensures { option_copied result ≡ tag_of line.now }
{
    tag_behind(behind(line, 3))
}

/// Whether a line ends a document: `...`, and blanks and a comment where they are there.
#[tactic(auto, unfolding(crate::specs::Lines::ends_document))]
pub fn ends_document(line: &[u8]) -> bool
    ensures { result ≡ ends_document line.now }
{
    line.starts_with(b"...") && ends_idle(behind(line, 3))
}
