//! The documents of a text, by its tokens (YAML 1.2, chapter 9).

ghost use Rattle.std.specs.Prelude.{◌≡◌, ◌∷◌, ℕ, IfOk};
ghost use Rattle.yaml_tokens.specs.declared.token.Token.TheVariants as token;
ghost use Rattle.ifs_bytes.specs.Outcome.{UnlessMemory};
ghost use Rattle.yaml_nodes.specs.declared.cause.YamlCause.TheVariants.{Memory as NoMemory};
ghost use Rattle.yaml_nodes.specs.Documents.{max_depth, parts, document, is_end, alone, root_at, root_of, document_of, documents_of, added, Adds, EndsAs};

use crate::block::{begins_entry, begins_item, block_node};
use crate::cause::YamlCause;
use crate::flow::{blank, flow_node};
use crate::found::Found;
use crate::node::Node;
use ifs_bytes::{List, Memory, Text};
use std::alloc::Global;
use yaml_tokens::{Token, Tokens, Written, YamlKind};

const MAX_DEPTH: u8 = 16;

/// A document of a text.
#[derive(Debug, Drop)]
pub struct Document<'a> {
    /// Its tag with the `!`, where it has one.
    pub tag: Option<Text>,
    /// Its one node; the empty scalar where nothing is written.
    pub root: Node<'a>,
}

/// The documents that tokens are, which are those of a whole text. A document that isn't one node of at most 16
/// maps and sequences in one another is refused as `Shape` at its offset, and a line outside documents at its own:
/// the first of these in the text.
pub fn documents<'a>(alloc: Global, tokens: Tokens<'a>) -> Result<List<Document<'a>>, YamlCause>
    ensures { UnlessMemory NoMemory result (documents_of (parts tokens.entry)) }
{
    let mut found = Vec::new(alloc);
    let mut rest = tokens;
    while let Some((first, after)) = rest.split() {
        if let Some(document) = last_document(alloc, &rest)? {
            found.push(document)?;
            return Ok(List::from_vec(found));
        }
        add(alloc, &mut found, first, &after)?;
        rest = after;
    }
    Ok(List::from_vec(found))
}

// The document that all tokens are, where they are one; nothing is said where None is answered. So the tokens of the
// last document, which most texts have alone, are passed once.
fn last_document<'a>(alloc: Global, tokens: &Tokens<'a>) -> Result<Option<Document<'a>>, Memory>
    ensures { IfOk result (λ found. EndsAs tokens.now found) }
{
    match tokens.split() {
        Some((first, after)) => match first {
            Token::Begin(_, tag) => whole_document(alloc, tag, after),
            _ => Ok(None),
        },
        None => Ok(None),
    }
}

// The document with this tag and all these tokens.
fn whole_document<'a>(
    alloc: Global,
    tag: Option<Written<'a>>,
    tokens: Tokens<'a>,
) -> Result<Option<Document<'a>>, Memory>
    ensures { IfOk result (λ found. (at : ℕ) → EndsAs (token.Begin at tag.entry ∷ tokens.entry) found) }
{
    match root(alloc, tokens)? {
        Some(root) => Ok(Some(Document {
            tag: tag_text(alloc, tag)?,
            root,
        })),
        None => Ok(None),
    }
}

// Puts the document at the end that a token begins, by the tokens behind it.
fn add<'a>(
    alloc: Global,
    found: &mut Vec<Document<'a>>,
    first: Token<'a>,
    after: &Tokens<'a>,
) -> Result<(), YamlCause>
    ensures { Adds result found.old.items found.new.items (added first.entry after.now) }
{
    match first {
        Token::Stray(at) => Err(YamlCause::At(at, YamlKind::Shape)),
        Token::Begin(at, tag) => {
            let document = read_document(alloc, at, tag, after.body())?;
            Ok(found.push(document)?)
        }
        _ => Ok(()),
    }
}

// The document with this offset, this tag and these tokens.
fn read_document<'a>(
    alloc: Global,
    at: u64,
    tag: Option<Written<'a>>,
    tokens: Tokens<'a>,
) -> Result<Document<'a>, YamlCause>
    ensures { UnlessMemory NoMemory result (document_of at tag.entry tokens.entry) }
{
    match root(alloc, tokens)? {
        Some(root) => Ok(Document {
            tag: tag_text(alloc, tag)?,
            root,
        }),
        None => Err(YamlCause::At(at, YamlKind::Shape)),
    }
}

// The text of a tag.
fn tag_text(alloc: Global, tag: Option<Written<'_>>) -> Result<Option<Text>, Memory>
    ensures { IfOk result (λ text. text ≡ tag.entry) }
{
    match tag {
        Some(tag) => Ok(Some(tag.text(alloc)?)),
        None => Ok(None),
    }
}

// The root that tokens are.
fn root<'a>(alloc: Global, tokens: Tokens<'a>) -> Result<Option<Node<'a>>, Memory>
    ensures { IfOk result (λ root. root ≡ root_of tokens.entry) }
{
    match tokens.split() {
        None => Ok(Some(blank())),
        Some((Token::Line(column), rest)) => if column == 0 {
            root_at(alloc, rest)
        } else {
            Ok(None)
        },
        Some(_) => Ok(None),
    }
}

// The root that the tokens behind the beginning of its line are.
fn root_at<'a>(alloc: Global, tokens: Tokens<'a>) -> Result<Option<Node<'a>>, Memory>
    ensures { IfOk result (λ root. root ≡ root_at tokens.entry) }
{
    if begins_item(&tokens) || begins_entry(&tokens) {
        Ok(alone(block_node(alloc, MAX_DEPTH, 0, tokens)?))
    } else {
        Ok(alone(flow_node(alloc, MAX_DEPTH, tokens)?))
    }
}

// A node that nothing follows.
fn alone<'a>(found: Option<Found<'a, Node<'a>>>) -> Option<Node<'a>>
    ensures { result ≡ alone found.entry }
{
    let (node, rest) = found?.into_parts();
    if is_end(&rest) { Some(node) } else { None }
}

// Whether there is no token.
fn is_end(tokens: &Tokens) -> bool
    ensures { result ≡ is_end tokens.now }
{
    match tokens.split() {
        None => true,
        Some(_) => false,
    }
}
