//! Nodes in flow (YAML 1.2, chapter 7).

ghost use Rattle.std.specs.Prelude.{◌≡◌, ◌∷◌, length, Some, IfOk};
ghost use Rattle.yaml_nodes.specs.declared.node.Node.TheVariants as node;
ghost use Rattle.yaml_nodes.specs.declared.flow.Brackets.TheVariants.{Curly, Square};
ghost use Rattle.yaml_nodes.specs.Nodes.{entry, blank};
ghost use Rattle.yaml_nodes.specs.Front.{front, made};
ghost use Rattle.yaml_nodes.specs.Lists.{begins_with, tail, next_item, listed};
ghost use Rattle.yaml_nodes.specs.Flow.{ends_entry, closes, flow_value, behind_key, flow_entry, scalar_front, flow_with, flow};

use crate::found::Found;
use crate::node::{Entry, Node, Scalar, push_item};
use ifs_bytes::Memory;
use sqlite_items::Items;
use std::alloc::Global;
use yaml_tokens::{Token, Tokens, Written};

/// The node in flow at the front of tokens, with at most `depth` maps and sequences in one another; None exactly
/// where there is none. The only error is want of memory.
#[tactic(auto, using(crate::proofs::Turns::flow_empty))]
pub fn flow_node<'a>(
    alloc: Global,
    depth: u8,
    tokens: Tokens<'a>,
) -> Result<Option<Found<'a, Node<'a>>>, Memory>
    ensures { IfOk result (λ found. found ≡ flow depth tokens.entry) }
{
    match tokens.split() {
        Some((first, rest)) => flow_first(alloc, depth, first, rest),
        None => Ok(None),
    }
}

/// The same, where the first token is taken apart from the rest.
#[cycle(flow)]
#[tactic(auto, using(crate::proofs::Turns::deeper))]
pub fn flow_first<'a>(
    alloc: Global,
    depth: u8,
    first: Token<'a>,
    rest: Tokens<'a>,
) -> Result<Option<Found<'a, Node<'a>>>, Memory>
    ensures { IfOk result (λ found. found ≡ flow depth (first.entry ∷ rest.entry)) }
{
    if depth == 0 {
        scalar_first(alloc, first, rest)
    } else {
        flow_with(alloc, depth - 1, first, rest)
    }
}

// The node at the front whose items have at most `depth` maps and sequences in one another.
#[cycle(flow)]
fn flow_with<'a>(
    alloc: Global,
    depth: u8,
    first: Token<'a>,
    rest: Tokens<'a>,
) -> Result<Option<Found<'a, Node<'a>>>, Memory>
    ensures { IfOk result (λ found. found ≡ flow_with (flow depth) (first.entry ∷ rest.entry)) }
{
    match first {
        Token::OpenMap => flow_map(alloc, depth, rest),
        Token::OpenSeq => flow_seq(alloc, depth, rest),
        Token::Scalar(text) => scalar_found(alloc, &text, rest),
        _ => Ok(None),
    }
}

// The scalar at the front.
fn scalar_first<'a>(
    alloc: Global,
    first: Token<'a>,
    rest: Tokens<'a>,
) -> Result<Option<Found<'a, Node<'a>>>, Memory>
    ensures { IfOk result (λ found. found ≡ scalar_front (first.entry ∷ rest.entry)) }
{
    match first {
        Token::Scalar(text) => scalar_found(alloc, &text, rest),
        _ => Ok(None),
    }
}

// The scalar of a text, which these tokens follow.
fn scalar_found<'a>(
    alloc: Global,
    text: &Written<'a>,
    rest: Tokens<'a>,
) -> Result<Option<Found<'a, Node<'a>>>, Memory>
    ensures { IfOk result (λ found. found ≡ Some (front (node.Scalar text.now) rest.entry)) }
{
    Ok(Some(Found::new(Node::Scalar(Scalar::of(alloc, text)?), rest)))
}

// The sequence whose items stand at the front, behind its bracket.
#[cycle(flow)]
fn flow_seq<'a>(
    alloc: Global,
    depth: u8,
    tokens: Tokens<'a>,
) -> Result<Option<Found<'a, Node<'a>>>, Memory>
    ensures { IfOk result (λ found. found ≡ made node.Seq (listed (flow depth) (closes Square) (length tokens.entry) tokens.entry)) }
{
    let mut items = Vec::new(alloc);
    let mut rest = tokens;
    loop {
        let Some((first, behind)) = rest.split() else {
            return Ok(None);
        };
        if Brackets::Square.is_closed_by(&first) {
            return Ok(Some(Found::new(Node::Seq(Items::from_vec(items)), behind)));
        }
        let Some(found) = flow_first(alloc, depth, first, behind)? else {
            return Ok(None);
        };
        let (item, after) = found.into_parts();
        push_item(&mut items, item)?;
        let Some(more) = Brackets::Square.next_item(after) else {
            return Ok(None);
        };
        rest = more;
    }
}

// The map whose entries stand at the front, behind its bracket.
#[cycle(flow)]
fn flow_map<'a>(
    alloc: Global,
    depth: u8,
    tokens: Tokens<'a>,
) -> Result<Option<Found<'a, Node<'a>>>, Memory>
    ensures { IfOk result (λ found. found ≡ made node.Map (listed (flow_entry (flow depth)) (closes Curly) (length tokens.entry) tokens.entry)) }
{
    let mut entries = Vec::new(alloc);
    let mut rest = tokens;
    loop {
        let Some((first, behind)) = rest.split() else {
            return Ok(None);
        };
        if Brackets::Curly.is_closed_by(&first) {
            return Ok(Some(Found::new(Node::Map(Items::from_vec(entries)), behind)));
        }
        let Some(found) = flow_entry(alloc, depth, first, behind)? else {
            return Ok(None);
        };
        let (entry, after) = found.into_parts();
        push_item(&mut entries, entry)?;
        let Some(more) = Brackets::Curly.next_item(after) else {
            return Ok(None);
        };
        rest = more;
    }
}

// The entry of a map at the front.
#[cycle(flow)]
fn flow_entry<'a>(
    alloc: Global,
    depth: u8,
    first: Token<'a>,
    rest: Tokens<'a>,
) -> Result<Option<Found<'a, Entry<'a>>>, Memory>
    ensures { IfOk result (λ found. found ≡ flow_entry (flow depth) (first.entry ∷ rest.entry)) }
{
    match first {
        Token::Scalar(key) => with_key(alloc, &key, behind_key(alloc, depth, rest)?),
        _ => Ok(None),
    }
}

// The value behind a key, whose colon may be missing with it.
#[cycle(flow)]
fn behind_key<'a>(
    alloc: Global,
    depth: u8,
    tokens: Tokens<'a>,
) -> Result<Option<Found<'a, Node<'a>>>, Memory>
    ensures { IfOk result (λ found. found ≡ behind_key (flow depth) tokens.entry) }
{
    match tokens.split() {
        Some((Token::Colon, rest)) => flow_value(alloc, depth, rest),
        Some((Token::Comma | Token::CloseMap, _)) => Ok(Some(Found::new(blank(), tokens))),
        Some(_) => Ok(None),
        None => Ok(None),
    }
}

// The value behind a colon, or the empty scalar where the entry ends there.
#[cycle(flow)]
#[tactic(auto, using(crate::proofs::Turns::flow_empty))]
fn flow_value<'a>(
    alloc: Global,
    depth: u8,
    tokens: Tokens<'a>,
) -> Result<Option<Found<'a, Node<'a>>>, Memory>
    ensures { IfOk result (λ found. found ≡ flow_value (flow depth) tokens.entry) }
{
    match tokens.split() {
        Some((first, rest)) => if ends_entry(&first, &rest) {
            Ok(Some(Found::new(blank(), tokens)))
        } else {
            flow_first(alloc, depth, first, rest)
        },
        None => Ok(None),
    }
}

/// A value with the text of its key, where there is one.
pub fn with_key<'a>(
    alloc: Global,
    key: &Written<'a>,
    found: Option<Found<'a, Node<'a>>>,
) -> Result<Option<Found<'a, Entry<'a>>>, Memory>
    ensures { IfOk result (λ it. it ≡ made (entry key.now) found.entry) }
{
    match found {
        Some(found) => {
            let (value, rest) = found.into_parts();
            let key = Scalar::of(alloc, key)?;
            Ok(Some(Found::new(Entry { key, value }, rest)))
        }
        None => Ok(None),
    }
}

/// The empty scalar.
pub fn blank<'a>() -> Node<'a>
    ensures { result ≡ blank }
{
    Node::Scalar(Scalar::empty())
}

// Whether a comma or the end of the map stands first.
fn ends_entry(first: &Token, rest: &Tokens) -> bool
    ensures { result ≡ ends_entry (first.now ∷ rest.now) }
{
    let _ = rest;
    match first {
        Token::Comma | Token::CloseMap => true,
        _ => false,
    }
}

/// The tokens behind the first.
pub fn tail<'a>(tokens: Tokens<'a>) -> Tokens<'a>
    ensures { result ≡ tail tokens.entry }
{
    match tokens.split() {
        None => tokens,
        Some((_, rest)) => rest,
    }
}

/// The brackets of a map or a sequence in flow.
#[derive(Clone, Copy)]
pub enum Brackets {
    /// `{` and `}`, of a map.
    Curly,
    /// `[` and `]`, of a sequence.
    Square,
}

impl Brackets {
    // Whether a token is the closing bracket.
    fn is_closed_by(self, token: &Token) -> bool
        ensures { result ≡ closes self token.now }
    {
        match (self, token) {
            (Brackets::Curly, Token::CloseMap) => true,
            (Brackets::Square, Token::CloseSeq) => true,
            _ => false,
        }
    }

    // What follows an item and its comma, or the closing bracket and what follows it.
    fn next_item<'a>(self, tokens: Tokens<'a>) -> Option<Tokens<'a>>
        ensures { result ≡ next_item (closes self) tokens.entry }
    {
        match tokens.split() {
            Some((Token::Comma, rest)) => Some(rest),
            Some((token, _)) => if self.is_closed_by(&token) {
                Some(tokens)
            } else {
                None
            },
            None => None,
        }
    }
}
