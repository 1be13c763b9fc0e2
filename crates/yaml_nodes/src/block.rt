//! Nodes on lines of their own (YAML 1.2, chapter 8).

ghost use Rattle.std.specs.Prelude.{◌≡◌, ◌++◌, ◌∷◌, [], length, true, false, IfOk, OnOk};
ghost use Rattle.yaml_nodes.specs.Lists.{lined};
ghost use Rattle.yaml_nodes.specs.Flow.{flow};
ghost use Rattle.yaml_nodes.specs.Block.{begins_entry, begins_item, map_goes_on, seq_goes_on, stands_below, block_value, block_entry, block_item, block_map, block_seq, block_with, block};

use crate::flow::{blank, flow_first, tail, with_key};
use crate::found::Found;
use crate::node::{Entry, Node, push_item};
use ifs_bytes::Memory;
use sqlite_items::Items;
use std::alloc::Global;
use yaml_tokens::{Token, Tokens};

/// The map or sequence whose first line begins at `column` with the front of tokens, with at most `depth` maps and
/// sequences in one another; None exactly where there is none. The only error is want of memory.
#[cycle(block)]
#[tactic(auto, using(crate::proofs::Turns::block_deeper))]
pub fn block_node<'a>(
    alloc: Global,
    depth: u8,
    column: u64,
    tokens: Tokens<'a>,
) -> Result<Option<Found<'a, Node<'a>>>, Memory>
    ensures { IfOk result (λ found. found ≡ block depth column tokens.entry) }
{
    if depth == 0 {
        Ok(None)
    } else {
        block_with(alloc, depth - 1, column, tokens)
    }
}

// The same where what stands in it has at most `depth` maps and sequences in one another.
#[cycle(block)]
fn block_with<'a>(
    alloc: Global,
    depth: u8,
    column: u64,
    tokens: Tokens<'a>,
) -> Result<Option<Found<'a, Node<'a>>>, Memory>
    ensures { IfOk result (λ found. found ≡ block_with (flow depth) (block depth) column tokens.entry) }
{
    if begins_item(&tokens) {
        block_seq(alloc, depth, column, tokens)
    } else {
        block_map(alloc, depth, column, tokens)
    }
}

// The sequence whose first item stands at the front.
#[cycle(block)]
fn block_seq<'a>(
    alloc: Global,
    depth: u8,
    column: u64,
    tokens: Tokens<'a>,
) -> Result<Option<Found<'a, Node<'a>>>, Memory>
    ensures { IfOk result (λ found. found ≡ block_seq (flow depth) (block depth) column tokens.entry) }
{
    let mut items = Vec::new(alloc);
    let mut rest = tokens;
    loop {
        let Some(found) = block_item(alloc, depth, column, rest)? else {
            return Ok(None);
        };
        let (item, after) = found.into_parts();
        push_item(&mut items, item)?;
        if !seq_goes_on(column, &after) {
            return Ok(Some(Found::new(Node::Seq(Items::from_vec(items)), after)));
        }
        rest = tail(after);
    }
}

// The map whose first entry stands at the front.
#[cycle(block)]
fn block_map<'a>(
    alloc: Global,
    depth: u8,
    column: u64,
    tokens: Tokens<'a>,
) -> Result<Option<Found<'a, Node<'a>>>, Memory>
    ensures { IfOk result (λ found. found ≡ block_map (flow depth) (block depth) column tokens.entry) }
{
    let mut entries = Vec::new(alloc);
    let mut rest = tokens;
    loop {
        let Some(found) = block_entry(alloc, depth, column, rest)? else {
            return Ok(None);
        };
        let (entry, after) = found.into_parts();
        push_item(&mut entries, entry)?;
        if !map_goes_on(column, &after) {
            return Ok(Some(Found::new(Node::Map(Items::from_vec(entries)), after)));
        }
        rest = tail(after);
    }
}

// The entry at the front, of a map at a column.
#[cycle(block)]
fn block_entry<'a>(
    alloc: Global,
    depth: u8,
    column: u64,
    tokens: Tokens<'a>,
) -> Result<Option<Found<'a, Entry<'a>>>, Memory>
    ensures { IfOk result (λ found. found ≡ block_entry (block_value (flow depth) (block depth) true column) tokens.entry) }
{
    match tokens.split() {
        Some((token, after)) => match token {
            Token::Scalar(key) => match after.split() {
                Some((Token::Colon, rest)) => {
                    with_key(alloc, &key, block_value(alloc, depth, true, column, rest)?)
                }
                Some(_) => Ok(None),
                None => Ok(None),
            },
            _ => Ok(None),
        },
        None => Ok(None),
    }
}

// The item at the front, of a sequence at a column.
#[cycle(block)]
fn block_item<'a>(
    alloc: Global,
    depth: u8,
    column: u64,
    tokens: Tokens<'a>,
) -> Result<Option<Found<'a, Node<'a>>>, Memory>
    ensures { IfOk result (λ found. found ≡ block_item (block depth) (block_value (flow depth) (block depth) false column) tokens.entry) }
{
    match tokens.split() {
        Some((Token::Dash(at), rest)) => if begins_entry(&rest) {
            block_node(alloc, depth, at, rest)
        } else {
            block_value(alloc, depth, false, column, rest)
        },
        Some(_) => Ok(None),
        None => Ok(None),
    }
}

// The value of an entry or an item at a column: in flow, on the lines below, or the empty scalar. Where `level`, a
// sequence below may stand at the same column.
#[cycle(block)]
fn block_value<'a>(
    alloc: Global,
    depth: u8,
    level: bool,
    column: u64,
    tokens: Tokens<'a>,
) -> Result<Option<Found<'a, Node<'a>>>, Memory>
    ensures { IfOk result (λ found. found ≡ block_value (flow depth) (block depth) level column tokens.entry) }
{
    match tokens.split() {
        None => Ok(Some(Found::new(blank(), tokens))),
        Some((Token::Line(at), rest)) => if stands_below(level, column, at, &rest) {
            block_node(alloc, depth, at, rest)
        } else {
            Ok(Some(Found::new(blank(), tokens)))
        },
        Some((first, rest)) => flow_first(alloc, depth, first, rest),
    }
}

/// Whether an entry of a map stands first.
pub fn begins_entry(tokens: &Tokens) -> bool
    ensures { result ≡ begins_entry tokens.now }
{
    match tokens.split() {
        Some((Token::Scalar(_), after)) => match after.split() {
            Some((Token::Colon, _)) => true,
            Some(_) => false,
            None => false,
        },
        Some(_) => false,
        None => false,
    }
}

/// Whether an item of a sequence stands first.
pub fn begins_item(tokens: &Tokens) -> bool
    ensures { result ≡ begins_item tokens.now }
{
    match tokens.split() {
        Some((Token::Dash(_), _)) => true,
        Some(_) => false,
        None => false,
    }
}

// Whether a map at a column goes on there.
fn map_goes_on(column: u64, tokens: &Tokens) -> bool
    ensures { result ≡ map_goes_on column tokens.now }
{
    match tokens.split() {
        Some((Token::Line(at), _)) => at == column,
        Some(_) => false,
        None => false,
    }
}

// Whether a sequence at a column goes on there.
fn seq_goes_on(column: u64, tokens: &Tokens) -> bool
    ensures { result ≡ seq_goes_on column tokens.now }
{
    match tokens.split() {
        Some((Token::Line(at), rest)) => at == column && begins_item(&rest),
        Some(_) => false,
        None => false,
    }
}

// Whether a line at a place holds the value of what stands at a column.
fn stands_below(level: bool, column: u64, at: u64, rest: &Tokens) -> bool
    ensures { result ≡ stands_below level column at rest.now }
{
    column < at || level && at == column && begins_item(rest)
}
