//! What is read at the front of tokens.

use std::marker::Model;
use yaml_tokens::Tokens;

/// What is read at the front of tokens, and the tokens that follow it.
#[derive(Drop)]
pub struct Found<'a, T> {
    value: T,
    rest: Tokens<'a>,
}

impl<'a, T> Model for Found<'a, T> {
    ghost use Rattle.yaml_nodes.specs.Front.{Front, front};

    ghost Value = { Front T };

    ghost view = { λ f. front f.value f.rest };
}

impl<'a, T> Found<'a, T> {
    ghost use Rattle.std.specs.Prelude.{◌≡◌};
    ghost use Rattle.yaml_nodes.specs.Front.{front};

    /// A value at the front, and what follows it.
    pub fn new(value: T, rest: Tokens<'a>) -> Found<'a, T>
        ensures { result ≡ front value rest.entry }
    {
        Found { value, rest }
    }

    /// The value, and what follows it.
    pub fn into_parts(self) -> (T, Tokens<'a>)
        ensures value { result.0 ≡ self.entry.value }
        ensures rest { result.1 ≡ self.entry.rest }
    {
        let Found { value, rest } = self;
        (value, rest)
    }
}
