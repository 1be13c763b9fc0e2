//! Patterns of names.

ghost use Rattle.std.specs.Prelude.{◌≡◌, ◌≤◌, length};
ghost use Rattle.ifs_bytes.specs.Outcome.{UnlessMemory};
ghost use Rattle.std.specs.Option.{option_copied};
ghost use Rattle.ifs_edit.specs.Glob.{matches, some_rest};
ghost use Rattle.ifs_edit.specs.Runs.{run_len, fits, fits_end, behind_run, left_passes};
ghost use Rattle.ifs_edit.specs.Parsed.{glob_of};
ghost use Rattle.ifs_edit.specs.Read.{IsRead};

use crate::cause::GlobCause;
use crate::element::Element;
use crate::front::element_at;
use crate::set::behind;
use ifs_bytes::List;
use std::alloc::Global;
use std::marker::Model;

/// A pattern of names, which a contract sees as the list of its elements.
#[derive(Debug, PartialEq, Eq, Drop)]
pub struct Glob {
    elements: List<Element>,
}

impl Model for Glob {
    ghost use Rattle.std.specs.Prelude.{List as Items};
    ghost use Rattle.ifs_edit.specs.declared.element.Element.{Element};

    ghost Value = { Items Element };

    ghost view = { λ glob. glob.elements };

    ghost inverse = { λ elements. record { elements = elements } };
}

impl Glob {
    /// The pattern that these bytes write, which matches just the names that the bytes match by the definition
    /// (`Matches`); BadGlob exactly where an element is broken, with the offset of the first: a `[` whose set is
    /// empty, isn't closed or has a range that falls, or a `\` at the end.
    pub fn parse(alloc: Global, pattern: &[u8]) -> Result<Glob, GlobCause>
        ensures value { UnlessMemory GlobCause.Memory result (glob_of pattern.now) }
        ensures read { IsRead pattern.now result }
    {
        Glob::from_elements(alloc, pattern)
    }

    // The elements of a pattern one by one.
    fn from_elements(alloc: Global, pattern: &[u8]) -> Result<Glob, GlobCause>
        ensures { UnlessMemory GlobCause.Memory result (glob_of pattern.now) }
    {
        let mut elements = Vec::new(alloc);
        let mut rest = pattern;
        while let [byte, after @ ..] = rest {
            match element_at(alloc, *byte, after)? {
                Some(front) => {
                    elements.push(front.0)?;
                    rest = behind(after, front.1);
                }
                None => return Err(GlobCause::BadGlob((pattern.len() - rest.len()) as u64)),
            }
        }
        Ok(Glob {
            elements: List::from_vec(elements),
        })
    }

    /// Whether the whole name matches: `*` takes any bytes, each other element one. Takes no memory, and at most
    /// as many steps as the product of both lengths.
    pub fn matches(&self, name: &[u8]) -> bool
        ensures { result ≡ matches self.now name.now }
    {
        matches_all(self.elements.as_slice(), name)
    }
}

// Whether the elements match the whole name.
fn matches_all(elements: &[Element], name: &[u8]) -> bool
    ensures { result ≡ matches elements.now name.now }
{
    let len = run_len(elements);
    let (run, rest) = elements.split_at(len);
    fits(run, name) && left_passes(rest, behind(name, len))
}

// How many elements stand before the first `*`, or all where there is none.
fn run_len(elements: &[Element]) -> usize
    ensures value { result ≡ run_len elements.now }
    ensures within { result ≤ length elements.now }
{
    let mut len = 0;
    let mut rest = elements;
    while let [element, more @ ..] = rest {
        if element.is_any() {
            break;
        }
        len += 1;
        rest = more;
    }
    len
}

// Whether the elements, none of them `*`, stand for the bytes at the front of the name.
fn fits(run: &[Element], name: &[u8]) -> bool
    ensures { result ≡ fits run.now name.now }
{
    let mut elements = run;
    let mut bytes = name;
    while let [element, more @ ..] = elements {
        match bytes {
            [byte, rest @ ..] if element.stands_for(*byte) => {
                elements = more;
                bytes = rest;
            }
            _ => return false,
        }
    }
    true
}

// What stands behind the first bytes that the run fits.
fn behind_run<'a>(run: &[Element], name: &'a [u8]) -> Option<&'a [u8]>
    ensures { option_copied result ≡ behind_run run.now name.now }
{
    let mut rest = name;
    while !fits(run, rest) {
        match rest {
            [] => return None,
            [_, after @ ..] => rest = after,
        }
    }
    Some(behind(rest, run.len()))
}

// Whether the elements match an end of the name, all of it or less.
//
// Between two `*` the bytes are taken at the first place that fits: whatever is behind a later place is behind this
// one too, where the next `*` takes what lies between. So no place is looked at twice for one run, and each run
// goes on where the one before it ended.
fn ends_match(elements: &[Element], name: &[u8]) -> bool
    ensures { result ≡ some_rest (matches elements.now) name.now }
{
    let mut elements = elements;
    let mut name = name;
    loop {
        let (run, rest) = elements.split_at(run_len(elements));
        match rest {
            [] => return fits_end(run, name),
            [_star, more @ ..] => match behind_run(run, name) {
                Some(left) => {
                    elements = more;
                    name = left;
                }
                None => return false,
            },
        }
    }
}

// Whether the elements, none of them `*`, stand for the last bytes of the name.
fn fits_end(run: &[Element], name: &[u8]) -> bool
    ensures { result ≡ fits_end run.now name.now }
{
    run.len() <= name.len() && fits(run, behind(name, name.len() - run.len()))
}

// Whether the elements from a `*` on, or none, match what is left of a name.
fn left_passes(elements: &[Element], left: &[u8]) -> bool
    ensures { result ≡ left_passes elements.now left.now }
{
    match elements {
        [] => left.is_empty(),
        [_star, more @ ..] => ends_match(more, left),
    }
}
