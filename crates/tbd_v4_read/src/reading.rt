//! A text to its libraries.

ghost use Rattle.std.specs.Prelude.{◌≡◌, None, [], map, is_some, unwrap_or, IfOk};
ghost use Rattle.std.specs.List.{list_all};
ghost use Rattle.std.specs.Option.{option_copied};
ghost use Rattle.ifs_bytes.specs.Outcome.{UnlessMemory};
ghost use Rattle.yaml_maps.specs.Maps.{first_of};
ghost use Rattle.tbd_core.specs.declared.cause.TbdCause.TheVariants as TbdCause;
ghost use Rattle.tbd_v4_read.specs.Text.{map_of, are_stubs, map_in, document_fault, document_parts, tbd_of, tbd_in, read_tbd};

use crate::faults::library_fault;
use crate::keys::or_none;
use crate::library::library;
use ifs_bytes::{List, Memory};
use std::alloc::Global;
use tbd_core::{Dylib, Fault, Tbd, TbdCause};
use yaml_maps::is;
use yaml_profile::{Document, Entry};

// The map of a document with the tag.
#[tactic(auto, unfolding(crate::specs::Text::map_of))]
fn map_of<'a, 't>(document: &'a Document<'t>) -> Option<&'a [Entry<'t>]>
    ensures { option_copied result ≡ map_of document.now }
{
    match &document.tag {
        Some(tag) if is(tag.as_bytes(), b"!tapi-tbd") => document.root.as_map(),
        _ => None,
    }
}

// The map of a document; none where it isn't one with the tag.
fn map_in<'a, 't>(document: &'a Document<'t>) -> &'a [Entry<'t>]
    ensures { result.now ≡ map_in document.now }
{
    or_none(map_of(document))
}

// Whether each document has the tag and a map.
fn all_stubs(documents: &[Document]) -> bool
    ensures { result ≡ list_all (λ d. is_some (map_of d)) documents.now }
{
    for document in documents {
        if map_of(document).is_none() {
            return false;
        }
    }
    true
}

// Whether there is a document, and each has the tag and a map.
#[tactic(auto, unfolding(crate::specs::Text::are_stubs))]
fn are_stubs(documents: &[Document]) -> bool
    ensures { result ≡ are_stubs documents.now }
{
    !documents.is_empty() && all_stubs(documents)
}

#[tactic(auto, unfolding(crate::specs::Text::document_fault))]
fn document_fault<'a>(document: &'a Document<'_>) -> Option<Fault<'a>>
    ensures { result ≡ document_fault document.now }
{
    library_fault(map_in(document))
}

// The first thing that is wrong with documents.
fn documents_fault<'a>(documents: &'a [Document<'_>]) -> Option<Fault<'a>>
    ensures { result ≡ first_of document_fault documents.now }
{
    for document in documents {
        if let Some(fault) = document_fault(document) {
            return Some(fault);
        }
    }
    None
}

// The library of a document with which nothing is wrong.
#[tactic(auto, unfolding(crate::specs::Text::document_parts, crate::specs::Text::document_fault))]
fn document_library(alloc: Global, document: &Document) -> Result<Dylib, Memory>
    requires { document_fault document.now ≡ None }
    ensures { IfOk result (λ dylib. dylib ≡ document_parts document.now) }
{
    library(alloc, map_in(document))
}

// The library of each document.
#[tactic(auto, using(crate::proofs::Documents::each_right))]
fn libraries(alloc: Global, documents: &[Document]) -> Result<List<Dylib>, Memory>
    requires { first_of document_fault documents.now ≡ None }
    ensures { IfOk result (λ dylibs. dylibs ≡ map document_parts documents.now) }
{
    let mut dylibs = Vec::with_capacity(alloc, documents.len())?;
    for document in documents {
        dylibs.push(document_library(alloc, document)?)?;
    }
    Ok(List::from_vec(dylibs))
}

// The libraries of documents with which nothing is wrong.
#[tactic(auto, unfolding(crate::specs::Text::tbd_of), using(crate::proofs::Documents::first_right, crate::proofs::Documents::others_right))]
fn tbd_of(alloc: Global, documents: &[Document]) -> Result<Tbd, TbdCause>
    requires { first_of document_fault documents.now ≡ None }
    ensures { UnlessMemory TbdCause.Memory result (tbd_of documents.now) }
{
    match documents {
        [document, others @ ..] => Ok(Tbd {
            main: document_library(alloc, document)?,
            inlined: libraries(alloc, others)?,
        }),
        [] => Err(TbdCause::NotTbd),
    }
}

// The libraries of documents, or the first cause.
#[tactic(auto, unfolding(crate::specs::Text::tbd_in))]
fn tbd_in(alloc: Global, documents: &[Document]) -> Result<Tbd, TbdCause>
    ensures { UnlessMemory TbdCause.Memory result (tbd_in documents.now) }
{
    if !are_stubs(documents) {
        return Err(TbdCause::NotTbd);
    }
    match documents_fault(documents) {
        Some(fault) => Err(fault.cause(alloc)?),
        None => tbd_of(alloc, documents),
    }
}

/// The libraries that a text is, that of the first document and those of the others, or the first cause why
/// it is none: Yaml, what is wrong with it as YAML; NotTbd, there is no document, or one of them lacks the
/// tag `!tapi-tbd` or isn't a map; then document by document UnknownKey, RepeatedKey, then MissingKey;
/// BadVersion; what is wrong with the values in text order, of a group UnknownKey, RepeatedKey, then
/// MissingKey, then its values, else BadValue of the key; UnknownTarget, the first target of a group that the
/// library hasn't.
///
/// Public source: TBD v4 of LLVM's TextAPI; docs/format/tbd.md has the rules.
#[tactic(auto, unfolding(crate::specs::Text::read_tbd))]
pub fn read(alloc: Global, text: &[u8]) -> Result<Tbd, TbdCause>
    ensures { UnlessMemory TbdCause.Memory result (read_tbd text.now) }
{
    let documents = yaml_profile::read(alloc, text)?;
    tbd_in(alloc, documents.as_slice())
}
