//! Texts to documents.

ghost use Rattle.std.specs.Prelude.{◌≡◌, Err, IfSome};
ghost use Rattle.ifs_bytes.specs.Outcome.{UnlessMemory};
ghost use Rattle.yaml_tokens.specs.Faults.{fault_of};
ghost use Rattle.yaml_nodes.specs.declared.cause.YamlCause.TheVariants.{At, Memory as NoMemory};
ghost use Rattle.yaml_profile.specs.Yaml.{read_of};

use ifs_bytes::List;
use std::alloc::Global;
use yaml_nodes::{Document, YamlCause, documents};
use yaml_tokens::{Tokens, find_fault};

/// The documents of a text in the profile, in order. What is wrong is answered with its offset in bytes: of the
/// faults of tokens the one with the least offset, at one offset the first in the order of `YamlKind`; where there
/// is none, `Shape` at the first document or line outside documents that isn't read. A fault of tokens takes no
/// memory.
///
/// Public source: YAML 1.2; docs/format/yaml.md has the profile.
pub fn read<'a>(alloc: Global, text: &'a [u8]) -> Result<List<Document<'a>>, YamlCause>
    ensures value { UnlessMemory NoMemory result (read_of text.now) }
    ensures fault { IfSome (fault_of text.now) (λ fault. result ≡ Err (At fault.at fault.kind)) }
{
    match find_fault(text) {
        Some(fault) => Err(YamlCause::At(fault.at, fault.kind)),
        None => documents(alloc, Tokens::new(text)),
    }
}
