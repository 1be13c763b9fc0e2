//! Why a text can't be read.

ghost use Rattle.std.specs.Prelude.{◌≡◌, ◌++◌, codes, decimal, IfOk, OnOk};
ghost use Rattle.yaml_nodes.specs.Printed.{kind_name, printed_yaml_cause};

use ifs_bytes::{Memory, Text};
use std::alloc::{AllocError, AllocFailed, Global};
use yaml_tokens::YamlKind;

/// Why a text can't be read.
#[derive(Clone, Copy, Debug, PartialEq, Eq)]
pub enum YamlCause {
    /// What is wrong, and its offset in the text.
    At(u64, YamlKind),
    /// Memory ran out.
    Memory,
}

impl From<Memory> for YamlCause {
    ghost use Rattle.std.specs.Prelude.{◌≡◌};
    ghost use Rattle.yaml_nodes.specs.declared.cause.YamlCause.TheVariants as causes;

    ghost from_gives = { λ _ cause. cause ≡ causes.Memory };

    fn from(_error: Memory) -> YamlCause {
        YamlCause::Memory
    }
}

impl<T: Drop> From<AllocFailed<T>> for YamlCause {
    ghost use Rattle.std.specs.Prelude.{◌≡◌};
    ghost use Rattle.yaml_nodes.specs.declared.cause.YamlCause.TheVariants as causes;

    ghost from_gives = { λ _ cause. cause ≡ causes.Memory };

    fn from(_error: AllocFailed<T>) -> YamlCause {
        YamlCause::Memory
    }
}

// The name of a kind.
fn kind_name(kind: YamlKind) -> &'static [u8]
    ensures { result.now ≡ kind_name kind }
{
    match kind {
        YamlKind::Tab => b"Tab",
        YamlKind::BadByte => b"BadByte",
        YamlKind::Unclosed => b"Unclosed",
        YamlKind::BadEscape => b"BadEscape",
        YamlKind::Unsupported => b"Unsupported",
        YamlKind::Shape => b"Shape",
    }
}

// Appends what is wrong at an offset.
fn append_fault(text: &mut Text, at: u64, kind: YamlKind) -> Result<(), Memory>
    ensures { OnOk result (text.new ≡ text.old ++ (codes "At(" ++ decimal at ++ codes ", " ++ kind_name kind ++ codes ")")) }
{
    text.append(b"At(")?;
    text.append_number(at)?;
    text.append(b", ")?;
    text.append(kind_name(kind))?;
    text.append(b")")
}

impl YamlCause {
    /// The cause as text: its name, and its fields in parentheses, as `At(12, Unclosed)`.
    pub fn printed(&self, alloc: Global) -> Result<Text, Memory>
        ensures { IfOk result (λ text. text ≡ printed_yaml_cause self.now) }
    {
        let mut text = Text::new(alloc);
        match *self {
            YamlCause::At(at, kind) => append_fault(&mut text, at, kind)?,
            YamlCause::Memory => text.append(b"Memory")?,
        }
        Ok(text)
    }
}
