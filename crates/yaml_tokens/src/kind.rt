//! What can be wrong with a text.

ghost use Rattle.std.specs.Prelude.{◌≡◌};
ghost use Rattle.yaml_tokens.specs.Least.{rank, goes_before, first_of};

/// The kinds of faults. At one offset the first in this order stands.
#[derive(Clone, Copy, Debug, PartialEq, Eq)]
pub enum YamlKind {
    /// A tab among the indentation of a line outside flow that has more than blanks and a comment.
    Tab,
    /// A byte below 0x20 other than tab, LF and CR, or a CR without LF.
    BadByte,
    /// A quote that isn't closed on its line, or a bracket that isn't closed in its document.
    Unclosed,
    /// A backslash in double quotes that begins no escape.
    BadEscape,
    /// A form that the profile leaves out: anchors, aliases, tags of nodes, block scalars, directives,
    /// complex keys and the reserved indicators.
    Unsupported,
    /// A document that isn't one node of the profile, or a line outside documents.
    Shape,
}

/// A fault, and the offset where it stands.
#[derive(Clone, Copy, Debug, PartialEq, Eq)]
pub struct Fault {
    /// The offset in the text.
    pub at: u64,
    /// What is wrong there.
    pub kind: YamlKind,
}

impl YamlKind {
    // The place of a kind among those at one offset.
    fn rank(self) -> u8
        ensures { result ≡ rank self }
    {
        match self {
            YamlKind::Tab => 0,
            YamlKind::BadByte => 1,
            YamlKind::Unclosed => 2,
            YamlKind::BadEscape => 3,
            YamlKind::Unsupported => 4,
            YamlKind::Shape => 5,
        }
    }
}

impl Fault {
    // Whether this fault stands, and not the other.
    fn goes_before(&self, other: &Fault) -> bool
        ensures { result ≡ goes_before self.now other.now }
    {
        self.at < other.at || self.at == other.at && self.kind.rank() <= other.kind.rank()
    }
}

/// Of two faults, where they are there, the one that stands.
#[tactic(auto, unfolding(crate::specs::Least::first_of))]
pub fn first_of(one: Option<Fault>, other: Option<Fault>) -> Option<Fault>
    ensures { result ≡ first_of one other }
{
    match (one, other) {
        (None, other) => other,
        (Some(one), None) => Some(one),
        (Some(one), Some(other)) => Some(if one.goes_before(&other) { one } else { other }),
    }
}
