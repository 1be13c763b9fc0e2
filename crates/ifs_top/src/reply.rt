//! What a command answers.

ghost use Rattle.std.specs.Prelude.{◌≡◌, [], ◌∷◌, ◌++◌, codes, IfOk, OnOk};
ghost use Rattle.ifs_top.specs.Reply.{fault, fault_line, is_printed};

use ifs_bytes::{List, Memory, Text};
use std::alloc::Global;

/// Bytes that a command writes to a path; the path of standard output is `-`.
#[derive(Debug, Drop)]
pub struct Output {
    pub path: Text,
    pub bytes: Text,
    /// Whether a file that holds these bytes already stays untouched.
    pub if_changed: bool,
}

/// What a command answers: its outputs in the order in which they are written, a line on standard error, or
/// nothing there, and the status.
#[derive(Debug, Drop)]
pub struct Reply {
    pub outputs: List<Output>,
    pub line: Text,
    pub status: u8,
}

impl Output {
    /// Whether it is written on standard output.
    pub fn is_printed(&self) -> bool
        ensures { result ≡ is_printed self.now }
    {
        self.path.as_bytes() == b"-".as_slice()
    }
}

/// The line of a refusal or a fault.
pub fn fault_line(alloc: Global, subject: &[u8], text: &[u8]) -> Result<Text, Memory>
    ensures { IfOk result (λ line. line ≡ fault_line subject.now text.now) }
{
    let mut line = Text::new(alloc);
    line.append(b"error: ")?;
    line.append(subject)?;
    line.append(b": ")?;
    line.append(text)?;
    line.push(b'\n')?;
    Ok(line)
}

/// A refusal or a fault, before anything was written.
pub fn fault(alloc: Global, subject: &[u8], text: &[u8], status: u8) -> Result<Reply, Memory>
    ensures { IfOk result (λ reply. reply ≡ fault subject.now text.now status) }
{
    Ok(Reply {
        outputs: List::from_vec(Vec::new(alloc)),
        line: fault_line(alloc, subject, text)?,
        status,
    })
}
