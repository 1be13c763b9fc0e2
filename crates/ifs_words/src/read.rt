//! How words are read, one by one.

ghost use Rattle.std.specs.Prelude.{◌≡◌, IfOk, Ok, map, string_bytes};
ghost use Rattle.std.specs.Option.{option_copied};
ghost use Rattle.ifs_bytes.specs.Outcome.{UnlessMemory};
ghost use Rattle.ifs_words.specs.Reading.{awaiting, ended, equals_at, given, known, name_in, nothing, read_from, valued, value_in, with_any, with_given, with_option, with_path, with_word};

use crate::cause::WordCause;
use crate::given::{Given, Next, has};
use crate::settings::{Form, Setting, setting_named};
use crate::values::is_good;
use ifs_bytes::{List, Memory, Text};
use std::alloc::Global;

// What was read so far, and what the next word is.
#[derive(Drop)]
pub(crate) struct Read {
    pub(crate) given: List<Given>,
    pub(crate) paths: List<Text>,
    pub(crate) next: Next,
}

// The place of the first `=`.
fn equals_at(word: &[u8]) -> Option<usize>
    ensures { result ≡ equals_at word.now }
{
    word.iter().position(|b| *b == b'=')
}

// The name of an option, before the first `=` if there is one.
fn name_in(word: &[u8]) -> &[u8]
    ensures { result.now ≡ name_in word.now }
{
    match equals_at(word) {
        Some(end) => &word[..end],
        None => word,
    }
}

// The value of an option in its own word, behind the first `=`.
fn value_in(word: &[u8]) -> Option<&[u8]>
    ensures { option_copied result ≡ value_in word.now }
{
    match equals_at(word) {
        Some(end) => {
            let (_, value) = word.split_at(end + 1);
            Some(value)
        }
        None => None,
    }
}

impl Read {
    // Nothing yet.
    pub(crate) fn new(alloc: Global) -> Read
        ensures { result ≡ nothing }
    {
        Read {
            given: List::from_vec(Vec::new(alloc)),
            paths: List::from_vec(Vec::new(alloc)),
            next: Next::Anything,
        }
    }

    // With the word as a path.
    fn with_path(self, alloc: Global, word: &[u8]) -> Result<Read, Memory>
        ensures { IfOk result (λ read. read ≡ with_path word.now self) }
    {
        let mut paths = self.paths.into_vec();
        paths.push(Text::from_slice(alloc, word)?)?;
        Ok(Read {
            given: self.given,
            paths: List::from_vec(paths),
            next: self.next,
        })
    }

    // With another kind of word to come.
    fn awaiting(self, next: Next) -> Read
        ensures { result ≡ awaiting next self }
    {
        Read {
            given: self.given,
            paths: self.paths,
            next,
        }
    }

    // With an option and its value, or a flag.
    fn with_given(self, alloc: Global, setting: Setting, value: &[u8]) -> Result<Read, Memory>
        ensures { IfOk result (λ read. read ≡ with_given setting value.now self) }
    {
        let value = Text::from_slice(alloc, value)?;
        let mut given = self.given.into_vec();
        given.push(Given { setting, value })?;
        Ok(Read {
            given: List::from_vec(given),
            paths: self.paths,
            next: Next::Anything,
        })
    }

    // The same, unless it is there already and may not repeat.
    #[tactic(auto, unfolding(crate::specs::Reading::given))]
    fn given(self, alloc: Global, setting: Setting, value: &[u8]) -> Result<Read, WordCause>
        ensures { UnlessMemory WordCause.Memory result (given setting value.now self) }
    {
        if !setting.row().repeats && has(setting, self.given.as_slice()) {
            let name = Text::from_slice(alloc, setting.name())?;
            return Err(WordCause::Repeated(name));
        }
        Ok(self.with_given(alloc, setting, value)?)
    }

    // The same, where the value is a good one.
    #[tactic(auto, unfolding(crate::specs::Reading::valued))]
    fn valued(self, alloc: Global, setting: Setting, value: &[u8]) -> Result<Read, WordCause>
        ensures { UnlessMemory WordCause.Memory result (valued setting value.now self) }
    {
        if !is_good(alloc, setting.row().takes, value)? {
            let name = Text::from_slice(alloc, setting.name())?;
            return Err(WordCause::BadValue(name));
        }
        self.given(alloc, setting, value)
    }

    // With an option or a flag, and the value behind its `=`, if there is one.
    fn known(
        self,
        alloc: Global,
        setting: Setting,
        takes: Option<Form>,
        value: Option<&[u8]>,
    ) -> Result<Read, WordCause>
        ensures { UnlessMemory WordCause.Memory result (known setting takes (option_copied value.entry) self) }
    {
        match (takes, value) {
            (None, None) => self.given(alloc, setting, b""),
            (None, Some(_)) => {
                let name = Text::from_slice(alloc, setting.name())?;
                Err(WordCause::UnwantedValue(name))
            }
            (Some(_), Some(value)) => self.valued(alloc, setting, value),
            (Some(_), None) => Ok(self.awaiting(Next::Value(setting))),
        }
    }

    // With a word that is an option or a flag of the table.
    fn with_option(self, alloc: Global, table: &[Setting], word: &[u8]) -> Result<Read, WordCause>
        ensures { UnlessMemory WordCause.Memory result (with_option table.now word.now self) }
    {
        match setting_named(table, name_in(word)) {
            Some(setting) => self.known(alloc, setting, setting.row().takes, value_in(word)),
            None => {
                let word = Text::from_slice(alloc, word)?;
                Err(WordCause::UnknownOption(word))
            }
        }
    }

    // With a word that may be anything.
    #[tactic(auto, unfolding(crate::specs::Reading::with_any))]
    fn with_any(self, alloc: Global, table: &[Setting], word: &[u8]) -> Result<Read, WordCause>
        ensures { UnlessMemory WordCause.Memory result (with_any table.now word.now self) }
    {
        if word == b"--".as_slice() {
            return Ok(self.awaiting(Next::Path));
        }
        if word.starts_with(b"-") {
            return self.with_option(alloc, table, word);
        }
        Ok(self.with_path(alloc, word)?)
    }

    // With the next word.
    fn with_word(self, alloc: Global, table: &[Setting], word: &[u8]) -> Result<Read, WordCause>
        ensures { UnlessMemory WordCause.Memory result (with_word table.now self.next word.now self) }
    {
        match self.next {
            Next::Anything => self.with_any(alloc, table, word),
            Next::Value(setting) => self.valued(alloc, setting, word),
            Next::Path => Ok(self.with_path(alloc, word)?),
        }
    }

    // All of it, unless an option has no value.
    fn ended(self, alloc: Global) -> Result<Read, WordCause>
        ensures { UnlessMemory WordCause.Memory result (ended self.next self) }
    {
        match self.next {
            Next::Anything => Ok(self),
            Next::Value(setting) => {
                let name = Text::from_slice(alloc, setting.name())?;
                Err(WordCause::MissingValue(name))
            }
            Next::Path => Ok(self),
        }
    }
}

// The options, flags and paths that the words are, by a table of options and flags; or the first cause.
pub(crate) fn read_words(
    alloc: Global,
    table: &[Setting],
    words: &[String],
) -> Result<Read, WordCause>
    ensures { UnlessMemory WordCause.Memory result (read_from table.now (map string_bytes words.now) nothing) }
{
    let mut read = Read::new(alloc);
    let mut rest = words;
    while let [word, more @ ..] = rest {
        read = read.with_word(alloc, table, word.as_bytes())?;
        rest = more;
    }
    read.ended(alloc)
}
