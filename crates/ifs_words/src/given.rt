//! Options and flags that were given.

ghost use Rattle.std.specs.Prelude.{◌≡◌};
ghost use Rattle.std.specs.Option.{option_copied};
ghost use Rattle.ifs_words.specs.Reading.{has, is_of, value_of};

use crate::settings::Setting;
use ifs_bytes::Text;

// An option with its value, or a flag with none.
#[derive(Debug, Drop)]
pub(crate) struct Given {
    pub(crate) setting: Setting,
    pub(crate) value: Text,
}

// What the next word is.
#[derive(Clone, Copy, Debug)]
pub(crate) enum Next {
    // An option, a flag, a path, or the end of the options.
    Anything,
    // The value of this option.
    Value(Setting),
    // A path.
    Path,
}

// Whether it is this option or flag.
pub(crate) fn is_of(setting: Setting, given: &Given) -> bool
    ensures { result ≡ is_of setting given.now }
{
    given.setting.name() == setting.name()
}

// Whether the option or flag was given.
pub(crate) fn has(setting: Setting, given: &[Given]) -> bool
    ensures { result ≡ has setting given.now }
{
    given.iter().any(|one| is_of(setting, one))
}

// The value that the option was given first.
pub(crate) fn value_of(setting: Setting, given: &[Given]) -> Option<&[u8]>
    ensures { option_copied result ≡ value_of setting given.now }
{
    let mut rest = given;
    while let [one, more @ ..] = rest {
        if is_of(setting, one) {
            return Some(one.value.as_bytes());
        }
        rest = more;
    }
    None
}
