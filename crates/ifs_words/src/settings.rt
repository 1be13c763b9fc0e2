//! The options and flags of the commands.

ghost use Rattle.std.specs.Prelude.{◌≡◌, true, false, Some, None};
ghost use Rattle.ifs_words.specs.Settings.{row_of, name_of, stub_settings, link_settings, tbd_settings, setting_named};

// An option or a flag.
#[derive(Clone, Copy, Debug)]
pub(crate) enum Setting {
    InputFormat,
    OutputIfs,
    OutputElf,
    Arch,
    BitWidth,
    Endianness,
    Target,
    Soname,
    Exclude,
    StripIfsArch,
    StripIfsBitWidth,
    StripIfsEndianness,
    StripIfsTarget,
    StripUndefined,
    StripNeeded,
    StripSize,
    WriteIfChanged,
    Output,
    Kind,
    Entry,
    Runpath,
    DynamicLinker,
    Lib,
    ExportDynamic,
    AllowShlibUndefined,
    AsNeeded,
    Now,
    To,
}

// What the value of an option is, which is never empty and has no NUL.
#[derive(Clone, Copy, Debug)]
pub(crate) enum Form {
    // Any bytes.
    Text,
    // `IFS` or `ELF`.
    Format,
    // The name of a machine.
    Machine,
    // `32` or `64`.
    Width,
    // `little` or `big`.
    Order,
    // A target triple.
    Triple,
    // A pattern of names.
    Pattern,
    // `exec`, `pie` or `shared`.
    Kind,
    // `4` or `5`.
    Version,
}

// A row of the table: the name, the form of the value, or None for a flag, and whether it may repeat.
#[derive(Clone, Copy, Debug)]
pub(crate) struct Row {
    pub(crate) name: &'static [u8],
    pub(crate) takes: Option<Form>,
    pub(crate) repeats: bool,
}

impl Row {
    fn flag(name: &'static [u8]) -> Row
        ensures name { result.name.now ≡ name.now }
        ensures takes { result.takes ≡ None }
        ensures repeats { result.repeats ≡ false }
    {
        Row {
            name,
            takes: None,
            repeats: false,
        }
    }

    fn valued(name: &'static [u8], form: Form) -> Row
        ensures name { result.name.now ≡ name.now }
        ensures takes { result.takes ≡ Some form }
        ensures repeats { result.repeats ≡ false }
    {
        Row {
            name,
            takes: Some(form),
            repeats: false,
        }
    }

    fn repeated(name: &'static [u8], form: Form) -> Row
        ensures name { result.name.now ≡ name.now }
        ensures takes { result.takes ≡ Some form }
        ensures repeats { result.repeats ≡ true }
    {
        Row {
            name,
            takes: Some(form),
            repeats: true,
        }
    }
}

impl Setting {
    // Its row.
    #[tactic(auto, unfolding(crate::specs::Settings::row_of))]
    pub(crate) fn row(self) -> Row
        ensures name { result.name.now ≡ (row_of self).name }
        ensures takes { result.takes ≡ (row_of self).takes }
        ensures repeats { result.repeats ≡ (row_of self).repeats }
    {
        match self {
            Setting::InputFormat => Row::valued(b"--input-format", Form::Format),
            Setting::OutputIfs => Row::valued(b"--output-ifs", Form::Text),
            Setting::OutputElf => Row::valued(b"--output-elf", Form::Text),
            Setting::Arch => Row::valued(b"--arch", Form::Machine),
            Setting::BitWidth => Row::valued(b"--bitwidth", Form::Width),
            Setting::Endianness => Row::valued(b"--endianness", Form::Order),
            Setting::Target => Row::valued(b"--target", Form::Triple),
            Setting::Soname => Row::valued(b"--soname", Form::Text),
            Setting::Exclude => Row::repeated(b"--exclude", Form::Pattern),
            Setting::StripIfsArch => Row::flag(b"--strip-ifs-arch"),
            Setting::StripIfsBitWidth => Row::flag(b"--strip-ifs-bitwidth"),
            Setting::StripIfsEndianness => Row::flag(b"--strip-ifs-endianness"),
            Setting::StripIfsTarget => Row::flag(b"--strip-ifs-target"),
            Setting::StripUndefined => Row::flag(b"--strip-undefined"),
            Setting::StripNeeded => Row::flag(b"--strip-needed"),
            Setting::StripSize => Row::flag(b"--strip-size"),
            Setting::WriteIfChanged => Row::flag(b"--write-if-changed"),
            Setting::Output => Row::valued(b"--output", Form::Text),
            Setting::Kind => Row::valued(b"--kind", Form::Kind),
            Setting::Entry => Row::valued(b"--entry", Form::Text),
            Setting::Runpath => Row::valued(b"--runpath", Form::Text),
            Setting::DynamicLinker => Row::valued(b"--dynamic-linker", Form::Text),
            Setting::Lib => Row::repeated(b"--lib", Form::Text),
            Setting::ExportDynamic => Row::flag(b"--export-dynamic"),
            Setting::AllowShlibUndefined => Row::flag(b"--allow-shlib-undefined"),
            Setting::AsNeeded => Row::flag(b"--as-needed"),
            Setting::Now => Row::flag(b"--now"),
            Setting::To => Row::valued(b"--to", Form::Version),
        }
    }

    // Its name.
    pub(crate) fn name(self) -> &'static [u8]
        ensures { result.now ≡ name_of self }
    {
        self.row().name
    }
}

// The options and flags of `stub`.
#[tactic(auto, unfolding(crate::specs::Settings::stub_settings))]
pub(crate) fn stub_settings() -> &'static [Setting]
    ensures { result.now ≡ stub_settings }
{
    &[
        Setting::InputFormat,
        Setting::OutputIfs,
        Setting::OutputElf,
        Setting::Arch,
        Setting::BitWidth,
        Setting::Endianness,
        Setting::Target,
        Setting::Soname,
        Setting::Exclude,
        Setting::StripIfsArch,
        Setting::StripIfsBitWidth,
        Setting::StripIfsEndianness,
        Setting::StripIfsTarget,
        Setting::StripUndefined,
        Setting::StripNeeded,
        Setting::StripSize,
        Setting::WriteIfChanged,
    ]
}

// The options and flags of `link`.
#[tactic(auto, unfolding(crate::specs::Settings::link_settings))]
pub(crate) fn link_settings() -> &'static [Setting]
    ensures { result.now ≡ link_settings }
{
    &[
        Setting::Output,
        Setting::Kind,
        Setting::Entry,
        Setting::Soname,
        Setting::Runpath,
        Setting::DynamicLinker,
        Setting::Lib,
        Setting::ExportDynamic,
        Setting::AllowShlibUndefined,
        Setting::AsNeeded,
        Setting::Now,
        Setting::WriteIfChanged,
    ]
}

// The options and flags of `tbd`.
#[tactic(auto, unfolding(crate::specs::Settings::tbd_settings))]
pub(crate) fn tbd_settings() -> &'static [Setting]
    ensures { result.now ≡ tbd_settings }
{
    &[Setting::To, Setting::Output, Setting::WriteIfChanged]
}

// The one of that name in a table.
pub(crate) fn setting_named(table: &[Setting], name: &[u8]) -> Option<Setting>
    ensures { result ≡ setting_named table.now name.now }
{
    let mut rest = table;
    while let [setting, more @ ..] = rest {
        if setting.name() == name {
            return Some(*setting);
        }
        rest = more;
    }
    None
}
