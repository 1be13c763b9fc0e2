//! The table of needs: what a relocation type asks for, of a symbol of each state (x86-64 psABI, "Relocation";
//! ELF for the Arm 64-bit Architecture, "Relocation").

ghost use Rattle.std.specs.Prelude.{◌≡◌, Result, Ok};
ghost use Rattle.link_core.specs.Need as meant;
ghost use Rattle.link_targets.specs.Targets.{setting_seen};

use ifs_interface::Fact;
use link_core::{Need, OutKind, RefClass, RefState, Slot, Unmet};

/// What the need of a reference depends on, beside its class and the state of its symbol.
#[derive(Clone, Copy, Debug, PartialEq, Eq)]
pub struct Setting {
    /// The kind of the made file.
    pub kind: OutKind,
    /// Whether the section that the reference patches is written when the file runs.
    pub writable: bool,
    /// The class of the symbol.
    pub class: Fact,
}

// A program can't hold what a library has.
fn copied(setting: &Setting) -> Result<Need, Unmet>
    ensures { result ≡ meant.copied (setting_seen setting.now) }
{
    match setting.class {
        Fact::Func => Err(Unmet::CanonicalPlt),
        Fact::NoType | Fact::Object | Fact::Tls => Err(Unmet::CopyRelocation),
    }
}

// A place that is known when a program at fixed addresses is made.
fn fixed(setting: &Setting) -> Result<Need, Unmet>
    ensures { result ≡ meant.by_kind setting.now.kind meant.value
        (meant.refused Unmet.NotPic) (meant.refused Unmet.NotPic) }
{
    match setting.kind {
        OutKind::Exec => Ok(Need::Value),
        OutKind::Pie | OutKind::Shared => Err(Unmet::NotPic),
    }
}

// A copy, or an address in the program, for what a library has, where the file is a program.
fn copied_by_program(setting: &Setting) -> Result<Need, Unmet>
    ensures { result ≡ meant.by_kind setting.now.kind (meant.copied (setting_seen setting.now))
        (meant.copied (setting_seen setting.now)) (meant.refused Unmet.NotPic) }
{
    match setting.kind {
        OutKind::Exec | OutKind::Pie => copied(setting),
        OutKind::Shared => Err(Unmet::NotPic),
    }
}

// The load address is added where the section may be written.
fn relative(setting: &Setting) -> Result<Need, Unmet>
    ensures { result ≡ meant.relative (setting_seen setting.now) }
{
    if setting.writable {
        Ok(Need::Relative)
    } else {
        Err(Unmet::TextRelocation)
    }
}

// An address of 64 bits that is found when the file is loaded.
fn imported_abs64(setting: &Setting) -> Result<Need, Unmet>
    ensures { result ≡ meant.of_abs64 RefState.Imp (setting_seen setting.now) }
{
    if setting.writable {
        return Ok(Need::Symbolic);
    }
    match setting.kind {
        OutKind::Exec => copied(setting),
        OutKind::Pie | OutKind::Shared => Err(Unmet::TextRelocation),
    }
}

fn of_abs64(state: RefState, setting: &Setting) -> Result<Need, Unmet>
    ensures { result ≡ meant.of_abs64 state (setting_seen setting.now) }
{
    match state {
        RefState::Own => match setting.kind {
            OutKind::Exec => Ok(Need::Value),
            OutKind::Pie | OutKind::Shared => relative(setting),
        },
        RefState::Abs | RefState::Zero => Ok(Need::Value),
        RefState::Imp => imported_abs64(setting),
    }
}

fn of_abs32(state: RefState, setting: &Setting) -> Result<Need, Unmet>
    ensures { result ≡ meant.of_abs32 state (setting_seen setting.now) }
{
    match state {
        RefState::Own => fixed(setting),
        RefState::Abs | RefState::Zero => Ok(Need::Value),
        RefState::Imp => match setting.kind {
            OutKind::Exec => copied(setting),
            OutKind::Pie | OutKind::Shared => Err(Unmet::NotPic),
        },
    }
}

fn of_pc(state: RefState, setting: &Setting) -> Result<Need, Unmet>
    ensures { result ≡ meant.of_pc state (setting_seen setting.now) }
{
    match state {
        RefState::Own | RefState::Zero => Ok(Need::Value),
        RefState::Abs => fixed(setting),
        RefState::Imp => copied_by_program(setting),
    }
}

fn of_call(state: RefState) -> Need
    ensures { (setting : meant.Setting) → Ok result ≡ meant.of_call state setting }
{
    match state {
        RefState::Own | RefState::Abs | RefState::Zero => Need::Value,
        RefState::Imp => Need::Plt,
    }
}

fn of_le(state: RefState, setting: &Setting) -> Result<Need, Unmet>
    ensures { result ≡ meant.of_le state (setting_seen setting.now) }
{
    match (state, setting.kind) {
        (RefState::Own, OutKind::Shared) => Err(Unmet::NotPic),
        (RefState::Own, OutKind::Exec | OutKind::Pie) => Ok(Need::Value),
        (RefState::Abs | RefState::Zero, _) => Ok(Need::Value),
        (RefState::Imp, OutKind::Shared) => Err(Unmet::NotPic),
        (RefState::Imp, OutKind::Exec | OutKind::Pie) => Err(Unmet::CopyRelocation),
    }
}

fn of_dtp(state: RefState) -> Result<Need, Unmet>
    ensures { (setting : meant.Setting) → result ≡ meant.of_dtp state setting }
{
    match state {
        RefState::Own | RefState::Abs | RefState::Zero => Ok(Need::Value),
        RefState::Imp => Err(Unmet::NotPic),
    }
}

/// What a reference of a class needs, whose symbol is of a state, or why it can't have it.
#[tactic(auto, unfolding(link_core::specs::Need::need_of))]
pub fn need_of(class: RefClass, state: RefState, setting: &Setting) -> Result<Need, Unmet>
    ensures { result ≡ meant.need_of class state (setting_seen setting.now) }
{
    match class {
        RefClass::Nothing => Ok(Need::Value),
        RefClass::Abs64 => of_abs64(state, setting),
        RefClass::Abs32 => of_abs32(state, setting),
        RefClass::Pc => of_pc(state, setting),
        RefClass::Call => Ok(of_call(state)),
        RefClass::Got => Ok(Need::Slot(Slot::Got)),
        RefClass::Le => of_le(state, setting),
        RefClass::Ie => Ok(Need::Slot(Slot::Tp)),
        RefClass::Gd => Ok(Need::Slot(Slot::TlsPair)),
        RefClass::Ld => Ok(Need::Slot(Slot::Module)),
        RefClass::Dtp => of_dtp(state),
        RefClass::Desc => Ok(Need::Slot(Slot::Desc)),
    }
}

// Whether a class is for a symbol that is thread-local, or that isn't.
fn is_as_wanted(class: RefClass, threaded: bool) -> bool
    ensures { result ≡ meant.is_as_wanted (meant.wanted_by class) threaded }
{
    match class {
        RefClass::Nothing | RefClass::Ld => true,
        RefClass::Abs64 | RefClass::Abs32 | RefClass::Pc | RefClass::Call | RefClass::Got =>
            !threaded,
        RefClass::Le | RefClass::Ie | RefClass::Gd | RefClass::Dtp | RefClass::Desc => threaded,
    }
}

/// Whether a class is for a symbol that is thread-local, as `threaded` says, or that isn't. A name that stands
/// for 0 fits each class.
#[tactic(auto, unfolding(link_core::specs::Need::fits_class))]
pub fn fits_class(class: RefClass, state: RefState, threaded: bool) -> bool
    ensures { result ≡ meant.fits_class class state threaded }
{
    match state {
        RefState::Zero => true,
        RefState::Own | RefState::Abs | RefState::Imp => is_as_wanted(class, threaded),
    }
}
