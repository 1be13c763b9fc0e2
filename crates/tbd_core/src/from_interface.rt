//! The library that an interface is.

ghost use Rattle.std.specs.Prelude.{◌≡◌, ◌++◌, ◌∷◌, [], ◌==◌, map, position, codes, None, IfOk, option_and_then};
ghost use Rattle.std.specs.Option.{option_copied};
ghost use Rattle.ifs_bytes.specs.Outcome.{UnlessMemory};
ghost use Rattle.ifs_interface.specs.Parts.{parts_of};
ghost use Rattle.tbd_core.specs.declared.cause.PrintCause.TheVariants as PrintCause;
ghost use Rattle.tbd_core.specs.Converted.{kind_of, part_of, symbol_of, behind_dash, starts, platform_of, platform, arch_by, target_name, parts_of_interface, tbd_of_interface};

use crate::cause::PrintCause;
use crate::convert::whole;
use crate::dylib::{DylibParts, Tbd, TbdTarget};
use crate::symbol::{Part, Section, SymbolKind, TbdSymbol};
use crate::unite::united;
use crate::version::FIRST_VERSION;
use ifs_bytes::{List, Memory, Text};
use ifs_interface::{Interface, Kind, Symbol, parts};
use std::alloc::Global;

// ---- symbols

fn kind_of(weak: bool, kind: Kind) -> SymbolKind
    ensures { result ≡ kind_of weak kind }
{
    match kind {
        Kind::Tls => SymbolKind::ThreadLocal,
        Kind::NoType | Kind::Func | Kind::Object | Kind::Unknown => {
            if weak {
                SymbolKind::Weak
            } else {
                SymbolKind::Global
            }
        }
    }
}

fn part_of(kind: Kind) -> Part
    ensures { result ≡ part_of kind }
{
    match kind {
        Kind::Func => Part::Code,
        Kind::NoType | Kind::Object | Kind::Tls | Kind::Unknown => Part::Data,
    }
}

// The one position of a list of one target.
fn first_place(alloc: Global) -> Result<List<u64>, Memory>
    ensures { IfOk result (λ places. places ≡ 0 ∷ []) }
{
    let mut places = Vec::new(alloc);
    places.push(0)?;
    Ok(List::from_vec(places))
}

fn symbol_of(alloc: Global, symbol: &Symbol) -> Result<TbdSymbol, Memory>
    ensures { IfOk result (λ made. made ≡ symbol_of symbol.now) }
{
    Ok(TbdSymbol {
        section: if symbol.undefined {
            Section::Undefined
        } else {
            Section::Exported
        },
        kind: kind_of(symbol.weak, symbol.kind),
        segment: part_of(symbol.kind),
        name: symbol.name.copy(alloc)?,
        targets: first_place(alloc)?,
    })
}

fn symbols_of(alloc: Global, symbols: &[Symbol]) -> Result<Vec<TbdSymbol>, Memory>
    ensures { IfOk result (λ made. made.items ≡ map symbol_of symbols.now) }
{
    let mut made = Vec::with_capacity(alloc, symbols.len())?;
    for symbol in symbols {
        made.push(symbol_of(alloc, symbol)?)?;
    }
    Ok(made)
}

// ---- the target

// The place of the first dash.
fn dash_at(text: &[u8]) -> Option<usize>
    ensures { result ≡ position (λ b. b == 45) text.now }
{
    text.iter().position(|b| *b == b'-')
}

// What stands behind the first dash.
fn behind_dash(text: &[u8]) -> Option<&[u8]>
    ensures { option_copied result ≡ behind_dash text.now }
{
    let (_, behind) = text.split_at(dash_at(text)? + 1);
    Some(behind)
}

fn starts(text: &[u8], word: &[u8]) -> bool
    ensures { result ≡ starts text.now word.now }
{
    text.starts_with(word)
}

// The platform that the third part of a triple names.
fn platform_of(third: &[u8]) -> &'static [u8]
    ensures { result.now ≡ platform_of third.now }
{
    if starts(third, b"macos") {
        return b"-macos";
    }
    if starts(third, b"darwin") {
        return b"-macos";
    }
    if starts(third, b"ios") {
        return b"-ios";
    }
    b"-linux"
}

// The third part of a triple, and what is behind it.
fn third_part(triple: Option<&Text>) -> Option<&[u8]>
    ensures { option_copied result ≡ option_and_then behind_dash (option_and_then behind_dash (option_copied triple.entry)) }
{
    behind_dash(behind_dash(triple?.as_bytes())?)
}

// The architecture that a machine has there.
fn arch_by(machine: u16) -> Option<&'static [u8]>
    ensures { option_copied result ≡ arch_by machine }
{
    if machine == 62 {
        Some(b"x86_64")
    } else if machine == 183 {
        Some(b"arm64")
    } else {
        None
    }
}

// The platform that a triple names.
fn platform(triple: Option<&Text>) -> &'static [u8]
    ensures { result.now ≡ platform (option_copied triple.entry) }
{
    match third_part(triple) {
        Some(third) => platform_of(third),
        None => b"-linux",
    }
}

// The architecture of an interface.
fn arch_of(interface: &Interface) -> Option<&'static [u8]>
    ensures { option_copied result ≡ option_and_then arch_by (parts_of interface.now.target).machine }
{
    arch_by(parts(interface.target()).machine?)
}

// An architecture with a platform.
fn joined(alloc: Global, arch: &[u8], platform: &[u8]) -> Result<Text, Memory>
    ensures { IfOk result (λ name. name ≡ arch.now ++ platform.now) }
{
    let mut name = Text::from_slice(alloc, arch)?;
    name.append(platform)?;
    Ok(name)
}

// The name of the target that an interface is for, where it has one.
#[tactic(auto, unfolding(crate::specs::Converted::target_name))]
fn target_name(alloc: Global, interface: &Interface) -> Result<Option<Text>, Memory>
    ensures { IfOk result (λ name. name ≡ target_name interface.now) }
{
    match arch_of(interface) {
        Some(arch) => {
            let platform = platform(interface.target().triple.as_ref());
            Ok(Some(joined(alloc, arch, platform)?))
        }
        None => Ok(None),
    }
}

// ---- the whole

fn one_target(alloc: Global, name: Text) -> Result<List<TbdTarget>, Memory>
    ensures { IfOk result (λ targets. targets ≡ (record { name = name; min = None }) ∷ []) }
{
    let mut targets = Vec::new(alloc);
    targets.push(TbdTarget { name, min: None })?;
    Ok(List::from_vec(targets))
}

// The parts of the library of a soname, a target and symbols.
#[tactic(auto, unfolding(crate::specs::Converted::parts_of_interface))]
fn parts_of_interface(
    alloc: Global,
    soname: &Text,
    target: Text,
    symbols: &[Symbol],
) -> Result<DylibParts, Memory>
    ensures { IfOk result (λ parts. parts ≡ parts_of_interface soname.now target symbols.now) }
{
    Ok(DylibParts {
        targets: one_target(alloc, target)?,
        flags: List::from_vec(Vec::new(alloc)),
        install_name: soname.copy(alloc)?,
        current: FIRST_VERSION,
        compatible: FIRST_VERSION,
        swift_abi: None,
        umbrellas: List::from_vec(Vec::new(alloc)),
        clients: List::from_vec(Vec::new(alloc)),
        reexported: List::from_vec(Vec::new(alloc)),
        rpaths: List::from_vec(Vec::new(alloc)),
        symbols: united(alloc, symbols_of(alloc, symbols)?)?,
    })
}

// What has no place in a text-based stub.
fn no_place(alloc: Global, field: &[u8]) -> Result<PrintCause, Memory>
    ensures { IfOk result (λ cause. cause ≡ PrintCause.NoPlace field.now) }
{
    Ok(PrintCause::NoPlace(Text::from_slice(alloc, field)?))
}

/// The library that an interface is, for its one target; or NoPlace of `SoName`, where there is none, else NoPlace of
/// `Target`, where the machine isn't 62 or 183. The target is `x86_64` or `arm64`, and the platform that the third part
/// of the triple begins with: `-macos` for `macos` or `darwin`, `-ios` for `ios`, else `-linux`. The soname is the
/// install name. Defined symbols are exported, the others undefined; a thread-local symbol is so there, any other is
/// weak or global; a function is in the code, any other in the data. Sizes, needed libraries, warnings and other types
/// are left out.
#[tactic(auto, unfolding(crate::specs::Converted::tbd_of_interface))]
pub fn of_interface(alloc: Global, interface: &Interface) -> Result<Tbd, PrintCause>
    ensures { UnlessMemory PrintCause.Memory result (tbd_of_interface interface.now) }
{
    match interface.soname() {
        Some(soname) => match target_name(alloc, interface)? {
            Some(target) => {
                let parts = parts_of_interface(alloc, soname, target, interface.symbols())?;
                Ok(Tbd {
                    main: whole(parts)?,
                    inlined: List::from_vec(Vec::new(alloc)),
                })
            }
            None => Err(no_place(alloc, b"Target")?),
        },
        None => Err(no_place(alloc, b"SoName")?),
    }
}
