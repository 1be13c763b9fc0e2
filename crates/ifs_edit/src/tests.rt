ghost use Rattle.std.specs.Prelude.{◌≡◌, ◌<◌, codes, length, true, IfOk};
ghost use Rattle.std.specs.List.{list_all};
ghost use Rattle.ifs_interface.specs.Interface.{is_proper_name, is_proper_target, names_of};

use super::*;
use ifs_bytes::{List, Memory, Order, Text, Width};
use ifs_interface::{Interface, Kind, Symbol, Target, triple_parts};
use std::alloc::Global;
use std::test::Fail;

// What a pattern says of a name: whether it matches, or the cause why it is none.
fn told(alloc: Global, pattern: &[u8], name: &[u8]) -> Result<Text, Memory> {
    match Glob::parse(alloc, pattern) {
        Ok(glob) if glob.matches(name) => Text::from_slice(alloc, b"yes"),
        Ok(_glob) => Text::from_slice(alloc, b"no"),
        Err(cause) => cause.printed(alloc),
    }
}

// Patterns, names, and what the pattern says of the name.
const ROWS: [(&[u8], &[u8], &[u8]); 56] = [
    (b"", b"", b"yes"),
    (b"", b"a", b"no"),
    (b"*", b"", b"yes"),
    (b"*", b"foo", b"yes"),
    (b"b*", b"bar", b"yes"),
    (b"b*", b"b", b"yes"),
    (b"b*", b"foo", b"no"),
    (b"*b", b"ab", b"yes"),
    (b"*b", b"aba", b"no"),
    (b"*ab*b", b"aab", b"no"),
    (b"*ab*b", b"aabb", b"yes"),
    (b"*aba*", b"aabbaba", b"yes"),
    (b"a*b*c", b"abbc", b"yes"),
    (b"a*b*c", b"acb", b"no"),
    (b"a*a", b"a", b"no"),
    (b"**", b"", b"yes"),
    (b"?", b"", b"no"),
    (b"?", b"a", b"yes"),
    (b"?", b"ab", b"no"),
    (b"*?a", b"a", b"no"),
    (b"a?c", b"abc", b"yes"),
    (b"\\*", b"*", b"yes"),
    (b"\\*", b"a", b"no"),
    (b"\\a", b"a", b"yes"),
    (b"[abc]", b"b", b"yes"),
    (b"[abc]", b"d", b"no"),
    (b"[a-c]", b"c", b"yes"),
    (b"[a-c]", b"-", b"no"),
    (b"[!f]*", b"foo", b"no"),
    (b"[!f]*", b"bar", b"yes"),
    (b"[^f]*", b"foo", b"no"),
    (b"[!f]", b"", b"no"),
    (b"[a-]", b"-", b"yes"),
    (b"[-a]", b"-", b"yes"),
    (b"[--0]", b".", b"yes"),
    (b"[a-b-d]", b"c", b"no"),
    (b"[\\]]", b"\\]", b"yes"),
    (b"[a!]", b"!", b"yes"),
    (b"]", b"]", b"yes"),
    (b"a-b", b"a-b", b"yes"),
    (b"[\xff]", b"\xff", b"yes"),
    (b"[[]", b"[", b"yes"),
    (b"[!-a]", b"-", b"no"),
    (b"[a^-z]", b"p", b"yes"),
    (b"[", b"", b"BadGlob(0)"),
    (b"a[]", b"", b"BadGlob(1)"),
    (b"[]a]", b"", b"BadGlob(0)"),
    (b"[!]", b"", b"BadGlob(0)"),
    (b"[^]a]", b"", b"BadGlob(0)"),
    (b"ab[cd", b"", b"BadGlob(2)"),
    (b"?[!", b"", b"BadGlob(1)"),
    (b"*[a-", b"", b"BadGlob(1)"),
    (b"[a--]", b"", b"BadGlob(0)"),
    (b"[b-a]", b"", b"BadGlob(0)"),
    (b"[a][c-b][", b"", b"BadGlob(3)"),
    (b"\\a*\\", b"", b"BadGlob(3)"),
];

#[test]
fn patterns_of_names(rt: HostRuntime) -> Result<(), Fail> {
    for (pattern, name, answer) in ROWS {
        let got = told(rt.alloc(), pattern, name)?;
        assert_eq!(rt; got.as_bytes(), answer);
    }
    Ok(())
}

// Where each part is tried at each place: 5,000 stars with a byte each, and 10,000 bytes.
#[test]
fn many_stars(rt: HostRuntime) -> Result<(), Fail> {
    let alloc = rt.alloc();
    let mut pattern = Text::new(alloc);
    let mut name = Text::new(alloc);
    for _turn in 0..5_000 {
        pattern.append(b"*a")?;
        name.append(b"aa")?;
    }
    assert!(rt; matches(alloc, &pattern, &name)?);
    pattern.push(b'b')?;
    assert!(rt; !matches(alloc, &pattern, &name)?);
    Ok(())
}

// One part of 5,000 elements that fits almost at each place.
#[test]
fn a_long_part(rt: HostRuntime) -> Result<(), Fail> {
    let alloc = rt.alloc();
    let mut pattern = Text::from_slice(alloc, b"*")?;
    let mut name = Text::new(alloc);
    for _turn in 0..5_000 {
        pattern.push(b'a')?;
        name.append(b"aa")?;
    }
    pattern.append(b"b*")?;
    assert!(rt; !matches(alloc, &pattern, &name)?);
    Ok(())
}

// Whether a name matches a pattern.
fn matches(alloc: Global, pattern: &Text, name: &Text) -> Result<bool, Fail> {
    let glob = Glob::parse(alloc, pattern.as_bytes())?;
    Ok(glob.matches(name.as_bytes()))
}

// The target of a machine, little-endian, of 64 bits.
fn target(machine: u16) -> Target
    ensures { result ≡ record { triple = None; machine = Some machine; order = Some Order.Little; width = Some Width.W64 } }
{
    Target {
        triple: None,
        machine: Some(machine),
        order: Some(Order::Little),
        width: Some(Width::W64),
    }
}

// A target that nothing is known of.
fn no_target() -> Target
    ensures { result ≡ record { triple = None; machine = None; order = None; width = None } }
{
    Target {
        triple: None,
        machine: None,
        order: None,
        width: None,
    }
}

// The symbol `bar` of a size.
fn bar(alloc: Global, size: Option<u64>) -> Result<Symbol, Memory>
    ensures { IfOk result (λ symbol. symbol.name ≡ codes "bar") }
{
    Ok(Symbol {
        name: Text::from_slice(alloc, b"bar")?,
        kind: Kind::Object,
        size,
        weak: false,
        undefined: false,
        warning: None,
    })
}

// The symbol `foo`.
fn foo(alloc: Global) -> Result<Symbol, Memory>
    ensures { IfOk result (λ symbol. symbol.name ≡ codes "foo") }
{
    Ok(Symbol {
        name: Text::from_slice(alloc, b"foo")?,
        kind: Kind::Func,
        size: None,
        weak: false,
        undefined: true,
        warning: None,
    })
}

// The interface of `libfoo.so` with these symbols.
fn library(alloc: Global, target: Target, symbols: Vec<Symbol>) -> Result<Interface, Fail>
    requires names { list_all is_proper_name (names_of symbols.items) ≡ true }
    requires target { is_proper_target target.triple target ≡ true }
{
    let soname = Text::from_slice(alloc, b"libfoo.so")?;
    let needed = vec![in alloc; Text::from_slice(alloc, b"libc.so.6")?]?;
    let made = Interface::new(Some(soname), target, needed, symbols);
    Ok(made.ok().ok_or("repeated")?)
}

// `libfoo.so` with `bar` and `foo`.
fn foo_and_bar(alloc: Global) -> Result<Interface, Fail> {
    library(
        alloc,
        target(62),
        vec![in alloc; foo(alloc)?, bar(alloc, Some(42))?]?,
    )
}

// `libfoo.so` with one symbol of the name `bar`.
fn only(alloc: Global, symbol: Symbol) -> Result<Interface, Fail>
    requires { symbol.name ≡ codes "bar" }
{
    library(alloc, target(62), vec![in alloc; symbol]?)
}

// `libfoo.so` with `baz`.
fn only_baz(alloc: Global) -> Result<Interface, Fail> {
    let mut baz = bar(alloc, None)?;
    baz.name = Text::from_slice(alloc, b"baz")?;
    library(alloc, target(62), vec![in alloc; baz]?)
}

// What merging interfaces says: the names of the symbols, or the cause.
fn merging(alloc: Global, list: &[Interface]) -> Result<Text, Fail>
    requires { 0 < length list.now }
{
    match merge(alloc, list) {
        Ok(whole) => names(alloc, &whole),
        Err(cause) => Ok(cause.printed(alloc)?),
    }
}

// The names of an interface's symbols, each with a space behind it.
fn names(alloc: Global, interface: &Interface) -> Result<Text, Fail> {
    let mut text = Text::new(alloc);
    for symbol in interface.symbols() {
        text.append(symbol.name.as_bytes())?;
        text.push(b' ')?;
    }
    Ok(text)
}

#[test]
fn interfaces_together(rt: HostRuntime) -> Result<(), Fail> {
    let alloc = rt.alloc();
    let same = vec![in alloc; foo_and_bar(alloc)?, foo_and_bar(alloc)?]?;
    assert!(rt; merge(alloc, &same)? == foo_and_bar(alloc)?);
    let more = vec![in alloc; foo_and_bar(alloc)?, only_baz(alloc)?]?;
    assert_eq!(rt;
        merging(alloc, &more)?.as_bytes(),
        b"bar baz foo ".as_slice()
    );
    Ok(())
}

// A change of `bar`.
#[derive(Clone, Copy)]
enum Change {
    Kind,
    Size,
    NoSize,
    Weak,
    Undefined,
    Warning,
}

// What merging `baz`, `bar` and a changed `bar` says.
const CHANGES: [(Change, &[u8]); 6] = [
    (Change::Kind, b"TypeMismatch(bar, Object, Tls)"),
    (Change::Size, b"SizeMismatch(bar, 4, 8)"),
    (Change::NoSize, b"SizeMismatch(bar, 4, none)"),
    (Change::Weak, b"WeakMismatch(bar)"),
    (Change::Undefined, b"UndefinedMismatch(bar)"),
    (Change::Warning, b"WarningMismatch(bar)"),
];

// `bar` of 4 bytes, with a change.
fn changed(alloc: Global, change: Change) -> Result<Symbol, Memory>
    ensures { IfOk result (λ symbol. symbol.name ≡ codes "bar") }
{
    let mut symbol = bar(alloc, Some(4))?;
    match change {
        Change::Kind => symbol.kind = Kind::Tls,
        Change::Size => symbol.size = Some(8),
        Change::NoSize => symbol.size = None,
        Change::Weak => symbol.weak = true,
        Change::Undefined => symbol.undefined = true,
        Change::Warning => symbol.warning = Some(Text::new(alloc)),
    }
    Ok(symbol)
}

#[test]
fn symbols_that_differ(rt: HostRuntime) -> Result<(), Fail> {
    let alloc = rt.alloc();
    for (change, answer) in CHANGES {
        let list = vec![in alloc;
            only_baz(alloc)?,
            only(alloc, bar(alloc, Some(4))?)?,
            only(alloc, changed(alloc, change)?)?,
        ]?;
        let got = merging(alloc, &list)?;
        assert_eq!(rt; got.as_bytes(), answer);
    }
    Ok(())
}

// What an interface has other than `libfoo.so`.
#[derive(Clone, Copy)]
enum Part {
    Target,
    Soname,
    Needed,
}

// What merging two of `libfoo.so` with such an interface says.
const PARTS: [(Part, &[u8]); 3] = [
    (Part::Target, b"TargetMismatch(2)"),
    (Part::Soname, b"SonameMismatch(2)"),
    (Part::Needed, b"NeededMismatch(2)"),
];

// An interface without symbols that isn't like `libfoo.so` in a part, and in those that are looked at later.
fn unlike(alloc: Global, part: Part) -> Result<Interface, Fail> {
    let soname = Text::from_slice(alloc, b"libfoo.so")?;
    let made = match part {
        Part::Target => Interface::new(None, no_target(), Vec::new(alloc), Vec::new(alloc)),
        Part::Soname => Interface::new(None, target(62), Vec::new(alloc), Vec::new(alloc)),
        Part::Needed => Interface::new(Some(soname), target(62), Vec::new(alloc), Vec::new(alloc)),
    };
    Ok(made.ok().ok_or("repeated")?)
}

#[test]
fn parts_that_differ(rt: HostRuntime) -> Result<(), Fail> {
    let alloc = rt.alloc();
    for (part, answer) in PARTS {
        let list = vec![in alloc; foo_and_bar(alloc)?, only_baz(alloc)?, unlike(alloc, part)?]?;
        let got = merging(alloc, &list)?;
        assert_eq!(rt; got.as_bytes(), answer);
    }
    Ok(())
}

// Options that change nothing but what is given of the target.
fn options(alloc: Global, given: Target) -> AdjustOptions
    ensures given { result.given ≡ given }
    ensures soname { result.soname ≡ None }
{
    AdjustOptions {
        given,
        soname: None,
        exclude: List::from_vec(Vec::new(alloc)),
        strip_undefined: false,
        strip_needed: false,
        strip_size: false,
    }
}

// What adjusting `libfoo.so` says: the names of its symbols, or the cause.
fn adjusting(alloc: Global, options: &AdjustOptions) -> Result<Text, Fail>
    requires soname { options.now.soname ≡ None }
    requires target { is_proper_target options.now.given.triple options.now.given ≡ true }
{
    match adjust(alloc, &foo_and_bar(alloc)?, options) {
        Ok(interface) => names(alloc, &interface),
        Err(cause) => Ok(cause.printed(alloc)?),
    }
}

// What is given of a target.
#[derive(Clone, Copy)]
enum Given {
    Same,
    Machine,
    Width,
    Order,
}

// What adjusting `libfoo.so` to it says.
const GIVEN: [(Given, &[u8]); 4] = [
    (Given::Same, b"bar foo "),
    (Given::Machine, b"TargetConflict(Arch, x86_64, AArch64)"),
    (Given::Width, b"TargetConflict(BitWidth, 64, 32)"),
    (Given::Order, b"TargetConflict(Endianness, little, big)"),
];

// A target that agrees, or one that doesn't from a field on.
fn target_of(given: Given) -> Target
    ensures { result.triple ≡ None }
{
    Target {
        triple: None,
        machine: match given {
            Given::Same => Some(62),
            Given::Machine => Some(183),
            Given::Width | Given::Order => None,
        },
        order: match given {
            Given::Same => None,
            Given::Machine | Given::Width | Given::Order => Some(Order::Big),
        },
        width: match given {
            Given::Same | Given::Order => None,
            Given::Machine | Given::Width => Some(Width::W32),
        },
    }
}

#[test]
fn targets_that_are_given(rt: HostRuntime) -> Result<(), Fail> {
    let alloc = rt.alloc();
    for (field, answer) in GIVEN {
        let got = adjusting(alloc, &options(alloc, target_of(field)))?;
        assert_eq!(rt; got.as_bytes(), answer);
    }
    Ok(())
}

// The target of a triple; one that nothing is known of where that isn't known.
fn target_of_triple(alloc: Global, triple: &[u8]) -> Result<Target, Memory>
    ensures { IfOk result (λ target. is_proper_target target.triple target ≡ true) }
{
    let mut target = no_target();
    if triple_parts(triple).is_some() {
        target.triple = Some(Text::from_slice(alloc, triple)?);
    }
    Ok(target)
}

// A triple that is there, one that is given, and what adjusting the one to the other says.
const TRIPLES: [(&[u8], &[u8], &[u8]); 4] = [
    (b"arm-linux", b"arm-linux", b"arm-linux"),
    (b"arm-linux", b"?", b"arm-linux"),
    (b"?", b"arm-linux", b"arm-linux"),
    (
        b"arm-linux",
        b"arm-linux-gnu",
        b"TargetConflict(Triple, arm-linux, arm-linux-gnu)",
    ),
];

// What adjusting an interface of a target says: its triple, or the cause.
fn adjusting_target(alloc: Global, there: Target, given: Target) -> Result<Text, Fail>
    requires there { is_proper_target there.triple there ≡ true }
    requires given { is_proper_target given.triple given ≡ true }
{
    let interface = library(alloc, there, Vec::new(alloc))?;
    match adjust(alloc, &interface, &options(alloc, given)) {
        Ok(adjusted) => {
            let triple = adjusted.target().triple.as_ref().ok_or("no triple")?;
            Ok(triple.copy(alloc)?)
        }
        Err(cause) => Ok(cause.printed(alloc)?),
    }
}

#[test]
fn triples_that_are_given(rt: HostRuntime) -> Result<(), Fail> {
    let alloc = rt.alloc();
    for (there, given, answer) in TRIPLES {
        let there = target_of_triple(alloc, there)?;
        let got = adjusting_target(alloc, there, target_of_triple(alloc, given)?)?;
        assert_eq!(rt; got.as_bytes(), answer);
    }
    let own = target_of_triple(alloc, b"arm-linux")?;
    let got = adjusting_target(alloc, own, target(62))?;
    assert_eq!(rt;
        got.as_bytes(),
        b"TargetConflict(Arch, arm, x86_64)".as_slice()
    );
    Ok(())
}

// Two patterns, and the symbols of `libfoo.so` that none of them matches.
const EXCLUDED: [(&[u8], &[u8], &[u8]); 3] = [
    (b"b*", b"b*", b"foo "),
    (b"[!f]*", b"foo", b""),
    (b"fo", b"*r?", b"bar foo "),
];

#[test]
fn symbols_that_stay(rt: HostRuntime) -> Result<(), Fail> {
    let alloc = rt.alloc();
    for (one, other, answer) in EXCLUDED {
        let mut left = options(alloc, no_target());
        let globs = vec![in alloc; Glob::parse(alloc, one)?, Glob::parse(alloc, other)?]?;
        left.exclude = List::from_vec(globs);
        let got = adjusting(alloc, &left)?;
        assert_eq!(rt; got.as_bytes(), answer);
    }
    Ok(())
}

#[test]
fn what_is_stripped(rt: HostRuntime) -> Result<(), Fail> {
    let alloc = rt.alloc();
    let mut stripped = options(alloc, no_target());
    stripped.strip_undefined = true;
    stripped.strip_needed = true;
    stripped.strip_size = true;
    let interface = adjust(alloc, &foo_and_bar(alloc)?, &stripped)?;
    assert_eq!(rt; interface.symbols().len(), 1);
    assert_eq!(rt; interface.symbols()[0].size, None);
    assert_eq!(rt; interface.needed_list().len(), 0);
    Ok(())
}

#[test]
fn targets_in_a_text(rt: HostRuntime) -> Result<(), Fail> {
    let mut strip = Strip {
        arch: true,
        width: false,
        order: false,
        target: false,
    };
    let part = strip_target(rt.alloc(), &foo_and_bar(rt.alloc())?, &strip)?;
    assert_eq!(rt; part.target().machine, None);
    assert!(rt; part.target().width == Some(Width::W64));
    assert_eq!(rt; part.symbols().len(), 2);
    strip.target = true;
    let none = strip_target(rt.alloc(), &part, &strip)?;
    assert!(rt; *none.target() == no_target());
    Ok(())
}
