ghost use Rattle.std.specs.Prelude.{◌≡◌, true, IfOk};
ghost use Rattle.std.specs.List.{list_all};
ghost use Rattle.ifs_interface.specs.Interface.{is_proper_name, names_of};

mod samples;

use self::samples::{EXTRACTED, Extracted, NARROW, Seen, WIDE};
use super::*;
use elf_dyn::{ElfCause, Library, places_by_name};
use ifs_bytes::{Memory, Order, Text, Width};
use ifs_interface::{DynRow, Interface, Kind, Symbol, Target};
use std::alloc::Global;
use std::process::Abort;
use std::test::Fail;

const GLOBAL: u8 = 1;

const WEAK: u8 = 2;

fn row(
    alloc: Global,
    name: &[u8],
    shndx: u16,
    binding: u8,
    kind: u8,
    size: u64,
) -> Result<DynRow, Memory>
    ensures { IfOk result (λ row. row.name ≡ name.now) }
{
    Ok(DynRow {
        name: Text::from_slice(alloc, name)?,
        binding,
        kind,
        shndx,
        value: 0,
        size,
    })
}

// Whether the symbol at a place has this name, kind and size.
fn is_sized(symbols: &[Symbol], place: usize, name: &[u8], kind: Kind, size: Option<u64>) -> bool {
    match symbols.get(place) {
        Some(symbol) => {
            symbol.name.as_bytes() == name && symbol.kind == kind && symbol.size == size
        }
        None => false,
    }
}

// Whether the symbol at a place is weak, and whether it is wanted from elsewhere.
fn is_bound(symbols: &[Symbol], place: usize, weak: bool, undefined: bool) -> bool {
    match symbols.get(place) {
        Some(symbol) => symbol.weak == weak && symbol.undefined == undefined,
        None => false,
    }
}

#[test]
fn a_definition_describes_a_name(rt: HostRuntime) -> Result<(), Fail> {
    let alloc = rt.alloc();
    let rows = [
        row(alloc, b"b", 0, GLOBAL, 2, 0)?,
        row(alloc, b"a", 0, WEAK, 0, 9)?,
        row(alloc, b"b", 7, WEAK, 1, 8)?,
        row(alloc, b"a", 0, GLOBAL, 1, 0)?,
        row(alloc, b"B", 0, WEAK, 10, 0)?,
    ];
    let symbols = symbols_of(alloc, &rows, &places_by_name(alloc, &rows)?)?;
    assert_eq!(rt; symbols.len(), 3);
    assert!(rt; is_sized(&symbols, 0, b"B", Kind::Unknown, None));
    assert!(rt; is_bound(&symbols, 0, true, true));
    assert!(rt; is_sized(&symbols, 1, b"a", Kind::NoType, Some(9)));
    assert!(rt; is_bound(&symbols, 1, false, true));
    assert!(rt; is_sized(&symbols, 2, b"b", Kind::Object, Some(8)));
    assert!(rt; is_bound(&symbols, 2, true, false));
    Ok(())
}

#[test]
fn sizes_go_by_kind(rt: HostRuntime) -> Result<(), Fail> {
    let alloc = rt.alloc();
    let rows = [
        row(alloc, b"1", 1, GLOBAL, 2, 64)?,
        row(alloc, b"2", 1, GLOBAL, 1, 0)?,
        row(alloc, b"3", 1, GLOBAL, 0, 0)?,
        row(alloc, b"4", 1, GLOBAL, 13, 5)?,
    ];
    let symbols = symbols_of(alloc, &rows, &places_by_name(alloc, &rows)?)?;
    assert!(rt; is_sized(&symbols, 0, b"1", Kind::Func, None));
    assert!(rt; is_sized(&symbols, 1, b"2", Kind::Object, Some(0)));
    assert!(rt; is_sized(&symbols, 2, b"3", Kind::NoType, None));
    assert!(rt; is_sized(&symbols, 3, b"4", Kind::Unknown, Some(5)));
    Ok(())
}

// A copy of the stub for x86-64, with these bytes from `at` on.
fn changed_stub(alloc: Global, at: usize, bytes: &[u8]) -> Result<Vec<u8>, Memory> {
    let mut file = Vec::from_slice(alloc, &WIDE)?;
    let mut place = at;
    for &byte in bytes {
        if let Some(old) = file.get_mut(place) {
            *old = byte;
        }
        place = place.saturating_add(1);
    }
    Ok(file)
}

// The interface of the library in a file.
fn interface_in(alloc: Global, file: &[u8]) -> Result<Interface, ElfCause> {
    Ok(extract(alloc, &Library::parse(alloc, file)?)?)
}

fn is_seen(symbol: &Symbol, (name, kind, size, weak, undefined): Seen) -> bool {
    symbol.name.as_bytes() == name
        && symbol.kind == kind
        && symbol.size == size
        && symbol.weak == weak
        && symbol.undefined == undefined
}

// The library that this change makes of the stub has these symbols.
fn has_interface(
    rt: &(impl Abort + AllocGlobal),
    (at, bytes, wanted): Extracted,
) -> Result<(), ElfCause> {
    let interface = interface_in(rt.alloc(), &changed_stub(rt.alloc(), at, bytes)?)?;
    let symbols = interface.symbols();
    assert_eq!(rt; symbols.len(), wanted.len(), "{bytes:?} at {at}");
    for (symbol, seen) in symbols.iter().zip(wanted) {
        assert!(rt; is_seen(symbol, *seen), "{bytes:?} at {at}: {symbol:?}");
    }
    Ok(())
}

#[test]
fn interfaces_of_libraries(rt: HostRuntime) -> Result<(), Fail> {
    for extracted in EXTRACTED {
        has_interface(&rt, extracted)?;
    }
    Ok(())
}

// The stub of the library in a file.
fn stub_of(alloc: Global, file: &[u8]) -> Result<Vec<u8>, ElfCause> {
    let interface = interface_in(alloc, file)?;
    Ok(emit(alloc, &interface).unwrap_or(Vec::new(alloc)))
}

#[test]
fn stubs_of_stubs(rt: HostRuntime) -> Result<(), Fail> {
    let alloc = rt.alloc();
    assert!(rt; stub_of(alloc, &WIDE)?.as_slice() == WIDE.as_slice());
    assert!(rt; stub_of(alloc, &NARROW)?.as_slice() == NARROW.as_slice());
    // `foo` of type 10 has no type in the stub.
    let unknown = stub_of(alloc, &changed_stub(alloc, 228, &[0x1a])?)?;
    assert!(rt; unknown == changed_stub(alloc, 228, &[0x10])?);
    Ok(())
}

// A target of which all is known.
fn target(machine: u16, order: Order, width: Width) -> Target
    ensures { result.triple ≡ None }
{
    Target {
        triple: None,
        machine: Some(machine),
        order: Some(order),
        width: Some(width),
    }
}

fn symbol(alloc: Global, name: &[u8], kind: Kind, size: Option<u64>) -> Result<Symbol, Memory>
    ensures { IfOk result (λ symbol. symbol.name ≡ name.now) }
{
    Ok(Symbol {
        name: Text::from_slice(alloc, name)?,
        kind,
        size,
        weak: false,
        undefined: false,
        warning: None,
    })
}

// The symbols `bar`, data of that size, and `foo`, code.
fn two_symbols(alloc: Global, size: u64) -> Result<Vec<Symbol>, Memory>
    ensures { IfOk result (λ symbols. list_all is_proper_name (names_of symbols.items) ≡ true) }
{
    let mut symbols = Vec::new(alloc);
    symbols.push(symbol(alloc, b"bar", Kind::Object, Some(size))?)?;
    symbols.push(symbol(alloc, b"foo", Kind::Func, None)?)?;
    Ok(symbols)
}

// The stub of `libfoo.so` with these symbols; empty where there is none.
fn stub(alloc: Global, target: Target, symbols: Vec<Symbol>) -> Result<Vec<u8>, Memory>
    requires triple { target.triple ≡ None }
    requires names { list_all is_proper_name (names_of symbols.items) ≡ true }
{
    let soname = Text::from_slice(alloc, b"libfoo.so")?;
    let bytes = match Interface::new(Some(soname), target, Vec::new(alloc), symbols) {
        Ok(interface) => emit(alloc, &interface).unwrap_or(Vec::new(alloc)),
        Err(_name) => Vec::new(alloc),
    };
    Ok(bytes)
}

#[test]
fn stubs_byte_by_byte(rt: HostRuntime) -> Result<(), Fail> {
    let alloc = rt.alloc();
    let wide = stub(
        alloc,
        target(62, Order::Little, Width::W64),
        two_symbols(alloc, 42)?,
    )?;
    assert!(rt; wide.as_slice() == WIDE.as_slice());
    let narrow = stub(
        alloc,
        target(20, Order::Big, Width::W32),
        two_symbols(alloc, 42)?,
    )?;
    assert!(rt; narrow.as_slice() == NARROW.as_slice());
    Ok(())
}

#[test]
fn a_stub_without_symbols(rt: HostRuntime) -> Result<(), Fail> {
    let alloc = rt.alloc();
    let bytes = stub(
        alloc,
        target(62, Order::Little, Width::W64),
        Vec::new(alloc),
    )?;
    assert_eq!(rt; bytes.len(), 776);
    assert!(rt; &bytes[200..211] == b"\0libfoo.so\0".as_slice());
    let hash = [1, 0, 0, 0, 1, 0, 0, 0, 0, 0, 0, 0, 0, 0, 0, 0];
    assert!(rt; &bytes[216..232] == hash.as_slice());
    Ok(())
}

// That many names of these bytes.
fn copies(alloc: Global, name: &[u8], count: usize) -> Result<Vec<Text>, Memory>
    requires { is_proper_name name.now ≡ true }
    ensures { IfOk result (λ names. list_all is_proper_name names.items ≡ true) }
{
    let mut names = Vec::with_capacity(alloc, count)?;
    for _turn in 0..count {
        names.push(Text::from_slice(alloc, name)?)?;
    }
    Ok(names)
}

// Why there is no stub of these parts; empty where there is one.
fn refusal(
    alloc: Global,
    target: Target,
    needed: Vec<Text>,
    symbols: Vec<Symbol>,
) -> Result<Text, Memory>
    requires triple { target.triple ≡ None }
    requires needed_names { list_all is_proper_name needed.items ≡ true }
    requires names { list_all is_proper_name (names_of symbols.items) ≡ true }
{
    match Interface::new(None, target, needed, symbols) {
        Ok(interface) => match emit(alloc, &interface) {
            Ok(_bytes) => Ok(Text::new(alloc)),
            Err(cause) => cause.printed(alloc),
        },
        Err(name) => Ok(name),
    }
}

// The target of x86-64.
fn wide() -> Target
    ensures { result.triple ≡ None }
{
    target(62, Order::Little, Width::W64)
}

#[test]
fn targets_that_are_not_whole(rt: HostRuntime) -> Result<(), Fail> {
    let alloc = rt.alloc();
    let mut unknown = wide();
    unknown.machine = None;
    unknown.width = None;
    let cause = refusal(
        alloc,
        unknown,
        Vec::new(alloc),
        two_symbols(alloc, 1 << 32)?,
    )?;
    assert!(rt; cause.as_bytes() == b"TargetIncomplete(Arch)".as_slice());
    let mut no_width = wide();
    no_width.width = None;
    no_width.order = None;
    let cause = refusal(alloc, no_width, Vec::new(alloc), Vec::new(alloc))?;
    assert!(rt; cause.as_bytes() == b"TargetIncomplete(BitWidth)".as_slice());
    let mut no_order = wide();
    no_order.order = None;
    let cause = refusal(alloc, no_order, Vec::new(alloc), Vec::new(alloc))?;
    assert!(rt; cause.as_bytes() == b"TargetIncomplete(Endianness)".as_slice());
    Ok(())
}

#[test]
fn a_size_too_wide(rt: HostRuntime) -> Result<(), Fail> {
    let alloc = rt.alloc();
    let narrow = target(3, Order::Little, Width::W32);
    let cause = refusal(alloc, narrow, Vec::new(alloc), two_symbols(alloc, 1 << 32)?)?;
    assert!(rt; cause.as_bytes() == b"SizeTooWide(bar)".as_slice());
    let cause = refusal(alloc, wide(), Vec::new(alloc), two_symbols(alloc, 1 << 32)?)?;
    assert!(rt; cause.as_bytes() == b"".as_slice());
    Ok(())
}

#[test]
fn too_much(rt: HostRuntime) -> Result<(), Fail> {
    let alloc = rt.alloc();
    let many = copies(alloc, b"a", 999_999)?;
    let cause = refusal(alloc, wide(), many, two_symbols(alloc, 0)?)?;
    assert!(rt; cause.as_bytes() == b"TooManySymbols(1000001)".as_slice());
    let large = copies(alloc, b"lib-with-a-long-name-of-34-bytes.a", 1_000_000)?;
    let cause = refusal(alloc, wide(), large, Vec::new(alloc))?;
    assert!(rt; cause.as_bytes() == b"NamesTooLarge(34000000)".as_slice());
    Ok(())
}
