use super::*;
use ifs_bytes::{List, Memory, Text};
use std::alloc::Global;
use std::test::Fail;
use tbd_core::{
    Dylib, DylibParts, FIRST_VERSION, Named, Part, Section, SymbolKind, Tbd, TbdSymbol, TbdTarget,
    Version,
};

fn places(alloc: Global, places: &[u64]) -> Result<List<u64>, Memory> {
    Ok(List::from_vec(Vec::from_slice(alloc, places)?))
}

fn target(alloc: Global, name: &[u8]) -> Result<TbdTarget, Memory> {
    Ok(TbdTarget {
        name: Text::from_slice(alloc, name)?,
        min: None,
    })
}

fn symbol(
    alloc: Global,
    kind: SymbolKind,
    name: &[u8],
    targets: &[u64],
) -> Result<TbdSymbol, Memory> {
    Ok(TbdSymbol {
        section: Section::Exported,
        kind,
        segment: Part::Any,
        name: Text::from_slice(alloc, name)?,
        targets: places(alloc, targets)?,
    })
}

fn named(alloc: Global, name: &[u8], targets: &[u64]) -> Result<List<Named>, Memory> {
    let one = Named {
        name: Text::from_slice(alloc, name)?,
        targets: places(alloc, targets)?,
    };
    Ok(List::from_vec(vec![in alloc; one]?))
}

fn parts(
    alloc: Global,
    name: &[u8],
    targets: Vec<TbdTarget>,
    symbols: Vec<TbdSymbol>,
) -> Result<DylibParts, Memory> {
    Ok(DylibParts {
        targets: List::from_vec(targets),
        flags: List::from_vec(Vec::new(alloc)),
        install_name: Text::from_slice(alloc, name)?,
        current: FIRST_VERSION,
        compatible: FIRST_VERSION,
        swift_abi: None,
        umbrellas: List::from_vec(Vec::new(alloc)),
        clients: List::from_vec(Vec::new(alloc)),
        reexported: List::from_vec(Vec::new(alloc)),
        rpaths: List::from_vec(Vec::new(alloc)),
        symbols: List::from_vec(symbols),
    })
}

// A library for two targets.
fn foo(alloc: Global) -> Result<DylibParts, Memory> {
    let targets = vec![in alloc;
        target(alloc, b"x86_64-macos")?,
        target(alloc, b"arm64-macos")?,
    ]?;
    let symbols = vec![in alloc;
        symbol(alloc, SymbolKind::Global, b"_foo", &[0, 1])?,
        symbol(alloc, SymbolKind::Global, b"_old", &[0])?,
        symbol(alloc, SymbolKind::Weak, b"_w", &[0, 1])?,
    ]?;
    let mut parts = parts(alloc, b"/usr/lib/libfoo.dylib", targets, symbols)?;
    parts.current = Version {
        major: 1,
        minor: 2,
        sub: 3,
    };
    Ok(parts)
}

// A library for one of them.
fn bar(alloc: Global) -> Result<DylibParts, Memory> {
    let targets = vec![in alloc; target(alloc, b"x86_64-macos")?]?;
    let symbols = vec![in alloc; symbol(alloc, SymbolKind::Global, b"_bar", &[0])?]?;
    parts(alloc, b"/usr/lib/libbar.dylib", targets, symbols)
}

// The text of two libraries, or the cause why there is none.
fn told(alloc: Global, main: DylibParts, inlined: DylibParts) -> Result<Text, Fail> {
    let main = Dylib::new(main).ok().ok_or("the library")?;
    let inlined = Dylib::new(inlined).ok().ok_or("the other")?;
    let tbd = Tbd {
        main,
        inlined: List::from_vec(vec![in alloc; inlined]?),
    };
    match print(alloc, &tbd) {
        Ok(text) => Ok(text),
        Err(cause) => Ok(cause.printed(alloc)?),
    }
}

#[test]
fn two_libraries(rt: HostRuntime) -> Result<(), Fail> {
    let alloc = rt.alloc();
    let text = told(alloc, foo(alloc)?, bar(alloc)?)?;
    let wanted = b"--- !tapi-tbd\n\
        tbd-version:     4\n\
        targets:         [ x86_64-macos, arm64-macos ]\n\
        install-name:    '/usr/lib/libfoo.dylib'\n\
        current-version: 1.2.3\n\
        exports:\n  \
          - targets:         [ x86_64-macos ]\n    \
            symbols:         [ _old ]\n  \
          - targets:         [ x86_64-macos, arm64-macos ]\n    \
            symbols:         [ _foo ]\n    \
            weak-symbols:    [ _w ]\n\
        --- !tapi-tbd\n\
        tbd-version:     4\n\
        targets:         [ x86_64-macos ]\n\
        install-name:    '/usr/lib/libbar.dylib'\n\
        exports:\n  \
          - targets:         [ x86_64-macos ]\n    \
            symbols:         [ _bar ]\n\
        ...\n";
    assert_eq!(rt; text.as_bytes(), wanted.as_slice());
    Ok(())
}

// A flag goes before a run path, in whichever library each is.
#[test]
fn flags_before_run_paths(rt: HostRuntime) -> Result<(), Fail> {
    let alloc = rt.alloc();
    let mut main = bar(alloc)?;
    main.rpaths = named(alloc, b"/opt", &[0])?;
    let mut inlined = foo(alloc)?;
    inlined.flags = named(alloc, b"flat_namespace", &[1])?;
    let cause = told(alloc, main, inlined)?;
    assert_eq!(rt; cause.as_bytes(), b"NoPlace(flags)".as_slice());
    Ok(())
}
