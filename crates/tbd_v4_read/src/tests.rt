use super::*;
use ifs_bytes::Text;
use std::alloc::Global;
use std::test::Fail;

// The cause of a text, printed.
fn cause(alloc: Global, text: &[u8]) -> Result<Text, Fail> {
    let cause = read(alloc, text).err().ok_or("no cause")?;
    Ok(cause.copy(alloc)?.printed(alloc)?)
}

#[test]
fn whole_texts(rt: HostRuntime) -> Result<(), Fail> {
    let texts: [(&[u8], &[u8]); 6] = [
        (b"", b"NotTbd"),
        (b"--- !tapi-tbd-v3\ntbd-version: 4\n", b"NotTbd"),
        (b"--- !tapi-tbd\nexportz: 4\n--- !tapi-tbd\n", b"NotTbd"),
        (b"--- !tapi-tbd\ntargets: [\n", b"Yaml(At(23, Unclosed))"),
        (
            b"--- !tapi-tbd\ntargets: [x]\ninstall-name: a\ntbd-version: 4\n--- !tapi-tbd\n{}\n",
            b"MissingKey(targets)",
        ),
        (
            b"--- !tapi-tbd\ntargets: [x]\ninstall-name: a\ntbd-version: 4\nexports: [{targets: [y]}]\n\
--- !tapi-tbd\n{}\n",
            b"UnknownTarget(y)",
        ),
    ];
    for (text, wanted) in &texts {
        assert_eq!(rt; cause(rt.alloc(), text)?.as_bytes(), *wanted);
    }
    Ok(())
}

#[test]
fn libraries(rt: HostRuntime) -> Result<(), Fail> {
    let texts: [(&[u8], &[u8]); 22] = [
        (b"uuids: 1\nuuids: 1\nexportz: 1", b"RepeatedKey(uuids)"),
        (b"install-name: ''\ntbd-version: 3", b"MissingKey(targets)"),
        (b"targets: []\nflags: a", b"MissingKey(install-name)"),
        (b"targets: []\ninstall-name: ''", b"BadVersion"),
        (
            b"targets: []\ninstall-name: ''\ntbd-version: 04",
            b"BadVersion",
        ),
        (
            b"tbd-version: 4\ninstall-name: ''\ntargets: []",
            b"BadValue(install-name)",
        ),
        (
            b"tbd-version: 4\ntargets: []\ninstall-name: ''",
            b"BadValue(targets)",
        ),
        (
            b"tbd-version: 4\ntargets: [x, y, x]\ninstall-name: a",
            b"BadValue(targets)",
        ),
        (
            b"tbd-version: 4\ntargets: [x, '']\ninstall-name: a",
            b"BadValue(targets)",
        ),
        (
            b"tbd-version: 4\ntargets: x\ninstall-name: a",
            b"BadValue(targets)",
        ),
        (
            b"tbd-version: 4\ntargets: [x]\ninstall-name: \"a\\0\"",
            b"BadValue(install-name)",
        ),
        (
            b"tbd-version: 4\ntargets: [x]\ninstall-name: a\nflags: [{}]",
            b"BadValue(flags)",
        ),
        (
            b"tbd-version: 4\ntargets: [x]\ninstall-name: a\ncurrent-version: 1.256",
            b"BadValue(current-version)",
        ),
        (
            b"tbd-version: 4\ntargets: [x]\ninstall-name: a\ncompatibility-version: 65536",
            b"BadValue(compatibility-version)",
        ),
        (
            b"tbd-version: 4\ntargets: [x]\ninstall-name: a\nswift-abi-version: 256",
            b"BadValue(swift-abi-version)",
        ),
        (
            b"tbd-version: 4\ntargets: [x]\ninstall-name: a\nexports: {}",
            b"BadValue(exports)",
        ),
        (
            b"tbd-version: 4\ntargets: [x]\ninstall-name: a\nreexports: [1]",
            b"BadValue(reexports)",
        ),
        (
            b"tbd-version: 4\ntargets: [x]\ninstall-name: a\nexports: [{symbols: a, symbol: b}]",
            b"UnknownKey(symbol)",
        ),
        (
            b"tbd-version: 4\ntargets: [x]\ninstall-name: a\nparent-umbrella: [{targets: []}]",
            b"MissingKey(umbrella)",
        ),
        (
            b"tbd-version: 4\ntargets: [x]\ninstall-name: a\nallowable-clients: [{targets: []}]",
            b"BadValue(targets)",
        ),
        (
            b"tbd-version: 4\ntargets: [x]\ninstall-name: a\nexports: [{targets: [y]}]\nflags: 1",
            b"BadValue(flags)",
        ),
        (
            b"undefineds: [{targets: [x]}, {targets: [x, z]}]\ntbd-version: 4\n\
reexported-libraries: [{targets: [y]}]\ntargets: [x]\ninstall-name: a",
            b"UnknownTarget(z)",
        ),
    ];
    for (body, wanted) in &texts {
        let mut text = Text::from_slice(rt.alloc(), b"--- !tapi-tbd\n")?;
        text.append(body)?;
        assert_eq!(rt; cause(rt.alloc(), text.as_bytes())?.as_bytes(), *wanted);
    }
    Ok(())
}

#[test]
fn a_name_in_two_groups(rt: HostRuntime) -> Result<(), Fail> {
    let text = b"--- !tapi-tbd
tbd-version: 4
targets: [ x, y, z ]
install-name: a
flags: [ f, f ]
allowable-clients:
  - { targets: [ y ], clients: [ d, c ] }
  - { targets: [ x ], clients: [ d ] }
exports:
  - targets: [ z, z ]
    symbols: [ b, a ]
  - targets: [ y, x ]
    weak-symbols: [ a ]
    symbols: [ a ]
";
    let tbd = read(rt.alloc(), text)?;
    let parts = tbd.main.parts();
    let flags = parts.flags.as_slice();
    assert_eq!(rt; flags.len(), 1);
    assert_eq!(rt; flags[0].targets.as_slice(), [0, 1, 2].as_slice());
    let clients = parts.clients.as_slice();
    assert_eq!(rt; clients.len(), 2);
    assert_eq!(rt; clients[0].targets.as_slice(), [1].as_slice());
    assert_eq!(rt; clients[1].targets.as_slice(), [0, 1].as_slice());
    let symbols = parts.symbols.as_slice();
    assert_eq!(rt; symbols.len(), 3);
    assert_eq!(rt; symbols[0].targets.as_slice(), [0, 1, 2].as_slice());
    assert_eq!(rt; symbols[1].name.as_bytes(), b"b".as_slice());
    assert_eq!(rt; symbols[1].targets.as_slice(), [2].as_slice());
    assert_eq!(rt; symbols[2].targets.as_slice(), [0, 1].as_slice());
    Ok(())
}
