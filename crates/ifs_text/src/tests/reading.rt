use crate::{print, read};
use ifs_bytes::Text;
use std::alloc::Global;
use std::test::Fail;

// The cause of a text, printed.
fn cause(alloc: Global, text: &[u8]) -> Result<Text, Fail> {
    let cause = read(alloc, text).err().ok_or("no cause")?;
    Ok(cause.copy(alloc)?.printed(alloc)?)
}

#[test]
fn whole_texts(rt: HostRuntime) -> Result<(), Fail> {
    let texts: [(&[u8], &[u8]); 8] = [
        (b"", b"NotIfs"),
        (b"--- !ifs-v1\n", b"NotIfs"),
        (b"---\nIfsVersion: 3.0\n", b"NotIfs"),
        (b"--- !ifs-v2\nIfsVersion: 3.0\n", b"NotIfs"),
        (
            b"--- !ifs-v1\nIfsVersion: 3.0\n--- !ifs-v1\nIfsVersion: 3.0\n",
            b"NotIfs",
        ),
        (b"x", b"Yaml(At(0, Shape))"),
        (b"--- !ifs-v1\nSoName: [\n", b"Yaml(At(20, Unclosed))"),
        (b"--- !tbd\n\ta\n", b"Yaml(At(9, Tab))"),
    ];
    for (text, wanted) in &texts {
        assert_eq!(rt; cause(rt.alloc(), text)?.as_bytes(), *wanted);
    }
    Ok(())
}

#[test]
fn roots(rt: HostRuntime) -> Result<(), Fail> {
    let texts: [(&[u8], &[u8]); 16] = [
        (
            b"SoName: ''\nSoName: ''\nVersion: 1",
            b"RepeatedKey(SoName)",
        ),
        (
            b"SoName: ''\nVersion: 1\nSoName: ''",
            b"UnknownKey(Version)",
        ),
        (b"SoName: ''", b"MissingKey(IfsVersion)"),
        (b"SoName: ''\nIfsVersion: 3.1", b"BadVersion"),
        (b"IfsVersion: [3]", b"BadVersion"),
        (b"IfsVersion: 3\nSoName: ''", b"BadValue(SoName)"),
        (b"IfsVersion: 3\nSoName:", b"BadValue(SoName)"),
        (b"IfsVersion: 3\nNeededLibs: a", b"BadValue(NeededLibs)"),
        (
            b"IfsVersion: 3\nNeededLibs: [a, []]\nSoName: ''",
            b"BadValue(NeededLibs)",
        ),
        (b"IfsVersion: 3\nTarget: x86_64", b"BadValue(Target)"),
        (b"IfsVersion: 3\nTarget: []", b"BadValue(Target)"),
        (
            b"IfsVersion: 3\nTarget: { Os: linux, Os: 1 }",
            b"UnknownKey(Os)",
        ),
        (
            b"IfsVersion: 3\nTarget: { ObjectFormat: elf, Arch: a }",
            b"BadValue(ObjectFormat)",
        ),
        (
            b"IfsVersion: 3\nTarget: { BitWidth: 16, Arch: EM_65536 }",
            b"BadValue(BitWidth)",
        ),
        (
            b"IfsVersion: 3\nTarget: { Endianness: Big }",
            b"BadValue(Endianness)",
        ),
        (
            b"IfsVersion: 3\nTarget: { Arch: EM_062 }",
            b"BadValue(Arch)",
        ),
    ];
    for (body, wanted) in &texts {
        let mut text = Text::from_slice(rt.alloc(), b"--- !ifs-v1\n")?;
        text.append(body)?;
        assert_eq!(rt; cause(rt.alloc(), text.as_bytes())?.as_bytes(), *wanted);
    }
    Ok(())
}

#[test]
fn symbols(rt: HostRuntime) -> Result<(), Fail> {
    let texts: [(&[u8], &[u8]); 15] = [
        (b" a", b"BadValue(Symbols)"),
        (b" [a]", b"BadValue(Symbols)"),
        (
            b" [{ Name: a, Type: X }, { Os: b }]\nSoName: ''",
            b"BadValue(Type)",
        ),
        (b" [{ Size: '', Type: Func }]", b"MissingKey(Name)"),
        (b" [{ Name: '' }]", b"MissingKey(Type)"),
        (b" [{ Name: \"a\\0\", Type: X }]", b"BadValue(Name)"),
        (
            b" [{ Name: a, Type: TLS, Version: 1 }]",
            b"UnknownKey(Version)",
        ),
        (
            b" [{ Name: a, Type: TLS, Size: 18446744073709551616 }]",
            b"BadValue(Size)",
        ),
        (b" [{ Name: a, Type: TLS, Size: 0X1 }]", b"BadValue(Size)"),
        (b" [{ Name: a, Type: TLS, Size: 0x }]", b"BadValue(Size)"),
        (b" [{ Name: a, Type: TLS, Weak: yes }]", b"BadValue(Weak)"),
        (
            b" [{ Name: a, Type: TLS, Undefined }]",
            b"BadValue(Undefined)",
        ),
        (
            b" [{ Name: a, Type: TLS, Warning: [] }]",
            b"BadValue(Warning)",
        ),
        (
            b" [{ Name: b, Type: TLS }, { Name: a, Type: TLS }, { Name: b, Type: Func }, { Name: a, Type: TLS }]",
            b"RepeatedSymbol(b)",
        ),
        (
            b" [{ Name: b, Type: TLS }, { Name: b, Type: TLS }]\nSoName: ''",
            b"BadValue(SoName)",
        ),
    ];
    for (body, wanted) in &texts {
        let mut text = Text::from_slice(rt.alloc(), b"--- !ifs-v1\nIfsVersion: 3\nSymbols:")?;
        text.append(body)?;
        assert_eq!(rt; cause(rt.alloc(), text.as_bytes())?.as_bytes(), *wanted);
    }
    Ok(())
}

#[test]
fn what_is_read(rt: HostRuntime) -> Result<(), Fail> {
    let texts: [(&[u8], &[u8]); 4] = [
        (
            b"# c\n--- !ifs-v1\nSymbols:\n- Type: TLS\n  Name: b\n  Size: 0x00fF\n  Weak: TRUE\n  Undefined: False\n  Warning: ''\n- { Name: 'a', Type: Func, Size: 007, }\nNeededLibs: [b, a, b]\nTarget: { BitWidth: '64', Arch: X86 }\nIfsVersion: '3'\n",
            b"--- !ifs-v1\nIfsVersion:      3.0\nTarget:          { ObjectFormat: ELF, Arch: i386, BitWidth: 64 }\nNeededLibs:\n  - b\n  - a\n  - b\nSymbols:\n  - { Name: a, Type: Func, Size: 7 }\n  - { Name: b, Type: TLS, Size: 255, Weak: true, Warning: '' }\n...\n",
        ),
        (
            b"--- !ifs-v1\nIfsVersion: 3.0\nTarget: x86_64-\nSymbols: []",
            b"--- !ifs-v1\nIfsVersion:      3.0\nTarget:          x86_64-\nSymbols:         []\n...\n",
        ),
        (
            b"--- !ifs-v1\nIfsVersion: 3.0\nTarget: { ObjectFormat: ELF }",
            b"--- !ifs-v1\nIfsVersion:      3.0\nSymbols:         []\n...\n",
        ),
        (
            b"--- !ifs-v1\nIfsVersion: 3.0\nSymbols: [{ Name: big, Type: Object, Size: 18446744073709551615 }]",
            b"--- !ifs-v1\nIfsVersion:      3.0\nSymbols:\n  - { Name: big, Type: Object, Size: 18446744073709551615 }\n...\n",
        ),
    ];
    for (text, wanted) in &texts {
        let interface = read(rt.alloc(), text).ok().ok_or("refused")?;
        assert_eq!(rt; print(rt.alloc(), &interface)?.as_bytes(), *wanted);
    }
    Ok(())
}

#[test]
fn printed_texts_are_read(rt: HostRuntime) -> Result<(), Fail> {
    let texts: [&[u8]; 2] = [
        b"--- !ifs-v1\nIfsVersion:      3.0\nSoName:          libfoo.so\nTarget:          { ObjectFormat: ELF, Arch: ppc, Endianness: big, BitWidth: 32 }\nSymbols:\n  - { Name: bar, Type: Object, Size: 42 }\n  - { Name: foo, Type: Func }\n...\n",
        b"--- !ifs-v1\nIfsVersion:      3.0\nSymbols:\n  - { Name: \"a\\x09\", Type: Func }\n  - { Name: 'a: b', Type: Func }\n  - { Name: 'it''s', Type: Func }\n  - { Name: 'true', Type: Func }\n  - { Name: '\xc3\xa9', Type: Func }\n...\n",
    ];
    for text in &texts {
        let interface = read(rt.alloc(), text).ok().ok_or("refused")?;
        assert_eq!(rt; print(rt.alloc(), &interface)?.as_bytes(), *text);
    }
    Ok(())
}
