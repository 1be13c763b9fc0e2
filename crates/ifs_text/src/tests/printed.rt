ghost use Rattle.std.specs.Prelude.{◌≡◌, IfOk};

use crate::print;
use ifs_bytes::{Memory, Order, Text, Width};
use ifs_interface::{Interface, Kind, Symbol, Target};
use std::alloc::Global;
use std::test::Fail;

fn symbol(
    alloc: Global,
    name: &[u8],
    kind: Kind,
    size: Option<u64>,
    weak: bool,
    undefined: bool,
) -> Result<Symbol, Memory>
    ensures { IfOk result (λ symbol. symbol.name ≡ name.now) }
{
    Ok(Symbol {
        name: Text::from_slice(alloc, name)?,
        kind,
        size,
        weak,
        undefined,
        warning: None,
    })
}

fn x86_64() -> Target
    ensures { result ≡ record { triple = None; machine = Some 62; order = Some Order.Little; width = Some Width.W64 } }
{
    Target {
        triple: None,
        machine: Some(62),
        order: Some(Order::Little),
        width: Some(Width::W64),
    }
}

#[test]
fn two_symbols(rt: HostRuntime) -> Result<(), Fail> {
    let alloc = rt.alloc();
    let foo = symbol(alloc, b"foo", Kind::Func, None, false, false)?;
    let bar = symbol(alloc, b"bar", Kind::Object, Some(42), false, false)?;
    let soname = Text::from_slice(alloc, b"libfoo.so")?;
    let symbols = vec![in alloc; foo, bar]?;
    let made = Interface::new(Some(soname), x86_64(), Vec::new(alloc), symbols);
    let text = print(alloc, &made.ok().ok_or("repeated")?)?;
    let wanted = b"--- !ifs-v1\n\
        IfsVersion:      3.0\n\
        SoName:          libfoo.so\n\
        Target:          { ObjectFormat: ELF, Arch: x86_64, Endianness: little, BitWidth: 64 }\n\
        Symbols:\n  \
          - { Name: bar, Type: Object, Size: 42 }\n  \
          - { Name: foo, Type: Func }\n\
        ...\n";
    assert_eq!(rt; text.as_bytes(), wanted.as_slice());
    Ok(())
}

#[test]
fn nothing(rt: HostRuntime) -> Result<(), Fail> {
    let alloc = rt.alloc();
    let target = Target {
        triple: None,
        machine: None,
        order: None,
        width: None,
    };
    let made = Interface::new(None, target, Vec::new(alloc), Vec::new(alloc));
    let text = print(alloc, &made.ok().ok_or("repeated")?)?;
    let wanted = b"--- !ifs-v1\n\
        IfsVersion:      3.0\n\
        Symbols:         []\n\
        ...\n";
    assert_eq!(rt; text.as_bytes(), wanted.as_slice());
    Ok(())
}

#[test]
#[tactic(auto, unfolding(ifs_interface::specs::Triple::parts_of_triple, ifs_interface::specs::Triple::triple_machines))]
fn names_in_quotes(rt: HostRuntime) -> Result<(), Fail> {
    let alloc = rt.alloc();
    let target = Target {
        triple: Some(Text::from_slice(alloc, b"aarch64-linux-gnu")?),
        machine: None,
        order: None,
        width: None,
    };
    let needed = vec![in alloc;
        Text::from_slice(alloc, b"a: b")?,
        Text::from_slice(alloc, b"c")?,
    ]?;
    let mut yes = symbol(alloc, b"yes", Kind::NoType, None, true, true)?;
    yes.warning = Some(Text::from_slice(alloc, b"it's old")?);
    let tab = symbol(alloc, b"a\t", Kind::Tls, Some(8), true, false)?;
    let other = symbol(alloc, b"\xc3\xa9", Kind::Unknown, None, false, true)?;
    let symbols = vec![in alloc; other, yes, tab]?;
    let made = Interface::new(None, target, needed, symbols);
    let text = print(alloc, &made.ok().ok_or("repeated")?)?;
    let wanted = b"--- !ifs-v1\n\
        IfsVersion:      3.0\n\
        Target:          aarch64-linux-gnu\n\
        NeededLibs:\n  \
          - 'a: b'\n  \
          - c\n\
        Symbols:\n  \
          - { Name: \"a\\x09\", Type: TLS, Size: 8, Weak: true }\n  \
          - { Name: 'yes', Type: NoType, Undefined: true, Weak: true, Warning: 'it''s old' }\n  \
          - { Name: '\xc3\xa9', Type: Unknown, Undefined: true }\n\
        ...\n";
    assert_eq!(rt; text.as_bytes(), wanted.as_slice());
    Ok(())
}
