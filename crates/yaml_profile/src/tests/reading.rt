use crate::YamlKind::Shape;
use crate::tests::printed::SCALARS;
use crate::tests::texts::{READ, REFUSED};
use crate::{Document, Entry, Node, YamlCause, read, scalar_text};
use ifs_bytes::{Memory, Text};
use std::alloc::Global;
use std::test::Fail;

// What reading a text answers: its documents, or the cause why it has none.
fn told(alloc: Global, text: &str) -> Result<Text, Memory> {
    match read(alloc, text.as_bytes()) {
        Ok(documents) => show(alloc, documents.as_slice()),
        Err(cause) => cause.printed(alloc),
    }
}

#[test]
fn texts(rt: HostRuntime) -> Result<(), Fail> {
    for rows in READ.iter().chain(REFUSED.iter()) {
        for row in rows.split(';') {
            let (text, answer) = row.split_once('~').ok_or("no answer")?;
            let got = told(rt.alloc(), text)?;
            assert_eq!(rt; got.as_bytes(), answer.as_bytes(), "{text}");
        }
    }
    Ok(())
}

#[test]
fn depth_of_lines(rt: HostRuntime) -> Result<(), Fail> {
    let deep = nested(rt.alloc(), 16)?;
    assert!(rt; read(rt.alloc(), deep.as_bytes()).is_ok());
    let deeper = nested(rt.alloc(), 17)?;
    let cause = read(rt.alloc(), deeper.as_bytes()).err();
    assert_eq!(rt; cause, Some(YamlCause::At(0, Shape)));
    Ok(())
}

// So many maps in one another, each further right.
fn nested(alloc: Global, depth: usize) -> Result<Text, Memory> {
    let mut out = Text::from_slice(alloc, b"---\n")?;
    for column in 0..depth {
        for _blank in 0..column {
            out.push(b' ')?;
        }
        out.append(b"a:\n")?;
    }
    Ok(out)
}

#[test]
fn printed_scalars(rt: HostRuntime) -> Result<(), Fail> {
    for (scalar, _printed) in &SCALARS {
        let text = with_scalar(rt.alloc(), scalar)?;
        let documents = read(rt.alloc(), text.as_bytes())?;
        let found = show(rt.alloc(), documents.as_slice())?;
        let meant = shown_scalar(rt.alloc(), scalar)?;
        assert_eq!(rt; found.as_bytes(), meant.as_bytes());
    }
    Ok(())
}

// A text that has a scalar as a value in flow and on a line, as a key and as an item.
fn with_scalar(alloc: Global, scalar: &[u8]) -> Result<Text, Memory> {
    let printed = scalar_text(alloc, scalar)?;
    let mut out = Text::from_slice(alloc, b"---\na: { b: ")?;
    out.append(printed.as_bytes())?;
    out.append(b", c: [ ")?;
    out.append(printed.as_bytes())?;
    out.append(b" ] }\n")?;
    out.append(printed.as_bytes())?;
    out.append(b": ")?;
    out.append(printed.as_bytes())?;
    out.append(b"\nd:\n  - ")?;
    out.append(printed.as_bytes())?;
    out.append(b"\n")?;
    Ok(out)
}

// How that text is shown.
fn shown_scalar(alloc: Global, scalar: &[u8]) -> Result<Text, Memory> {
    let mut out = Text::from_slice(alloc, b"-- {a={b=(")?;
    out.append(scalar)?;
    out.append(b")c=[(")?;
    out.append(scalar)?;
    out.append(b")]}")?;
    out.append(scalar)?;
    out.append(b"=(")?;
    out.append(scalar)?;
    out.append(b")d=[(")?;
    out.append(scalar)?;
    out.append(b")]}")?;
    Ok(out)
}

fn show(alloc: Global, documents: &[Document]) -> Result<Text, Memory> {
    let mut out = Text::new(alloc);
    for document in documents {
        out.append(b"-- ")?;
        if let Some(tag) = &document.tag {
            out.append(tag.as_bytes())?;
            out.push(b' ')?;
        }
        show_node(&mut out, &document.root, 17)?;
    }
    Ok(out)
}

#[cycle(show)]
fn show_node(out: &mut Text, node: &Node, depth: u8) -> Result<(), Memory> {
    if depth == 0 {
        return Ok(());
    }
    if let Some(text) = node.as_scalar() {
        out.push(b'(')?;
        out.append(text)?;
        out.push(b')')?;
    }
    if let Some(items) = node.as_seq() {
        out.push(b'[')?;
        show_items(out, items, depth - 1)?;
        out.push(b']')?;
    }
    if let Some(entries) = node.as_map() {
        out.push(b'{')?;
        show_entries(out, entries, depth - 1)?;
        out.push(b'}')?;
    }
    Ok(())
}

#[cycle(show)]
fn show_items(out: &mut Text, items: &[Node], depth: u8) -> Result<(), Memory> {
    for item in items {
        show_node(out, item, depth)?;
    }
    Ok(())
}

#[cycle(show)]
fn show_entries(out: &mut Text, entries: &[Entry], depth: u8) -> Result<(), Memory> {
    for entry in entries {
        out.append(entry.key.as_bytes())?;
        out.push(b'=')?;
        show_node(out, &entry.value, depth)?;
    }
    Ok(())
}
