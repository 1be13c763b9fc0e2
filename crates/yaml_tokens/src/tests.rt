use super::*;
use YamlKind::{BadByte, BadEscape, Tab, Unclosed, Unsupported};
use ifs_bytes::{Memory, Text};
use std::alloc::Global;
use std::test::Fail;

#[test]
fn faults(rt: HostRuntime) {
    let texts: [(&[u8], Option<Fault>); 12] = [
        (b"--- !x\na: 1\n", None),
        (b"", None),
        (b"---\n \ta: 1\n", Some(Fault { at: 5, kind: Tab })),
        (b"\ta\n", Some(Fault { at: 0, kind: Tab })),
        (b"---\n{\n\ta: 1}\n\t# c\n", None),
        (
            b"# \x01\n",
            Some(Fault {
                at: 2,
                kind: BadByte,
            }),
        ),
        (
            b"---\na\rb",
            Some(Fault {
                at: 5,
                kind: BadByte,
            }),
        ),
        (b"---\n\t\r", Some(Fault { at: 4, kind: Tab })),
        (
            b"---\r\na: 'b''\r\nc: 'd'\r\n",
            Some(Fault {
                at: 8,
                kind: Unclosed,
            }),
        ),
        (
            b"---\n[[]\n---\n]",
            Some(Fault {
                at: 4,
                kind: Unclosed,
            }),
        ),
        (
            b"--- !ifs-v1\n[[[[[[[[[[[[[[[[[]]]]]]]]]]]]]]]]\n",
            Some(Fault {
                at: 12,
                kind: Unclosed,
            }),
        ),
        (b"---\n{]\n{}", None),
    ];
    for (text, fault) in &texts {
        assert_eq!(rt; find_fault(text), *fault);
    }
}

#[test]
fn more_faults(rt: HostRuntime) {
    let texts: [(&[u8], Option<Fault>); 12] = [
        (
            b"---\n\"\\x\"",
            Some(Fault {
                at: 5,
                kind: BadEscape,
            }),
        ),
        (
            b"---\n\"\\ud800\\q\"",
            Some(Fault {
                at: 5,
                kind: BadEscape,
            }),
        ),
        (b"---\n\"\\U0010FFFF\\ud7ff\\x00\\ \\\\\"", None),
        (
            b"---\n\"\\U00110000\"",
            Some(Fault {
                at: 5,
                kind: BadEscape,
            }),
        ),
        (
            b"---\n\"a\\\nb\"",
            Some(Fault {
                at: 4,
                kind: Unclosed,
            }),
        ),
        (
            b"%YAML 1.2\n---\n&a b",
            Some(Fault {
                at: 14,
                kind: Unsupported,
            }),
        ),
        (
            b"---\na: !x y\n? z",
            Some(Fault {
                at: 7,
                kind: Unsupported,
            }),
        ),
        (
            b"---\n? z",
            Some(Fault {
                at: 4,
                kind: Unsupported,
            }),
        ),
        (b"---\n?\n[?]", None),
        (b"---\n{\"a\" # c\n :b}\n'it''s' # '\n", None),
        (
            b"---\n{a: 'x#\n}'}",
            Some(Fault {
                at: 8,
                kind: Unclosed,
            }),
        ),
        (b"---\n[a\n--- !\n]\n...\n[", None),
    ];
    for (text, fault) in &texts {
        assert_eq!(rt; find_fault(text), *fault);
    }
}

#[test]
fn cuts(rt: HostRuntime) -> Result<(), Fail> {
    let texts: [(&[u8], &[u8]); 14] = [
        (
            b"--- !ifs-v1 # c\r\na:  b c \r\n",
            b"begin 0 !ifs-v1; line 0; (a); :; (b c)",
        ),
        (
            b"---\t\n-  a: 1\n- # c\n  - b",
            b"begin 0; line 0; - 3; (a); :; (1); line 0; - 2; line 2; - 4; (b)",
        ),
        (
            b"---\n{a:[b]}",
            b"begin 0; line 0; {; (a); other 58; [; (b); ]; }",
        ),
        (
            b"---\n{\"a\":[b],c:,d: {}}",
            b"begin 0; line 0; {; (a); :; [; (b); ]; ,; (c); :; ,; (d); :; {; }; }",
        ),
        (
            b"---\n{'a'\n :b:c, :d}",
            b"begin 0; line 0; {; (a); :; (b:c); ,; (:d); }",
        ),
        (
            b"---\na:b: c:\n-b: -",
            b"begin 0; line 0; (a:b); :; (c); :; line 0; (-b); :; - 5",
        ),
        (
            b"---\n'it''s' #'\n\"\\x41\\u00e9\\U0001f600\\t\\/\"",
            b"begin 0; line 0; (it's); line 0; (A\xc3\xa9\xf0\x9f\x98\x80\t/)",
        ),
        (
            b"---\na#b #c\n  {a\n #\n}}[",
            b"begin 0; line 0; (a#b); line 2; {; (a); }; }; [",
        ),
        (
            b"x\n--- !a b\n ---\n---!a",
            b"stray 0; stray 2; stray 11; stray 16",
        ),
        (
            b"---\n...  # c\n...\n--- !b\t#c\n--- !\n--- !# ",
            b"begin 0; stray 13; begin 17 !b; line 0; (--- !); begin 33 !#",
        ),
        (
            b"---\n-\n?\na,b'c\n'a'b",
            b"begin 0; line 0; - 1; line 0; other 63; line 0; (a,b'c); line 0; (a); (b)",
        ),
        (
            b"---\n[a, 'b' ,\"\", ]\n  # c\n",
            b"begin 0; line 0; [; (a); ,; (b); ,; (); ,; ]",
        ),
        (b"---\n[#\n# c\n#]", b"begin 0; line 0; [; other 35"),
        (
            b"---\n[-, - a]",
            b"begin 0; line 0; [; other 45; ,; other 45; (a); ]",
        ),
    ];
    for (text, printed) in &texts {
        let found = show(rt.alloc(), Tokens::new(text))?;
        assert_eq!(rt; found.as_bytes(), *printed);
    }
    Ok(())
}

fn show(alloc: Global, tokens: Tokens<'_>) -> Result<Text, Memory> {
    let mut out = Text::new(alloc);
    let mut rest = tokens;
    while let Some((token, after)) = rest.split() {
        if !out.as_bytes().is_empty() {
            out.append(b"; ")?;
        }
        show_token(alloc, &mut out, &token)?;
        rest = after;
    }
    Ok(out)
}

fn show_token(alloc: Global, out: &mut Text, token: &Token) -> Result<(), Memory> {
    match token {
        Token::Begin(at, tag) => {
            show_number(out, b"begin ", *at)?;
            match tag {
                Some(tag) => {
                    out.push(b' ')?;
                    show_text(alloc, out, tag)
                }
                None => Ok(()),
            }
        }
        Token::Stray(at) => show_number(out, b"stray ", *at),
        Token::Line(column) => show_number(out, b"line ", *column),
        Token::Dash(column) => show_number(out, b"- ", *column),
        Token::Colon => out.push(b':'),
        Token::Comma => out.push(b','),
        Token::OpenMap => out.push(b'{'),
        Token::CloseMap => out.push(b'}'),
        Token::OpenSeq => out.push(b'['),
        Token::CloseSeq => out.push(b']'),
        Token::Scalar(text) => {
            out.push(b'(')?;
            show_text(alloc, out, text)?;
            out.push(b')')
        }
        Token::Other(byte) => show_number(out, b"other ", u64::from(*byte)),
    }
}

fn show_text(alloc: Global, out: &mut Text, written: &Written) -> Result<(), Memory> {
    let text = written.text(alloc)?;
    out.append(text.as_bytes())
}

fn show_number(out: &mut Text, word: &[u8], number: u64) -> Result<(), Memory> {
    out.append(word)?;
    out.append_number(number)
}
