use crate::{append_scalar, scalar_text};
use std::test::Fail;

pub const SCALARS: [(&[u8], &[u8]); 16] = [
    (b"foo", b"foo"),
    (b"_x", b"_x"),
    (b"libfoo.so", b"libfoo.so"),
    (b"", b"''"),
    (b"12", b"'12'"),
    (b"true", b"'true'"),
    (b"TRUE", b"'TRUE'"),
    (b"Off", b"'Off'"),
    (b"offset", b"offset"),
    (b"a: b", b"'a: b'"),
    (b"it's", b"'it''s'"),
    (b"\xc3\xa9", b"'\xc3\xa9'"),
    (b"foo@@V_1", b"'foo@@V_1'"),
    (b"a\t", b"\"a\\x09\""),
    (b"'\"\\\x7f", b"\"'\\\"\\\\\\x7f\""),
    (b"\x1f\x80", b"\"\\x1f\x80\""),
];

#[test]
fn scalars(rt: HostRuntime) -> Result<(), Fail> {
    for (scalar, printed) in &SCALARS {
        let text = scalar_text(rt.alloc(), scalar)?;
        assert_eq!(rt; text.as_bytes(), *printed);
    }
    Ok(())
}

#[test]
fn appends(rt: HostRuntime) -> Result<(), Fail> {
    let mut text = ifs_bytes::Text::from_slice(rt.alloc(), b"SoName: ")?;
    append_scalar(&mut text, b"null")?;
    assert_eq!(rt; text.as_bytes(), b"SoName: 'null'".as_slice());
    Ok(())
}
