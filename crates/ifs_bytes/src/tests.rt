use super::*;
use std::test::Fail;

#[test]
fn fields(rt: HostRuntime) {
    let bytes = [1, 2, 3, 4, 5, 6, 7, 8];
    assert_eq!(rt; get_u16(&bytes, 6, Order::Little), Some(0x0807));
    assert_eq!(rt; get_u16(&bytes, 7, Order::Little), None);
    assert_eq!(rt; get_u32(&bytes, 1, Order::Big), Some(0x02030405));
    assert_eq!(rt; get_u64(&bytes, 0, Order::Little), Some(0x0807060504030201));
    assert_eq!(rt; get_u64(&bytes, u64::MAX, Order::Little), None);
    assert_eq!(rt;
        get_word(&bytes, 4, Order::Big, Width::W32),
        Some(0x05060708)
    );
    assert_eq!(rt; get_word(&bytes, 4, Order::Big, Width::W64), None);
}

#[test]
fn names_end_in_a_nul(rt: HostRuntime) {
    assert!(rt; name_at(b"\0foo\0b", 1) == Some(b"foo".as_slice()));
    assert!(rt; name_at(b"\0foo\0b", 4) == Some(b"".as_slice()));
    assert!(rt; name_at(b"\0foo\0b", 5).is_none());
    assert!(rt; name_at(b"\0foo\0b", 6).is_none());
    assert!(rt; name_at(b"\0foo\0b", u64::MAX).is_none());
}

#[test]
fn digits_write_a_number(rt: HostRuntime) {
    assert_eq!(rt; number_of(b"007", 10), Some(7));
    assert_eq!(rt; number_of(b"fF", 16), Some(255));
    assert_eq!(rt; number_of(b"18446744073709551615", 10), Some(u64::MAX));
    for digits in [b"18446744073709551616".as_slice(), b"", b"+1", b"1 "] {
        assert_eq!(rt; number_of(digits, 10), None);
    }
}

#[test]
fn puts_and_texts(rt: HostRuntime) -> Result<(), Fail> {
    let mut out = Vec::new(rt.alloc());
    put_u16(&mut out, 0x0102, Order::Little)?;
    put_u32(&mut out, 0x03040506, Order::Big)?;
    put_u64(&mut out, 7, Order::Little)?;
    put_word(&mut out, 8, Order::Big, Width::W32)?;
    let wanted = [2, 1, 3, 4, 5, 6, 7, 0, 0, 0, 0, 0, 0, 0, 0, 0, 0, 8];
    assert_eq!(rt; out.as_slice(), wanted.as_slice());
    let mut text = Text::from_slice(rt.alloc(), b"row ")?;
    text.append_number(1042)?;
    text.push(b'!')?;
    let copy = text.copy(rt.alloc())?;
    assert!(rt; copy == text);
    assert_eq!(rt; copy.as_bytes(), b"row 1042!".as_slice());
    let list = List::from_vec(vec![in rt.alloc(); 3, 4]?);
    assert_eq!(rt; list.as_slice(), [3, 4].as_slice());
    assert!(rt; list == List::from_vec(vec![in rt.alloc(); 3, 4]?));
    assert_eq!(rt; list.into_vec().len(), 2);
    Ok(())
}
