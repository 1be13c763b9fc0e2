//! Tests on single bytes (YAML 1.2, "Character Productions").

ghost use Rattle.std.specs.Prelude.{◌≡◌, ◌==◌, ◌≤◌, length, drop};
ghost use Rattle.yaml_tokens.specs.Bytes.{is_blank, begins, blanks, is_quote, is_open, is_close, is_flow, is_left_out, is_bad};

/// Whether a byte is a space or a tab.
#[tactic(auto, unfolding(crate::specs::Bytes::is_blank))]
pub fn is_blank(byte: u8) -> bool
    ensures { result ≡ is_blank byte }
{
    byte == b' ' || byte == b'\t'
}

/// How many blanks stand at the front.
pub fn blanks(bytes: &[u8]) -> usize
    ensures value { result ≡ blanks bytes.now }
    ensures within { result ≤ length bytes.now }
{
    let mut size = 0;
    let mut rest = bytes;
    while let [byte, after @ ..] = rest {
        if !is_blank(*byte) {
            break;
        }
        size += 1;
        rest = after;
    }
    size
}

/// Whether the first byte is this one.
pub fn begins_with(bytes: &[u8], byte: u8) -> bool
    ensures { result ≡ begins (λ b. b == byte) bytes.now }
{
    match bytes {
        [] => false,
        [first, ..] => *first == byte,
    }
}

/// Whether a blank stands first.
pub fn begins_blank(bytes: &[u8]) -> bool
    ensures { result ≡ begins is_blank bytes.now }
{
    match bytes {
        [] => false,
        [first, ..] => is_blank(*first),
    }
}

/// Whether an opening bracket stands first.
pub fn begins_open(bytes: &[u8]) -> bool
    ensures { result ≡ begins is_open bytes.now }
{
    match bytes {
        [] => false,
        [first, ..] => is_open(*first),
    }
}

/// Whether a byte is a quote.
#[tactic(auto, unfolding(crate::specs::Bytes::is_quote))]
pub fn is_quote(byte: u8) -> bool
    ensures { result ≡ is_quote byte }
{
    byte == b'\'' || byte == b'"'
}

/// Whether a byte is `{` or `[`.
#[tactic(auto, unfolding(crate::specs::Bytes::is_open))]
pub fn is_open(byte: u8) -> bool
    ensures { result ≡ is_open byte }
{
    byte == b'{' || byte == b'['
}

/// Whether a byte is `}` or `]`.
#[tactic(auto, unfolding(crate::specs::Bytes::is_close))]
pub fn is_close(byte: u8) -> bool
    ensures { result ≡ is_close byte }
{
    byte == b'}' || byte == b']'
}

/// Whether a byte is an indicator of flow: a bracket or a comma.
#[tactic(auto, unfolding(crate::specs::Bytes::is_flow))]
pub fn is_flow(byte: u8) -> bool
    ensures { result ≡ is_flow byte }
{
    is_open(byte) || is_close(byte) || byte == b','
}

/// Whether a byte begins a form that the profile leaves out.
#[tactic(auto, unfolding(crate::specs::Bytes::is_left_out))]
pub fn is_left_out(byte: u8) -> bool
    ensures { result ≡ is_left_out byte }
{
    byte == b'&'
        || byte == b'*'
        || byte == b'!'
        || byte == b'|'
        || byte == b'>'
        || byte == b'%'
        || byte == b'@'
        || byte == b'`'
}

/// Whether a byte may stand in no text, where `rest` follows it.
#[tactic(auto, unfolding(crate::specs::Bytes::is_bad))]
pub fn is_bad(byte: u8, rest: &[u8]) -> bool
    ensures { result ≡ is_bad byte rest.now }
{
    if byte == b'\r' {
        !begins_with(rest, b'\n')
    } else {
        byte < 0x20 && !(byte == b'\t' || byte == b'\n')
    }
}

/// What stands behind the first `count` bytes, or nothing where there are no more.
pub fn behind(bytes: &[u8], count: usize) -> &[u8]
    ensures { result.now ≡ drop count bytes.now }
{
    if count <= bytes.len() {
        let (_, rest) = bytes.split_at(count);
        rest
    } else {
        &[]
    }
}
