//! The names that a link itself provides.

ghost use Rattle.std.specs.Prelude.{◌≡◌, ◌&&◌};
ghost use Rattle.std.specs.List as lists;
ghost use Rattle.std.specs.Option.{option_copied};
ghost use Rattle.ifs_interface.specs.Triple.{same_name};
ghost use Rattle.link_core.specs.OutputNames as outputs;
ghost use Rattle.link_core.specs.Provided as provided;
ghost use Rattle.link_names.specs.Bounds.{AreInOrder, arrays, ends, has_name, is_provided_by, starts};

// Where the made file and its tables start.
#[tactic(auto, unfolding(crate::specs::Bounds::starts))]
fn is_a_start(name: &[u8]) -> bool
    ensures { result ≡ lists.list_any (same_name name.now) starts }
{
    name == b"_GLOBAL_OFFSET_TABLE_".as_slice()
        || name == b"_DYNAMIC".as_slice()
        || name == b"__ehdr_start".as_slice()
        || name == b"__executable_start".as_slice()
        || name == b"__dso_handle".as_slice()
}

// Where its parts end.
#[tactic(auto, unfolding(crate::specs::Bounds::ends))]
fn is_an_end(name: &[u8]) -> bool
    ensures { result ≡ lists.list_any (same_name name.now) ends }
{
    name == b"_etext".as_slice()
        || name == b"etext".as_slice()
        || name == b"__bss_start".as_slice()
        || name == b"_edata".as_slice()
        || name == b"edata".as_slice()
        || name == b"_end".as_slice()
        || name == b"end".as_slice()
}

// The bounds of its arrays of functions.
#[tactic(auto, unfolding(crate::specs::Bounds::arrays))]
fn is_an_array(name: &[u8]) -> bool
    ensures { result ≡ lists.list_any (same_name name.now) arrays }
{
    name == b"__preinit_array_start".as_slice()
        || name == b"__preinit_array_end".as_slice()
        || name == b"__init_array_start".as_slice()
        || name == b"__init_array_end".as_slice()
        || name == b"__fini_array_start".as_slice()
        || name == b"__fini_array_end".as_slice()
}

// Whether the name is provided in every link.
#[tactic(auto, using(crate::proofs::Bounds::places_by_parts))]
fn is_a_place(name: &[u8]) -> bool
    ensures { result ≡ lists.list_any (same_name name.now) provided.always_provided }
{
    is_a_start(name) || is_an_end(name) || is_an_array(name)
}

// The bytes behind a prefix.
#[tactic(auto, using(crate::proofs::Bounds::none_behind))]
fn behind<'a>(prefix: &[u8], name: &'a [u8]) -> Option<&'a [u8]>
    ensures { option_copied result ≡ outputs.behind prefix.now name.now }
{
    if name.len() < prefix.len() {
        return None;
    }
    let (front, rest) = name.split_at(prefix.len());
    if front == prefix { Some(rest) } else { None }
}

// N of `__start_N` and `__stop_N`.
#[tactic(auto, unfolding(link_core::specs::Provided::bounded_name))]
fn bounded_name(name: &[u8]) -> Option<&[u8]>
    ensures { option_copied result ≡ provided.bounded_name name.now }
{
    match behind(b"__start_", name) {
        Some(section) => Some(section),
        None => behind(b"__stop_", name),
    }
}

// A letter or `_`.
fn is_word_start(byte: u8) -> bool
    ensures { result ≡ provided.is_word_start byte }
{
    (65 <= byte && byte <= 90) || (97 <= byte && byte <= 122) || byte == 95
}

// A letter, a digit or `_`.
fn is_word_byte(byte: u8) -> bool
    ensures { result ≡ provided.is_word_byte byte }
{
    is_word_start(byte) || (48 <= byte && byte <= 57)
}

// Whether all are letters, digits or `_`.
fn are_word_bytes(bytes: &[u8]) -> bool
    ensures { result ≡ lists.list_all provided.is_word_byte bytes.now }
{
    bytes.iter().all(|byte| is_word_byte(*byte))
}

// Whether the name is an identifier of C.
#[tactic(auto, unfolding(link_core::specs::Provided::is_identifier))]
fn is_identifier(name: &[u8]) -> bool
    ensures { result ≡ provided.is_identifier name.now }
{
    match name {
        [] => false,
        [first, others @ ..] => is_word_start(*first) && are_word_bytes(others),
    }
}

// Whether the name is one of those, which stand in byte order.
fn has_name(names: &[&[u8]], name: &[u8]) -> bool
    requires { AreInOrder names.now }
    ensures { result ≡ has_name name.now names.now }
{
    match names.binary_search_by(|n| n.cmp(name)) {
        Ok(_place) => true,
        Err(_place) => false,
    }
}

/// Whether the link provides the name: always, or as a bound of one of the output sections of these names, which
/// stand in byte order.
pub fn is_provided(sections: &[&[u8]], name: &[u8]) -> bool
    requires { AreInOrder sections.now }
    ensures { result ≡ is_provided_by sections.now name.now }
{
    if is_a_place(name) {
        return true;
    }
    match bounded_name(name) {
        Some(section) => is_identifier(section) && has_name(sections, section),
        None => false,
    }
}
