//! The names of output sections.

ghost use Rattle.std.specs.Prelude.{◌≡◌, map};
ghost use Rattle.std.specs.List.{find};
ghost use Rattle.std.specs.Option.{option_copied};
ghost use Rattle.link_core.specs.OutputNames as meant;

// The names under which sections are put together.
const JOINED: [&[u8]; 12] = [
    b".text",
    b".rodata",
    b".data.rel.ro",
    b".data",
    b".bss",
    b".tdata",
    b".tbss",
    b".init_array",
    b".fini_array",
    b".preinit_array",
    b".gcc_except_table",
    b".eh_frame",
];

// Whether these bytes are none, or begin with a dot.
fn is_suffix(bytes: &[u8]) -> bool
    ensures { result ≡ meant.is_suffix bytes.now }
{
    match bytes {
        [] => true,
        [first, ..] => *first == b'.',
    }
}

// Whether the name is the prefix, or begins with it and a dot.
fn falls_under(name: &[u8], prefix: &[u8]) -> bool
    ensures { result ≡ meant.falls_under name.now prefix.now }
{
    match name.strip_prefix(prefix) {
        Some(rest) => is_suffix(rest),
        None => false,
    }
}

// The first of the prefixes that the name falls under.
fn first_over<'a>(name: &[u8], prefixes: &[&'a [u8]]) -> Option<&'a [u8]>
    ensures { option_copied result ≡ find (meant.falls_under name.now) (map (λ prefix. prefix.now) prefixes.now) }
{
    for prefix in prefixes {
        if falls_under(name, prefix) {
            return Some(prefix);
        }
    }
    None
}

/// The name of the output section that an input section of this name goes to: the first of `.text`, `.rodata`,
/// `.data.rel.ro`, `.data`, `.bss`, `.tdata`, `.tbss`, `.init_array`, `.fini_array`, `.preinit_array`,
/// `.gcc_except_table` and `.eh_frame` that the name is or begins with before a dot, else the name.
#[tactic(auto, unfolding(link_core::specs::OutputNames::output_name, link_core::specs::OutputNames::joined_names))]
pub fn output_name(name: &[u8]) -> &[u8]
    ensures { result.now ≡ meant.output_name name.now }
{
    match first_over(name, &JOINED) {
        Some(joined) => joined,
        None => name,
    }
}
