//! What a library says of a name.

ghost use Rattle.std.specs.Prelude.{◌≡◌};
ghost use Rattle.ifs_interface.specs.Facts.{fact_of_type, fact_of_kind};

use crate::symbol::Kind;

/// What a defined name is.
#[derive(Clone, Copy, Debug, PartialEq, Eq)]
pub enum Fact {
    /// Nothing is said, or a type other than the three below (STT_NOTYPE).
    NoType,
    /// Code that is called, STT_FUNC.
    Func,
    /// Data, STT_OBJECT.
    Object,
    /// Thread-local data, STT_TLS.
    Tls,
}

/// What a defined name is by its type, the low half of st_info.
pub fn fact_of_type(type_number: u8) -> Fact
    ensures { result ≡ fact_of_type type_number }
{
    match type_number {
        1 => Fact::Object,
        2 => Fact::Func,
        6 => Fact::Tls,
        _ => Fact::NoType,
    }
}

/// What a defined symbol is.
pub fn fact_of_kind(kind: Kind) -> Fact
    ensures { result ≡ fact_of_kind kind }
{
    match kind {
        Kind::NoType | Kind::Unknown => Fact::NoType,
        Kind::Func => Fact::Func,
        Kind::Object => Fact::Object,
        Kind::Tls => Fact::Tls,
    }
}
