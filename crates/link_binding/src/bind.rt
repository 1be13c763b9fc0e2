//! What a name is bound to.

ghost use Rattle.std.specs.Prelude.{◌≡◌, ◌≤◌, [], length, option_map};
ghost use Rattle.link_core.specs.Binding.{Defined, Unbound, among_libraries, among_objects, binding_of};
ghost use Rattle.link_binding.specs.Bind.{bind_of};
ghost use Rattle.link_binding.specs.Libraries.{libraries_seen};

use crate::library::{HeldLib, first_library};
use ifs_interface::{Fact, SharedLib, fact_of_type};
use link_core::{Bound, STV_DEFAULT};
use link_mentions::{
    Mention, are_weak, first_definition, first_strong_definition, has_common, is_first_threaded,
    strictest,
};

/// What a name is bound to, and what it is.
#[derive(Clone, Copy, Debug, PartialEq, Eq)]
pub struct Bind {
    /// What it is bound to.
    pub bound: Bound,
    /// What it is.
    pub class: Fact,
}

// A name that a mention defines.
fn defined(mention: &Mention) -> Bind
    ensures { result ≡ bind_of (Defined mention.now) [] }
{
    Bind {
        bound: Bound::Object(mention.object(), mention.row()),
        class: fact_of_type(mention.kind()),
    }
}

// What objects bind a name to: the first definition that isn't weak, else room, else the first definition.
fn own_bind(mentions: &[Mention]) -> Option<Bind>
    ensures { result ≡ option_map (λ b. bind_of b []) (among_objects mentions.now) }
{
    if let Some(mention) = first_strong_definition(mentions) {
        return Some(defined(mention));
    }
    if has_common(mentions) {
        return Some(Bind {
            bound: Bound::Common,
            class: Fact::Object,
        });
    }
    match first_definition(mentions) {
        Some(mention) => Some(defined(mention)),
        None => None,
    }
}

// A name for which there is nothing.
fn unbound(mentions: &[Mention]) -> Bind
    ensures { result ≡ bind_of Unbound mentions.now }
{
    if are_weak(mentions) {
        return Bind {
            bound: Bound::Zero,
            class: Fact::NoType,
        };
    }
    let class = if is_first_threaded(mentions) {
        Fact::Tls
    } else {
        Fact::NoType
    };
    Bind {
        bound: Bound::Import,
        class,
    }
}

// What libraries bind a name to, which has to be of default visibility.
fn library_bind<S: SharedLib>(
    libs: &[HeldLib<S>],
    name: &[u8],
    mentions: &[Mention],
) -> Option<Bind>
    requires { length libs.now ≤ 256 }
    ensures { result ≡ option_map (λ b. bind_of b mentions.now)
        (among_libraries (libraries_seen S.facts libs.now) name.now mentions.now) }
{
    if strictest(mentions) != STV_DEFAULT {
        return None;
    }
    match first_library(libs, name) {
        Some((library, class)) => Some(Bind {
            bound: Bound::Library(library),
            class,
        }),
        None => None,
    }
}

/// What a name with these mentions is bound to: by an object, else by the link itself where it provides the
/// name, else by the first library that defines it.
#[tactic(auto, unfolding(link_core::specs::Binding::binding_of))]
pub fn bind_name<S: SharedLib>(
    provided: bool,
    libs: &[HeldLib<S>],
    name: &[u8],
    mentions: &[Mention],
) -> Bind
    requires { length libs.now ≤ 256 }
    ensures { result ≡ bind_of (binding_of (λ _. provided) (libraries_seen S.facts libs.now) name.now mentions.now) mentions.now }
{
    if let Some(own) = own_bind(mentions) {
        return own;
    }
    if provided {
        return Bind {
            bound: Bound::Provided,
            class: Fact::NoType,
        };
    }
    match library_bind(libs, name, mentions) {
        Some(taken) => taken,
        None => unbound(mentions),
    }
}
