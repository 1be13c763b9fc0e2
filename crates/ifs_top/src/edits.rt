//! What the words change of interfaces: inputs are merged, adjusted, and in a text their targets are stripped.

ghost use Rattle.std.specs.Prelude.{◌≡◌, ◌<◌, ◌∷◌, [], codes, length, IfOk, Ok};
ghost use Rattle.ifs_bytes.specs.Outcome.{UnlessMemory};
ghost use Rattle.ifs_edit.specs.Adjusted.{adjusted};
ghost use Rattle.ifs_edit.specs.Merged.{merged};
ghost use Rattle.ifs_edit.specs.Printed.{printed_adjust_cause, printed_merge_cause};
ghost use Rattle.ifs_edit.specs.Stripped.{stripped};
ghost use Rattle.ifs_text.specs.Printed.{printed_interface};
ghost use Rattle.ifs_words.specs.Usable.{IsUsable};
ghost use Rattle.ifs_top.specs.declared.refusal.Refusal.TheVariants as refusals;
ghost use Rattle.ifs_top.specs.Refused.{or_refused};
ghost use Rattle.ifs_top.specs.Unchanged.{changes_nothing, gives_nothing, keeps_all, strips_nothing};

use crate::refusal::{Refusal, refuse};
use ifs_bytes::{List, Memory, Text};
use ifs_edit::{AdjustCause, AdjustOptions, MergeCause, Strip, adjust, merge, strip_target};
use ifs_interface::{Interface, Target};
use ifs_text::print;
use std::alloc::Global;

/// What the inputs are together; one alone is itself, and isn't copied.
pub fn merged(alloc: Global, interfaces: List<Interface>) -> Result<Interface, Refusal>
    requires { 0 < length interfaces }
    ensures { UnlessMemory refusals.Memory result (or_refused (codes "merge") printed_merge_cause (merged interfaces)) }
{
    let mut list = interfaces.into_vec();
    if list.len() == 1 {
        return Ok(alone(list.swap_remove(0)));
    }
    match merge(alloc, list.as_slice()) {
        Ok(interface) => Ok(interface),
        Err(MergeCause::Memory) => Err(Refusal::Memory),
        Err(cause) => {
            let text = cause.printed(alloc)?;
            Err(refuse(alloc, b"merge", text.as_bytes(), 1))
        }
    }
}

// The interface, which is what it is merged alone.
fn alone(interface: Interface) -> Interface
    ensures same { result ≡ interface }
    ensures merged { merged (interface ∷ []) ≡ Ok interface }
{
    let _own = interface.symbols();
    interface
}

// Whether options change nothing.
fn changes_nothing(options: &AdjustOptions) -> bool
    ensures { result ≡ changes_nothing options.now }
{
    gives_nothing(&options.given) && options.soname.is_none() && keeps_all(options)
}

// Whether nothing of a target is given.
fn gives_nothing(given: &Target) -> bool
    ensures { result ≡ gives_nothing given.now }
{
    given.triple.is_none()
        && given.machine.is_none()
        && given.order.is_none()
        && given.width.is_none()
}

// Whether no symbol, needed library or size is left out.
fn keeps_all(options: &AdjustOptions) -> bool
    ensures { result ≡ keeps_all options.now }
{
    options.exclude.as_slice().is_empty()
        && !options.strip_undefined
        && !options.strip_needed
        && !options.strip_size
}

/// The interface under the options of the words. Where they change nothing it isn't copied.
pub fn adjusted(
    alloc: Global,
    interface: Interface,
    options: &AdjustOptions,
) -> Result<Interface, Refusal>
    requires { IsUsable options.now }
    ensures { UnlessMemory refusals.Memory result (or_refused (codes "adjust") printed_adjust_cause (adjusted interface options.now)) }
{
    if changes_nothing(options) {
        return Ok(interface);
    }
    match adjust(alloc, &interface, options) {
        Ok(interface) => Ok(interface),
        Err(AdjustCause::Memory) => Err(Refusal::Memory),
        Err(cause) => {
            let text = cause.printed(alloc)?;
            Err(refuse(alloc, b"adjust", text.as_bytes(), 1))
        }
    }
}

/// The text of the interface with what is left of its target.
pub fn stripped_text(alloc: Global, interface: &Interface, strip: &Strip) -> Result<Text, Memory>
    ensures { IfOk result (λ text. text ≡ printed_interface (stripped interface.now strip.now)) }
{
    if strips_nothing(strip) {
        print(alloc, interface)
    } else {
        print(alloc, &strip_target(alloc, interface, strip)?)
    }
}

// Whether all of a target is left.
fn strips_nothing(strip: &Strip) -> bool
    ensures { result ≡ strips_nothing strip.now }
{
    !(strip.arch || strip.width || strip.order || strip.target)
}
