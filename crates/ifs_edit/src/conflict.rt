//! Whether what is given of a target agrees with what is known of it.

ghost use Rattle.std.specs.Prelude.{◌≡◌, IfOk, true, false};
ghost use Rattle.std.specs.Option.{option_copied};
ghost use Rattle.ifs_bytes.specs.Outcome.{UnlessMemory};
ghost use Rattle.ifs_interface.specs.Arch.{arch_name};
ghost use Rattle.ifs_edit.specs.Adjusted.{machines_agree, order_name, orders_agree, targets_agree, triples_agree, width_name, widths_agree};

use crate::cause::AdjustCause;
use ifs_bytes::{Memory, Order, Text, Width};
use ifs_interface::{Target, TargetField, parts, put_arch};
use std::alloc::Global;

// Ok where the given target agrees with the one that is there; else the first field that doesn't.
#[tactic(auto, unfolding(crate::specs::Adjusted::targets_agree))]
pub(crate) fn check_target(alloc: Global, there: &Target, given: &Target) -> Result<(), AdjustCause>
    ensures { UnlessMemory AdjustCause.Memory result (targets_agree there.now given.now) }
{
    check_triple(alloc, there.triple.as_ref(), given.triple.as_ref())?;
    let own = parts(there);
    let other = parts(given);
    check_machine(alloc, own.machine, other.machine)?;
    check_width(alloc, own.width, other.width)?;
    check_order(alloc, own.order, other.order)
}

fn check_triple(
    alloc: Global,
    there: Option<&Text>,
    given: Option<&Text>,
) -> Result<(), AdjustCause>
    ensures { UnlessMemory AdjustCause.Memory result (triples_agree (option_copied there.entry) (option_copied given.entry)) }
{
    let (Some(there), Some(given)) = (there, given) else {
        return Ok(());
    };
    if there == given {
        return Ok(());
    }
    Err(AdjustCause::TargetConflict(TargetField::Triple, there.copy(alloc)?, given.copy(alloc)?))
}

fn check_machine(alloc: Global, there: Option<u16>, given: Option<u16>) -> Result<(), AdjustCause>
    ensures { UnlessMemory AdjustCause.Memory result (machines_agree there given) }
{
    match (there, given) {
        (Some(there), Some(given)) if there != given => Err(AdjustCause::TargetConflict(
            TargetField::Arch,
            arch_text(alloc, there)?,
            arch_text(alloc, given)?,
        )),
        _ => Ok(()),
    }
}

fn check_width(alloc: Global, there: Option<Width>, given: Option<Width>) -> Result<(), AdjustCause>
    ensures { UnlessMemory AdjustCause.Memory result (widths_agree there given) }
{
    match (there, given) {
        (Some(there), Some(given)) if there != given => Err(AdjustCause::TargetConflict(
            TargetField::BitWidth,
            width_text(alloc, there)?,
            width_text(alloc, given)?,
        )),
        _ => Ok(()),
    }
}

fn check_order(alloc: Global, there: Option<Order>, given: Option<Order>) -> Result<(), AdjustCause>
    ensures { UnlessMemory AdjustCause.Memory result (orders_agree there given) }
{
    match (there, given) {
        (Some(there), Some(given)) if there != given => Err(AdjustCause::TargetConflict(
            TargetField::Endianness,
            order_text(alloc, there)?,
            order_text(alloc, given)?,
        )),
        _ => Ok(()),
    }
}

// The name of a machine.
fn arch_text(alloc: Global, machine: u16) -> Result<Text, Memory>
    ensures { IfOk result (λ text. text ≡ arch_name machine) }
{
    let mut text = Text::new(alloc);
    put_arch(&mut text, machine)?;
    Ok(text)
}

// How many bits an address has.
fn width_text(alloc: Global, width: Width) -> Result<Text, Memory>
    ensures { IfOk result (λ text. text ≡ width_name width) }
{
    match width {
        Width::W32 => Text::from_slice(alloc, b"32"),
        Width::W64 => Text::from_slice(alloc, b"64"),
    }
}

// The name of a byte order.
fn order_text(alloc: Global, order: Order) -> Result<Text, Memory>
    ensures { IfOk result (λ text. text ≡ order_name order) }
{
    match order {
        Order::Little => Text::from_slice(alloc, b"little"),
        Order::Big => Text::from_slice(alloc, b"big"),
    }
}
