//! The positions of imported and of exported names.

ghost use Rattle.std.specs.Prelude.{◌≡◌, ◌++◌, ◌∷◌, [], if◌then◌else◌, IfOk, OnOk};
ghost use Rattle.link_core.specs.Plan as meant;

use ifs_bytes::Memory;
use link_core::{Bound, NameRow};
use std::alloc::Global;

// Whether a name is found in a library, or when the file is loaded.
fn is_import(bound: Bound) -> bool
    ensures { result ≡ meant.is_import bound }
{
    match bound {
        Bound::Library(_) | Bound::Import => true,
        Bound::Object(_, _) | Bound::Common | Bound::Provided | Bound::Zero => false,
    }
}

// Appends a position, if a test passed there.
fn push_if(list: &mut Vec<u64>, passed: bool, i: usize) -> Result<(), Memory>
    ensures { OnOk result (list.new.items ≡ list.old.items ++ (if passed then i ∷ [] else [])) }
{
    if passed {
        list.push(i as u64)?;
    }
    Ok(())
}

/// The positions of the names that the made file wants from elsewhere.
pub fn imports_of(alloc: Global, names: &[NameRow]) -> Result<Vec<u64>, Memory>
    ensures { IfOk result (λ list. list.items
        ≡ meant.positions (λ row. meant.is_import row.bound) names.now) }
{
    let mut list = Vec::new(alloc);
    for i in 0..names.len() {
        let row = &names[i];
        push_if(&mut list, is_import(row.bound), i)?;
    }
    Ok(list)
}

/// The positions of the names that the made file defines for others.
pub fn exports_of(alloc: Global, names: &[NameRow]) -> Result<Vec<u64>, Memory>
    ensures { IfOk result (λ list. list.items ≡ meant.positions (λ row. row.exported) names.now) }
{
    let mut list = Vec::new(alloc);
    for i in 0..names.len() {
        let row = &names[i];
        push_if(&mut list, row.exported, i)?;
    }
    Ok(list)
}
