// Names numbered in the order of their first use.
ghost use Rattle.std.specs.Prelude.{◌≡◌, List, ℕ, map, IfOk, OnOk, [], ◌∷◌};
ghost use Rattle.cell_text.specs.CellFile.{with_name, number_of};

use indexmap::IndexSet;
use std::alloc::{AllocError, Global};

/// The number of a name, which is added where it is new.
pub(crate) fn number_name(names: &mut IndexSet<Vec<u8>>, name: Vec<u8>) -> Result<usize, AllocError>
    ensures names { OnOk result (map (λ v. v.items) names.new.keys ≡ with_name (map (λ v. v.items) names.old.keys) name.items) }
    ensures number { IfOk result (λ r. r ≡ number_of (map (λ v. v.items) names.old.keys) name.items) }
{
    let Ok((number, _)) = names.insert_full(name) else {
        return Err(AllocError);
    };
    Ok(number)
}

/// One name alone.
pub(crate) fn first_names(alloc: Global, name: &[u8]) -> Result<IndexSet<Vec<u8>>, AllocError>
    ensures { IfOk result (λ names. map (λ v. v.items) names.keys ≡ name.now ∷ []) }
{
    let mut names = IndexSet::new(alloc);
    number_name(&mut names, Vec::from_slice(alloc, name)?)?;
    Ok(names)
}
