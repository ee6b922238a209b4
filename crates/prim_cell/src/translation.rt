// The pure translations.

ghost use Rattle.std.specs.Prelude.{◌≡◌, ◌↔◌, ◌<◌, ◌⊎◌, length, IfOk, OnOk};
ghost use Rattle.lists.specs.Increasing.{IsMember};
ghost use Rattle.crystal_spec.specs.Matrices.{identity};
ghost use Rattle.crystal_spec.specs.Operations.{Operation};
ghost use Rattle.crystal.specs.Actions.{ActsOn};
ghost use Rattle.basis_spec.specs.Translations.{ListsPureTranslations};
ghost use Rattle.prim_cell.specs.Candidates.{IsOnto};

use crystal::{Action, Cell, Failure, Places, Sign};
use matrix3::Mat3;
use op_group::{Op, OpList};
use positions::between;
use std::alloc::{AllocError, Global};

/// Puts the translation that carries one atom onto another of its species into the list, where it keeps the crystal.
fn add_onto(
    places: &Places,
    action: &Action,
    from: usize,
    onto: usize,
    found: &mut OpList,
    last: &mut Failure,
) -> Result<(), AllocError>
    requires identity { action.now.matrix ≡ identity }
    requires acts { ActsOn places.now action.now }
    requires from { from < length places.now.atoms }
    requires onto { onto < length places.now.atoms }
    requires n { found.old.n ≡ places.now.n }
    ensures n { found.new.n ≡ places.now.n }
    ensures members { OnOk result ((o : Operation) → IsMember o found.new.operations ↔ (IsOnto places.now from onto o ⊎ IsMember o found.old.operations)) }
{
    let cell = places.cell();
    cell.invariant();
    let first = cell.atom(from);
    let atom = cell.atom(onto);
    if atom.species != first.species {
        return Ok(());
    }
    let shift = between(first.place, atom.place, cell.n());
    let sign = Sign::Same;
    if places.are_kept_by(action, shift, sign, last) {
        let w = *action.matrix();
        found.insert(Op { w, shift, sign })?;
    }
    Ok(())
}

/// The pure translations of the crystal: those that keep each atom and its moment.
///
/// As operations (I, t, +1), with t in units of 1/n and each coordinate from 0 to n - 1, in order; t = (0, 0, 0) is among
/// them. A pure translation carries any atom to one of its species, so only those that carry an atom of a rarest species
/// so are tried. Refuses for want of memory alone.
pub fn pure_shifts(alloc: Global, places: &Places) -> Result<OpList, AllocError>
    ensures n { IfOk result (λ list. list.n ≡ places.now.n) }
    ensures exact { IfOk result (λ list. ListsPureTranslations places.now list.operations) }
{
    let cell = places.cell();
    let from = cell.rarest();
    let action = places.action(&Mat3::identity());
    let mut found = OpList::new(alloc, cell.n());
    let mut last = Failure::none();
    for onto in 0..cell.count() {
        add_onto(places, &action, from, onto, &mut found, &mut last)?;
    }
    let _first = cell.atom(from);
    found.invariant();
    Ok(found)
}
