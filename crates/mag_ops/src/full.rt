// The operations of a primitive cell.

ghost use Rattle.std.specs.Prelude.{◌≡◌, ◌↔◌, ◌⊎◌, ◌+◌, ◌*◌, ◌≤◌, ℕ, List, length, OnOk, IfOk};
ghost use Rattle.lists.specs.Increasing.{IsMember};
ghost use Rattle.crystal_spec.specs.declared.Sign.{Sign};
ghost use Rattle.crystal_spec.specs.Matrices.{Matrix, Triple};
ghost use Rattle.crystal_spec.specs.Operations.{Operation, IsWithinCell, sign_factor};
ghost use Rattle.crystal.specs.Views.{atom_of};
ghost use Rattle.positions.specs.Positions.{triple_of};
ghost use Rattle.matrix3.specs.Bounds.{EntriesAtMost};
ghost use Rattle.crystal.specs.Actions.{ActsOn};
ghost use Rattle.lattice_iso.specs.Isometries.{ListsIsometries};
ghost use Rattle.crystal_spec.specs.Species.{of_species, IsRarest};
ghost use Rattle.basis_spec.specs.Carrying.{KeepsAny, IsListed};
ghost use Rattle.op_group.specs.Groups.{IsGroupModulo};
ghost use Rattle.op_group.specs.Lists.{HasEntriesAtMost};
ghost use Rattle.mag_type.specs.MagneticTypes.{HasOnlyZeroTranslation};
ghost use Rattle.mag_ops.specs.Candidates.{IsKeptAs, IsKeptBy, IsOnto};
ghost use Rattle.mag_ops.specs.Groups.{ListsGroup, IsWanted, signs};

use crystal::{Action, Atom, Failure, Places, Sign, Steps};
use lattice_iso::{Isos, isometries};
use op_group::{Op, OpList};
use prim_cell::Primitive;
use std::alloc::{AllocError, Global};
use std::sync::ledger::Ledger;

/// Puts the operation into the list, where it keeps the crystal.
fn add_kept<L: Ledger>(
    places: &Places,
    action: &Action,
    shift: [u32; 3],
    sign: Sign,
    found: &mut OpList,
    last: &mut Failure,
    steps: &mut Steps<L>,
) -> Result<(), AllocError>
    requires small { EntriesAtMost 1 action.now.matrix }
    requires acts { ActsOn places.now action.now }
    requires places_n { IsWithinCell places.now.n (triple_of shift) }
    requires found_n { found.old.n ≡ places.now.n }
    ensures n { found.new.n ≡ places.now.n }
    ensures members { OnOk result ((o : Operation) → IsMember o found.new.operations ↔ (IsKeptAs places.now action.now.matrix (triple_of shift) sign o ⊎ IsMember o found.old.operations)) }
    ensures ticks { steps.new ≡ steps.old + 1 }
    ensures one_more { OnOk result (length found.new.operations ≤ length found.old.operations + 1) }
{
    steps.tick();
    if places.are_kept_by(action, shift, sign, last) {
        let w = *action.matrix();
        found.insert(Op { w, shift, sign })?;
    }
    Ok(())
}

/// Puts the operations of this matrix that keep the crystal and carry the one atom onto the other into the list: with and
/// without time reversal, or without it alone.
fn add_kept_onto<L: Ledger>(
    places: &Places,
    time: bool,
    action: &Action,
    from: &Atom,
    onto: &Atom,
    found: &mut OpList,
    last: &mut Failure,
    steps: &mut Steps<L>,
) -> Result<(), AllocError>
    requires small { EntriesAtMost 1 action.now.matrix }
    requires acts { ActsOn places.now action.now }
    requires found_n { found.old.n ≡ places.now.n }
    ensures n { found.new.n ≡ places.now.n }
    ensures members { OnOk result ((o : Operation) → IsMember o found.new.operations ↔ (IsOnto places.now time action.now.matrix (atom_of from.now) (atom_of onto.now) o ⊎ IsMember o found.old.operations)) }
    ensures ticks_at_most { steps.new ≤ steps.old + signs time }
    ensures ticks_at_least { OnOk result (length found.new.operations + steps.old ≤ length found.old.operations + steps.new) }
{
    places.cell().invariant();
    let shift = action.translation_onto(from.place, onto.place);
    add_kept(places, action, shift, Sign::Same, found, last, steps)?;
    if !time {
        return Ok(());
    }
    add_kept(places, action, shift, Sign::Reversed, found, last, steps)?;
    Ok(())
}

/// Puts the operations of this isometry that keep the crystal into the list. Each carries this atom onto an atom of its
/// species, so only the translation parts that do so are tried.
fn add_kept_by<L: Ledger>(
    places: &Places,
    time: bool,
    action: &Action,
    from: &Atom,
    found: &mut OpList,
    last: &mut Failure,
    steps: &mut Steps<L>,
) -> Result<(), AllocError>
    requires small { EntriesAtMost 1 action.now.matrix }
    requires acts { ActsOn places.now action.now }
    requires of_cell { IsMember (atom_of from.now) places.now.atoms }
    requires found_n { found.old.n ≡ places.now.n }
    ensures n { found.new.n ≡ places.now.n }
    ensures members { OnOk result ((o : Operation) → IsMember o found.new.operations ↔ (IsKeptBy places.now time action.now.matrix o ⊎ IsMember o found.old.operations)) }
    ensures ticks_at_most { steps.new ≤ steps.old + signs time * length (of_species from.now.species places.now.atoms) }
    ensures ticks_at_least { OnOk result (length found.new.operations + steps.old ≤ length found.old.operations + steps.new) }
{
    let cell = places.cell();
    for i in 0..cell.count() {
        let onto = cell.atom(i);
        if onto.species == from.species {
            add_kept_onto(places, time, action, from, onto, found, last, steps)?;
        }
    }
    Ok(())
}

/// All operations that keep the crystal, each once in order: with those that reverse time, or without them.
fn all_kept<L: Ledger>(
    alloc: Global,
    places: &Places,
    time: bool,
    matrices: &Isos,
    steps: &mut Steps<L>,
) -> Result<OpList, AllocError>
    requires isometries { ListsIsometries places.now.metric matrices.now }
    requires small { (w : Matrix) → IsMember w matrices.now → EntriesAtMost 1 w }
    ensures n { IfOk result (λ list. list.n ≡ places.now.n) }
    ensures exact { IfOk result (λ list. ListsGroup places.now time list.operations) }
    ensures ticks_at_most { (count : ℕ) → IsRarest places.now count → steps.new ≤ steps.old + signs time * (length matrices.now * count) }
    ensures ticks_at_least { IfOk result (λ list. length list.operations + steps.old ≤ steps.new) }
{
    let cell = places.cell();
    let from = cell.atom(cell.rarest());
    let mut found = OpList::new(alloc, cell.n());
    let mut last = Failure::none();
    for i in 0..matrices.count() {
        let action = places.action(matrices.at(i));
        add_kept_by(places, time, &action, from, &mut found, &mut last, steps)?;
    }
    found.invariant();
    Ok(found)
}

/// All operations that keep the crystal of the primitive cell, each once in order, with n that of the cell.
///
/// In the basis of the primitive cell; with `time` false only those that do not reverse time, and then no map that
/// reverses it is tested. They are a group, without a pure translation but 0, and their matrices have entries -1, 0 and 1. An
/// operation carries an atom of a rarest species onto an atom of that species, so for each
/// isometry of the metric tensor only the translation parts that do so are tried. Refuses for want of memory alone.
pub fn full_group<L: Ledger>(
    alloc: Global,
    prim: &Primitive,
    time: bool,
    steps: &mut Steps<L>,
) -> Result<OpList, AllocError>
    ensures n { IfOk result (λ list. list.n ≡ prim.now.cell.n) }
    ensures exact { IfOk result (λ list. ListsGroup prim.now.cell time list.operations) }
    ensures group { IfOk result (λ list. IsGroupModulo list.n list.operations) }
    ensures primitive { IfOk result (λ list. HasOnlyZeroTranslation list.operations) }
    ensures small { IfOk result (λ list. HasEntriesAtMost 1 list.operations) }
    ensures nothing_missed { IfOk result (λ list. (b : Matrix) (t : Triple) (d : ℕ) (sign : Sign) → IsWanted time sign → KeepsAny prim.now.cell b t d (sign_factor sign) → IsListed prim.now.cell.n list.operations b t d sign) }
    ensures ticks_at_most { (matrices : List Matrix) (count : ℕ) → ListsIsometries prim.now.cell.metric matrices → IsRarest prim.now.cell count → steps.new ≤ steps.old + signs time * (length matrices * count) }
    ensures ticks_at_least { IfOk result (λ list. length list.operations + steps.old ≤ steps.new) }
{
    prim.invariant();
    let cell = prim.cell();
    cell.invariant();
    let places = Places::new(alloc, cell)?;
    let matrices = isometries(alloc, cell.metric())?;
    all_kept(alloc, &places, time, &matrices, steps)
}
