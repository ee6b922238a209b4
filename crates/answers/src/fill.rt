// `fill`: the primitive cell with a moment at an atom, and with those to which the symmetry operations carry it.

ghost use Rattle.std.specs.Prelude.{◌≡◌, ◌↔◌, ◌<◌, ◌≤◌, ◌^◌, ◌*ℤ◌, suc, pos, length, true, IsTrue, IfOk};
ghost use Rattle.ring.specs.Size.{AtMost};
ghost use Rattle.crystal_spec.specs.Moments.{IsOfKind};
ghost use Rattle.matrix3.specs.Bounds.{CoordinatesAtMost};
ghost use Rattle.moment_space.specs.Filled.{IsSiteAt};
ghost use Rattle.command_words.specs.Fillings.{IsSmall, IsSmallComponent};
ghost use Rattle.answers.specs.Answers.{IsFillAnswer};
ghost use Rattle.answers.specs.Findings.{IsFound};
ghost use Rattle.answers.specs.FillReports.{moment_of};
ghost use Rattle.crystal.specs.Sizes.{HasSizesOfRead};

use crate::answer::{Answer, Report};
use crate::found::{Found, found_of, kept};
use command_words::Filling;
use crystal::{Cell, MomentKind, Steps};
use exact_num::Int;
use matrix3::Vec3;
use moment_space::fill;
use moments_text::fill_report;
use op_group::OpList;
use site_orbits::orbits;
use std::alloc::{AllocError, Global};
use std::sync::ledger::Ledger;

/// k times a component.
fn scaled(k: u32, component: i64) -> Int
    requires k { k ≤ 10 ^ 6 }
    requires small { IsSmallComponent component }
    ensures value { result ≡ pos k *ℤ component }
    ensures size { AtMost (10 ^ 15) result }
{
    Int::new(k as i128 * component as i128).unwrap()
}

/// The moment in units of 1/k.
fn moment_of(cell: &Cell, filling: &Filling) -> Vec3<Int>
    requires { IsSmall filling.now }
    ensures value { result ≡ moment_of cell.now filling.now }
    ensures size { CoordinatesAtMost (10 ^ 15) result }
{
    cell.invariant();
    let k = cell.k();
    Vec3 {
        x: scaled(k, filling.a),
        y: scaled(k, filling.b),
        z: scaled(k, filling.c),
    }
}

/// Whether a triple is a moment of this kind.
fn is_of_kind(kind: MomentKind, m: &Vec3<Int>) -> bool
    ensures { IsTrue result ↔ IsOfKind kind m.now }
{
    kind.vector || (m.y.get() == 0 && m.z.get() == 0)
}

/// The filled cell, or that the site does not allow the moment; the atom is counted from 0.
fn answer_on_site(
    alloc: Global,
    cell: &Cell,
    found: &Found,
    filling: &Filling,
    atom: usize,
    site: &OpList,
) -> Result<Answer, AllocError>
    requires found { IsFound cell.now true found.now.made found.now.group }
    requires number { filling.now.atom ≡ suc atom }
    requires below { atom < length cell.now.atoms }
    requires small { IsSmall filling.now }
    requires site_n { site.now.n ≡ found.now.made.cell.n }
    requires site { IsSiteAt cell.now found.now.made.back found.now.made.cell found.now.group.operations atom site.now.operations }
    ensures { IfOk result (λ answer. IsFillAnswer cell.now filling.now answer) }
{
    let m = moment_of(cell, filling);
    if !is_of_kind(cell.kind(), &m) {
        return Ok(Answer::NotAllowed(*found.made.back()));
    }
    match fill(alloc, cell, &found.made, &found.group, site, atom, &m)? {
        None => Ok(Answer::NotAllowed(*found.made.back())),
        Some(filled) => {
            let text = fill_report(alloc, found.made.back(), &filled)?;
            Ok(Answer::Report(Report {
                kept: kept(&found.made),
                text,
            }))
        }
    }
}

/// What `fill` answers at an atom that the cell has.
fn answer_at_atom(
    alloc: Global,
    cell: &Cell,
    found: &Found,
    filling: &Filling,
) -> Result<Answer, AllocError>
    requires found { IsFound cell.now true found.now.made found.now.group }
    requires at_least { 1 ≤ filling.now.atom }
    requires at_most { filling.now.atom ≤ length cell.now.atoms }
    requires small { IsSmall filling.now }
    ensures { IfOk result (λ answer. IsFillAnswer cell.now filling.now answer) }
{
    let atom = filling.atom as usize - 1;
    let orbit_list = orbits(alloc, cell, &found.made, &found.group)?;
    answer_on_site(alloc, cell, found, filling, atom, orbit_list.site(atom))
}

/// What `fill` answers on a cell that was read and a moment for one of its atoms.
///
/// The primitive cell is in a Niggli-reduced basis, along whose axes the moment is given, as a number for a scalar cell, whose
/// second and third component are 0. The moment stands at the atom's position there, and where symmetry operations carry that
/// position they carry the moment. The answer is `NoSuchAtom` where the cell has no atom of this number, counted from 1,
/// `NotAllowed` where the site of the atom does not allow the moment, and else `Report`. Refuses for want of memory alone.
pub fn answer_fill<L: Ledger>(
    alloc: Global,
    cell: &Cell,
    filling: &Filling,
    steps: &mut Steps<L>,
) -> Result<Answer, AllocError>
    requires sizes { HasSizesOfRead cell.now }
    requires small { IsSmall filling.now }
    ensures { IfOk result (λ answer. IsFillAnswer cell.now filling.now answer) }
{
    if filling.atom == 0 || filling.atom as usize > cell.count() {
        return Ok(Answer::NoSuchAtom);
    }
    let found = found_of(alloc, cell, true, steps)?;
    answer_at_atom(alloc, cell, &found, filling)
}
