ghost use Rattle.std.specs.Prelude.{◌≡◌, ◌↔◌, ◌+◌, ◌<◌, IfOk, IfSome, IfNone, IsTrue, slice_index};
ghost use Rattle.crystal_spec.specs.Crystals.{Keeps, KeepsMetric};
ghost use Rattle.crystal_spec.specs.Operations.{sign_factor};
ghost use Rattle.positions.specs.Positions.{triple_of};
ghost use Rattle.matrix3.specs.Bounds.{EntriesAtMost};
ghost use Rattle.crystal.specs.Actions.{ActsOn};
ghost use Rattle.crystal.specs.Occupants.{IsOccupant, NoneAt};

use crate::action::Action;
use crate::carrying::have_images;
use crate::cell::Cell;
use crate::failure::Failure;
use crate::place_index::PlaceIndex;
use crate::steps::Steps;
use crystal_spec::Sign;
use exact_num::Int;
use matrix3::Mat3;
use std::alloc::{AllocError, Global};
use std::marker::Model;
use std::sync::ledger::Ledger;

/// The atoms of a cell by position. It keeps a copy of the cell.
#[derive(Drop)]
pub struct Places {
    cell: Cell,
    index: PlaceIndex,
}

impl Model for Places {
    ghost use Rattle.crystal_spec.specs.Crystals.{Structure};

    ghost Value = { Structure };

    ghost view = { λ p. p.cell };

    ghost use Rattle.crystal.specs.Covering.{Covers};

    ghost invariant = { λ p. Covers p.cell.atoms p.index };
}

impl Places {
    /// The atoms of this cell by position. Refuses for want of memory alone.
    pub fn new(alloc: Global, cell: &Cell) -> Result<Places, AllocError>
        ensures { IfOk result (λ places. places ≡ cell.now) }
    {
        let cell = cell.copied(alloc)?;
        let index = cell.index(alloc)?;
        Ok(Places { cell, index })
    }

    /// The cell.
    pub fn cell(&self) -> &Cell
        ensures { result.now ≡ self.now }
    {
        &self.cell
    }

    /// The number of the atom at a position, in units of 1/n with coordinates below n, or `None` where no atom is there.
    pub fn occupant(&self, place: [u32; 3]) -> Option<usize>
        requires x { slice_index place 0 < self.now.n }
        requires y { slice_index place 1 < self.now.n }
        requires z { slice_index place 2 < self.now.n }
        ensures found { IfSome result (IsOccupant self.now.atoms (triple_of place)) }
        ensures absent { IfNone result (NoneAt (triple_of place) self.now.atoms) }
    {
        self.cell.occupant(&self.index, place)
    }

    /// How an isometry of the metric tensor acts on positions and moments of the cell.
    pub fn action(&self, w: &Mat3<Int>) -> Action
        requires map { EntriesAtMost 150000000 w.now }
        requires isometry { KeepsMetric self.now.metric w.now }
        ensures matrix { result.matrix ≡ w.now }
        ensures acts { ActsOn self.now result }
    {
        Action::new(&self.cell, w)
    }

    /// Whether an isometry, with this translation and time sign, keeps the crystal.
    ///
    /// The translation is in units of 1/n. `last` says where the last map failed, which is tried first.
    pub fn are_kept_by(
        &self,
        action: &Action,
        shift: [u32; 3],
        sign: Sign,
        last: &mut Failure,
    ) -> bool
        requires { ActsOn self.now action.now }
        ensures exact { IsTrue result ↔ Keeps self.now action.now.matrix (triple_of shift) (sign_factor sign) }
    {
        self.cell.invariant();
        have_images(
            &self.cell,
            &self.index,
            action,
            shift,
            action.moments(sign),
            last,
        )
    }

    /// Whether the map of this matrix, translation and time sign keeps the crystal. It counts one step.
    ///
    /// The translation is in units of 1/n, with coordinates below n.
    pub fn keeps_map<L: Ledger>(
        &self,
        w: &Mat3<Int>,
        shift: [u32; 3],
        sign: Sign,
        steps: &mut Steps<L>,
    ) -> bool
        requires map { EntriesAtMost 150000000 w.now }
        requires x { slice_index shift 0 < self.now.n }
        requires y { slice_index shift 1 < self.now.n }
        requires z { slice_index shift 2 < self.now.n }
        ensures exact { IsTrue result ↔ Keeps self.now w.now (triple_of shift) (sign_factor sign) }
        ensures ticks { steps.new ≡ steps.old + 1 }
    {
        steps.tick();
        self.cell.invariant();
        self.cell.metric().is_kept_by(w)
            && self.are_kept_by(&self.action(w), shift, sign, &mut Failure::none())
    }
}
