// The answers of the commands.

ghost use Rattle.std.specs.Prelude.{IfOk};
ghost use Rattle.crystal_spec.specs.Cells.{IsCell};
ghost use Rattle.crystal_spec.specs.Crystals.{Structure};
ghost use Rattle.command_words.specs.Commands.{ReadsCellAlone, ReadsTable};
ghost use Rattle.answers.specs.Answers.{IsAnswer, IsTableAnswer};
ghost use Rattle.answers.specs.Reports.{HasOneReport};
ghost use Rattle.crystal.specs.Sizes.{HasSizesOfRead};

use crate::dataset::answer_dataset;
use crate::identify::answer_identify;
use crate::moments::answer_moments;
use crate::orbits::answer_orbits;
use crate::primitive::answer_primitive;
use crate::standard::answer_standard;
use crate::symmetry::answer_symmetry;
use command_words::Command;
use crystal::{Cell, Steps};
use exact_num::Int;
use hall_text::{RowFault, Table};
use io_edge::Bytes;
use matrix3::Mat3;
use report_basis::Kept;
use std::alloc::{AllocError, Global};
use std::sync::ledger::Ledger;

/// A report, and the basis, or the two, that it speaks of.
#[derive(Drop)]
pub struct Report {
    pub kept: Kept,
    pub text: Bytes,
}

/// What a command answers.
#[derive(Drop)]
pub enum Answer {
    /// The whole report that was asked for.
    Report(Report),

    /// The whole report of `identify` or `standard`, in which no row is matched, in the basis to which Q takes coordinates.
    NoMatch(Mat3<Int>, Bytes),

    /// The whole report of `compare`, which has no map, in the bases to which the two matrices take coordinates.
    Different(Mat3<Int>, Mat3<Int>, Bytes),

    /// The symbol of `hall` has this fault.
    SymbolRefused(RowFault),

    /// The cell has no atom of the number that `fill` was given.
    NoSuchAtom,

    /// The site of the atom does not allow the moment of `fill`, in the basis to which Q takes coordinates.
    NotAllowed(Mat3<Int>),

    /// No cell can hold the crystal in the basis of the first matched symbol of `standard`. Q takes coordinates to those in
    /// the primitive cell.
    TooWide(Mat3<Int>),
}

/// What a command that reads a cell, and nothing else, answers on one that was read; `fill` aside, which has refusals of its
/// own. Refuses for want of memory alone.
///
/// No operations are looked for where the primitive cell alone is wanted.
pub fn answer_of<L: Ledger>(
    alloc: Global,
    command: Command,
    cell: &Cell,
    steps: &mut Steps<L>,
) -> Result<Answer, AllocError>
    requires reads { ReadsCellAlone command }
    requires sizes { HasSizesOfRead cell.now }
    ensures { IfOk result (λ answer. IsAnswer command cell.now answer) }
{
    match command {
        Command::Symmetry { time, skip, take } => {
            answer_symmetry(alloc, cell, time, skip, take, steps)
        }
        Command::Primitive => answer_primitive(alloc, cell),
        Command::Dataset => answer_dataset(alloc, cell, steps),
        Command::Orbits => answer_orbits(alloc, cell, steps),
        Command::Moments => answer_moments(alloc, cell, steps),
        _ => Err(AllocError),
    }
}

/// What a command that reads a cell and a table answers on these. Refuses for want of memory alone.
pub fn answer_on_table<L: Ledger>(
    alloc: Global,
    command: Command,
    cell: &Cell,
    table: &Table,
    steps: &mut Steps<L>,
) -> Result<Answer, AllocError>
    requires reads { ReadsTable command }
    requires sizes { HasSizesOfRead cell.now }
    ensures { IfOk result (λ answer. IsTableAnswer command cell.now table.now answer) }
{
    match command {
        Command::Identify => answer_identify(alloc, cell, table, steps),
        Command::Standard => answer_standard(alloc, cell, table, steps),
        _ => Err(AllocError),
    }
}

/// The report on a cell is one, for each command and each basis that it speaks of.
///
/// So whatever a report is made of, as the type of its group and the orbits of its atoms, is told by the cell and the basis.
pub fn report_is_one()
    ensures { (c : Structure) → IsCell c → HasOneReport c }
{}
