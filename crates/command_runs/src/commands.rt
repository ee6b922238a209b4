// What each command does, but for the line on the error stream.
ghost use Rattle.std.specs.Prelude.{◌≡◌, ℕ, ◌<◌, ◌≤◌, ◌⊎◌, List, IfOk, IfErr};
ghost use Rattle.std.specs.declared.option.Option.{Option};
ghost use Rattle.std.specs.declared.result.Result.TheVariants.{Ok};
ghost use Rattle.command_words.specs.declared.command.Command.TheVariants.{Hall, Compare, Fill, Selfrun};
ghost use Rattle.command_words.specs.Commands.{command, argument, ReadsCellAlone, ReadsTable};
ghost use Rattle.command_words.specs.Fillings.{IsSmall};
ghost use Rattle.io_edge.specs.States.{SourceState, ShelfState};
ghost use Rattle.io_edge.specs.Reading.{TakesAtMost, StopsAtEnd};
ghost use Rattle.io_edge.specs.Shelves.{TakesAtMostOfFile};
ghost use Rattle.run_status.specs.StatusKinds.{kind_of, IsDone, IsRefusal};
ghost use Rattle.crystal_spec.specs.Crystals.{Structure};
ghost use Rattle.crystal.specs.Sizes.{HasSizesOfRead};
ghost use Rattle.command_runs.specs.Outcomes.{streams, Outcome, IsAskedOfCell, IsFileWanted, SpellsInput, TakesFile};
ghost use Rattle.command_runs.specs.Writings.{IsWritten, IsTold, IsFinished, IsTakenUpTo, RefusesInput, IsTableOf, RefusesTable, IsCellOf, RefusesOther};

use answers::{
    Answer, answer_compare, answer_fill, answer_hall, answer_of, answer_on_table, answer_selfrun,
};
use cell_text::{CellError, read_cell};
use command_words::{Command, Filling, Words, argument, read_words};
use crystal::{Cell, Steps};
use hall_text::{Table, TableError, read_table};
use io_edge::{Bytes, InFault, Shelf, Sink, Source, read_file, read_to_end, write_whole};
use report_basis::Kept;
use run_status::Status;
use std::alloc::{AllocError, Global};
use std::sync::ledger::Ledger;

/// The most bytes that the text of a cell can have.
const CELL_LIMIT: usize = 262_144;

/// The most bytes that a table can have.
const TABLE_LIMIT: usize = 1_048_576;

/// The cell that the input spells, or the status that says why there is none.
fn cell_of_input<I: Source>(alloc: Global, input: &mut I) -> Result<Cell, Status>
    ensures accepted { IfOk result (λ cell. SpellsInput (I.state input.old) (I.state input.new) cell) }
    ensures sizes { IfOk result HasSizesOfRead }
    ensures refused { IfErr result (λ status. RefusesInput I.highest_count (I.state input.old) (I.state input.new) status) }
    ensures taken { TakesAtMost 262145 (I.state input.old) (I.state input.new) }
    ensures stops { StopsAtEnd (I.state input.old) (I.state input.new) }
    ensures later { (I.state input.old).faults ≤ (I.state input.new).faults }
{
    let text = match read_to_end(alloc, input, CELL_LIMIT) {
        Ok(text) => text,
        Err(InFault::ReadFault) => return Err(Status::ReadFault),
        Err(InFault::TooLong) => return Err(Status::CellTooLong),
        Err(InFault::Memory) => return Err(Status::Memory),
    };
    match read_cell(alloc, &text) {
        Ok(cell) => Ok(cell),
        Err(CellError::Refused(line, fault)) => Err(Status::CellRefused(line, fault)),
        Err(CellError::Memory) => Err(Status::Memory),
    }
}

/// The table that the file of this name spells, or the status that says why there is none.
fn table_of_file<F: Shelf>(alloc: Global, shelf: &mut F, name: &[u8]) -> Result<Table, Status>
    ensures spelled { IfOk result (λ table. IsTableOf (F.state shelf.old) (F.state shelf.new) name.now table) }
    ensures refused { IfErr result (λ status. RefusesTable F.highest_count (F.state shelf.old) (F.state shelf.new) name.now status) }
    ensures taken { TakesAtMostOfFile 1048577 name.now (F.state shelf.old) (F.state shelf.new) }
    ensures files { (F.state shelf.new).files ≡ (F.state shelf.old).files }
    ensures stops { (F.state shelf.new).picked.read_past_end ≡ (F.state shelf.old).picked.read_past_end }
    ensures later { (F.state shelf.old).picked.faults ≤ (F.state shelf.new).picked.faults }
{
    let text = match read_file(alloc, shelf, name, TABLE_LIMIT) {
        Ok(text) => text,
        Err(InFault::ReadFault) => return Err(Status::ReadFault),
        Err(InFault::TooLong) => return Err(Status::TableTooLong),
        Err(InFault::Memory) => return Err(Status::Memory),
    };
    match read_table(alloc, &text) {
        Ok(table) => Ok(table),
        Err(TableError::Refused(row, fault)) => Err(Status::TableRefused(row, fault)),
        Err(TableError::Memory) => Err(Status::Memory),
    }
}

/// The cell that the file of this name spells, or the status that says why there is none.
fn cell_of_file<F: Shelf>(alloc: Global, shelf: &mut F, name: &[u8]) -> Result<Cell, Status>
    ensures spelled { IfOk result (λ cell. IsCellOf (F.state shelf.old) (F.state shelf.new) name.now cell) }
    ensures sizes { IfOk result HasSizesOfRead }
    ensures refused { IfErr result (λ status. RefusesOther F.highest_count (F.state shelf.old) (F.state shelf.new) name.now status) }
    ensures taken { TakesAtMostOfFile 262145 name.now (F.state shelf.old) (F.state shelf.new) }
    ensures files { (F.state shelf.new).files ≡ (F.state shelf.old).files }
    ensures stops { (F.state shelf.new).picked.read_past_end ≡ (F.state shelf.old).picked.read_past_end }
    ensures later { (F.state shelf.old).picked.faults ≤ (F.state shelf.new).picked.faults }
{
    let text = match read_file(alloc, shelf, name, CELL_LIMIT) {
        Ok(text) => text,
        Err(InFault::ReadFault) => return Err(Status::ReadFault),
        Err(InFault::TooLong) => return Err(Status::OtherTooLong),
        Err(InFault::Memory) => return Err(Status::Memory),
    };
    match read_cell(alloc, &text) {
        Ok(cell) => Ok(cell),
        Err(CellError::Refused(line, fault)) => Err(Status::OtherRefused(line, fault)),
        Err(CellError::Memory) => Err(Status::Memory),
    }
}

/// Writes a report to the output; the status says that it is out whole, or how much of it is.
fn write_report<O: Sink>(out: &mut O, text: &Bytes, kept: Kept, whole: Status) -> Status
    requires done { IsDone (kind_of whole) }
    ensures written { IsWritten O.highest_count (O.state out.old) (O.state out.new) text.now kept whole result }
    ensures begun { IsRefusal (kind_of result) → ⊥ }
    ensures later { (O.state out.old).faults ≤ (O.state out.new).faults }
{
    match write_whole(out, text.as_slice()) {
        Ok(()) => whole,
        Err(fault) => Status::WriteFault(fault.written, kept),
    }
}

/// Writes what is answered to the output: a report, if the answer is one.
fn write_answer<O: Sink>(out: &mut O, answer: &Answer) -> Status
    ensures told { IsTold O.highest_count (O.state out.old) (O.state out.new) answer.now result }
    ensures out_untouched { IsRefusal (kind_of result) → out.new ≡ out.old }
    ensures later { (O.state out.old).faults ≤ (O.state out.new).faults }
{
    match answer {
        Answer::Report(report) => {
            write_report(out, &report.text, report.kept, Status::Done(report.kept))
        }
        Answer::NoMatch(q, text) => { write_report(out, text, Kept::Back(*q), Status::NoMatch(*q)) }
        Answer::Different(q, r, text) => {
            write_report(out, text, Kept::Two(*q, *r), Status::Different(*q, *r))
        }
        Answer::SymbolRefused(fault) => Status::SymbolRefused(*fault),
        Answer::NoSuchAtom => Status::NoSuchAtom,
        Answer::NotAllowed(q) => Status::NotAllowed(*q),
        Answer::TooWide(q) => Status::TooWide(*q),
    }
}

/// Writes what is answered to the output, unless memory was wanting for an answer.
fn finish<O: Sink>(out: &mut O, answer: &Result<Answer, AllocError>) -> Status
    ensures finished { IsFinished O.highest_count (O.state out.old) (O.state out.new) answer.now result }
    ensures out_untouched { IsRefusal (kind_of result) → out.new ≡ out.old }
    ensures later { (O.state out.old).faults ≤ (O.state out.new).faults }
{
    match answer {
        Ok(answer) => write_answer(out, answer),
        Err(_) => Status::Memory,
    }
}

/// Does a command on the cell that the input spells, but for the line on the error stream.
fn with_cell<I: Source, O: Sink, L: Ledger>(
    alloc: Global,
    request: Command,
    input: &mut I,
    out: &mut O,
    steps: &mut Steps<L>,
) -> Status
    requires { ReadsCellAlone request }
    ensures outcome { (ws : List (List ℕ)) (highest : Option ℕ) (shelf : ShelfState) → command ws ≡ Ok request → Outcome ws (streams
        I.highest_count (I.state input.old) (I.state input.new) highest shelf shelf O.highest_count (O.state out.old) (O.state out.new)) result }
    ensures taken { TakesAtMost 262145 (I.state input.old) (I.state input.new) }
    ensures stops { StopsAtEnd (I.state input.old) (I.state input.new) }
    ensures out_untouched { IsRefusal (kind_of result) → out.new ≡ out.old }
    ensures in_later { (I.state input.old).faults ≤ (I.state input.new).faults }
    ensures out_later { (O.state out.old).faults ≤ (O.state out.new).faults }
{
    let cell = match cell_of_input(alloc, input) {
        Ok(cell) => cell,
        Err(status) => return status,
    };
    let answer = answer_of(alloc, request, &cell, steps);
    finish(out, &answer)
}

/// Does `fill` on the cell that the input spells and a moment for one of its atoms, but for the line on the error stream.
fn with_moment<I: Source, O: Sink, L: Ledger>(
    alloc: Global,
    filling: Filling,
    input: &mut I,
    out: &mut O,
    steps: &mut Steps<L>,
) -> Status
    requires { IsSmall filling }
    ensures outcome { (ws : List (List ℕ)) (highest : Option ℕ) (shelf : ShelfState) → command ws ≡ Ok (Fill filling) → Outcome ws (streams
        I.highest_count (I.state input.old) (I.state input.new) highest shelf shelf O.highest_count (O.state out.old) (O.state out.new)) result }
    ensures taken { TakesAtMost 262145 (I.state input.old) (I.state input.new) }
    ensures stops { StopsAtEnd (I.state input.old) (I.state input.new) }
    ensures out_untouched { IsRefusal (kind_of result) → out.new ≡ out.old }
    ensures in_later { (I.state input.old).faults ≤ (I.state input.new).faults }
    ensures out_later { (O.state out.old).faults ≤ (O.state out.new).faults }
{
    let cell = match cell_of_input(alloc, input) {
        Ok(cell) => cell,
        Err(status) => return status,
    };
    let answer = answer_fill(alloc, &cell, &filling, steps);
    finish(out, &answer)
}

/// Does a command on the cell that the input spells and the table of this name, but for the line on the error stream.
fn with_table<I: Source, F: Shelf, O: Sink, L: Ledger>(
    alloc: Global,
    request: Command,
    name: &[u8],
    input: &mut I,
    shelf: &mut F,
    out: &mut O,
    steps: &mut Steps<L>,
) -> Status
    requires { ReadsTable request }
    ensures outcome { (ws : List (List ℕ)) → command ws ≡ Ok request → argument ws ≡ name.now → Outcome ws (streams
        I.highest_count (I.state input.old) (I.state input.new) F.highest_count (F.state shelf.old) (F.state shelf.new)
        O.highest_count (O.state out.old) (O.state out.new)) result }
    ensures taken { TakesAtMost 262145 (I.state input.old) (I.state input.new) }
    ensures stops { StopsAtEnd (I.state input.old) (I.state input.new) }
    ensures shelf_untouched { ((cell : Structure) → SpellsInput (I.state input.old) (I.state input.new) cell → ⊥) → shelf.new ≡ shelf.old }
    ensures file_read { (shelf.new ≡ shelf.old) ⊎ IsTakenUpTo 1048577 name.now (F.state shelf.old) (F.state shelf.new) }
    ensures out_untouched { IsRefusal (kind_of result) → out.new ≡ out.old }
    ensures in_later { (I.state input.old).faults ≤ (I.state input.new).faults }
    ensures shelf_later { (F.state shelf.old).picked.faults ≤ (F.state shelf.new).picked.faults }
    ensures out_later { (O.state out.old).faults ≤ (O.state out.new).faults }
{
    let cell = match cell_of_input(alloc, input) {
        Ok(cell) => cell,
        Err(status) => return status,
    };
    let table = match table_of_file(alloc, shelf, name) {
        Ok(table) => table,
        Err(status) => return status,
    };
    let answer = answer_on_table(alloc, request, &cell, &table, steps);
    finish(out, &answer)
}

/// Does `compare` on the cell that the input spells and the cell of this name, but for the line on the error stream.
fn with_other<I: Source, F: Shelf, O: Sink>(
    alloc: Global,
    name: &[u8],
    input: &mut I,
    shelf: &mut F,
    out: &mut O,
) -> Status
    ensures outcome { (ws : List (List ℕ)) → command ws ≡ Ok Compare → argument ws ≡ name.now → Outcome ws (streams
        I.highest_count (I.state input.old) (I.state input.new) F.highest_count (F.state shelf.old) (F.state shelf.new)
        O.highest_count (O.state out.old) (O.state out.new)) result }
    ensures taken { TakesAtMost 262145 (I.state input.old) (I.state input.new) }
    ensures stops { StopsAtEnd (I.state input.old) (I.state input.new) }
    ensures shelf_untouched { ((cell : Structure) → SpellsInput (I.state input.old) (I.state input.new) cell → ⊥) → shelf.new ≡ shelf.old }
    ensures file_read { (shelf.new ≡ shelf.old) ⊎ IsTakenUpTo 262145 name.now (F.state shelf.old) (F.state shelf.new) }
    ensures out_untouched { IsRefusal (kind_of result) → out.new ≡ out.old }
    ensures in_later { (I.state input.old).faults ≤ (I.state input.new).faults }
    ensures shelf_later { (F.state shelf.old).picked.faults ≤ (F.state shelf.new).picked.faults }
    ensures out_later { (O.state out.old).faults ≤ (O.state out.new).faults }
{
    let cell = match cell_of_input(alloc, input) {
        Ok(cell) => cell,
        Err(status) => return status,
    };
    let other = match cell_of_file(alloc, shelf, name) {
        Ok(other) => other,
        Err(status) => return status,
    };
    let answer = answer_compare(alloc, &cell, &other);
    finish(out, &answer)
}

/// Does `hall` on a word, but for the line on the error stream.
fn with_symbol<O: Sink>(alloc: Global, word: &[u8], out: &mut O) -> Status
    ensures outcome { (ws : List (List ℕ)) (highest store : Option ℕ) (input : SourceState) (shelf : ShelfState) → command ws ≡ Ok Hall →
        argument ws ≡ word.now → Outcome ws (streams highest input input store shelf shelf O.highest_count (O.state out.old) (O.state out.new)) result }
    ensures out_untouched { IsRefusal (kind_of result) → out.new ≡ out.old }
    ensures out_later { (O.state out.old).faults ≤ (O.state out.new).faults }
{
    let answer = answer_hall(alloc, word);
    finish(out, &answer)
}

/// Does `selfrun` on a seed, but for the line on the error stream.
fn with_seed<O: Sink, L: Ledger>(
    alloc: Global,
    seed: u32,
    out: &mut O,
    steps: &mut Steps<L>,
) -> Status
    ensures outcome { (ws : List (List ℕ)) (highest store : Option ℕ) (input : SourceState) (shelf : ShelfState) → command ws ≡ Ok (Selfrun seed) →
        Outcome ws (streams highest input input store shelf shelf O.highest_count (O.state out.old) (O.state out.new)) result }
    ensures out_untouched { IsRefusal (kind_of result) → out.new ≡ out.old }
    ensures out_later { (O.state out.old).faults ≤ (O.state out.new).faults }
{
    let answer = answer_selfrun(alloc, seed, steps);
    finish(out, &answer)
}

/// Does what the words ask, but for the line on the error stream: reads a cell from the input, and a table or another cell from
/// the store, where the command wants them, and writes the report to the output.
///
/// The words are those behind the program's name. The input is read to its end and not behind it, or up to one byte past its
/// limit, however the run ends; where the words ask for no command that reads a cell, it is as it was. The store is touched by
/// `identify`, `standard` and `compare` alone, once the input is the text of a cell. After a refusal the output is as it was.
pub fn answer<I: Source, F: Shelf, O: Sink, L: Ledger>(
    alloc: Global,
    words: &Words,
    input: &mut I,
    shelf: &mut F,
    out: &mut O,
    steps: &mut Steps<L>,
) -> Status
    ensures outcome { Outcome words.now (streams I.highest_count (I.state input.old) (I.state input.new) F.highest_count
        (F.state shelf.old) (F.state shelf.new) O.highest_count (O.state out.old) (O.state out.new)) result }
    ensures taken { TakesAtMost 262145 (I.state input.old) (I.state input.new) }
    ensures stops { StopsAtEnd (I.state input.old) (I.state input.new) }
    ensures input_untouched { (IsAskedOfCell words.now → ⊥) → input.new ≡ input.old }
    ensures shelf_untouched { (IsFileWanted words.now (I.state input.old) (I.state input.new) → ⊥) → shelf.new ≡ shelf.old }
    ensures file_read { (shelf.new ≡ shelf.old) ⊎ TakesFile words.now (F.state shelf.old) (F.state shelf.new) }
    ensures out_untouched { IsRefusal (kind_of result) → out.new ≡ out.old }
    ensures in_later { (I.state input.old).faults ≤ (I.state input.new).faults }
    ensures shelf_later { (F.state shelf.old).picked.faults ≤ (F.state shelf.new).picked.faults }
    ensures out_later { (O.state out.old).faults ≤ (O.state out.new).faults }
{
    let request = match read_words(words) {
        Ok(request) => request,
        Err(fault) => return Status::Usage(fault),
    };
    match request {
        Command::Symmetry { .. }
        | Command::Primitive
        | Command::Dataset
        | Command::Orbits
        | Command::Moments => with_cell(alloc, request, input, out, steps),
        Command::Fill(filling) => with_moment(alloc, filling, input, out, steps),
        Command::Identify | Command::Standard => {
            with_table(alloc, request, argument(words), input, shelf, out, steps)
        }
        Command::Compare => with_other(alloc, argument(words), input, shelf, out),
        Command::Hall => with_symbol(alloc, argument(words), out),
        Command::Selfrun(seed) => with_seed(alloc, seed, out, steps),
    }
}
