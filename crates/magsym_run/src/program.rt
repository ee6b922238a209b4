ghost use Rattle.std.specs.Prelude.{◌≡◌, ◌<◌, ◌≤◌, ◌⊎◌};
ghost use Rattle.io_edge.specs.Reading.{TakesAtMost, StopsAtEnd};
ghost use Rattle.run_status.specs.StatusKinds.{kind_of, IsDone, IsRefusal, IsAnswered};
ghost use Rattle.status_lines.specs.Statuses.{line_of};
ghost use Rattle.status_lines.specs.Telling.{Tells};
ghost use Rattle.magsym_run.specs.Completeness.{IsAnswerable};
ghost use Rattle.command_runs.specs.Outcomes.{streams, Outcome, IsAskedOfCell, IsFileWanted, TakesFile};

use command_runs::answer;
use command_words::Words;
use crystal::Steps;
use io_edge::{Shelf, Sink, Source};
use run_status::Status;
use status_lines::tell;
use std::alloc::Global;
use std::sync::ledger::{Blank, Ledger};

/// Does what the words ask: reads a cell from the input, and a table or another cell from the store, where the command wants
/// them, writes the report to the output, and where there is none, one line on why to the error stream.
///
/// The words are those behind the program's name. The input is read to its end and not behind it, or up to one byte past its
/// limit, however the run ends; where the words ask for no command that reads a cell, it is as it was. The store is touched by
/// `identify`, `standard` and `compare` alone, once the input is the text of a cell. After a whole report the error stream is as it was.
pub fn run<I: Source, F: Shelf, O: Sink, E: Sink, L: Ledger>(
    alloc: Global,
    words: &Words,
    input: &mut I,
    shelf: &mut F,
    out: &mut O,
    err: &mut E,
    steps: &mut Steps<L>,
) -> Status
    ensures outcome { Outcome words.now (streams I.highest_count (I.state input.old) (I.state input.new) F.highest_count
        (F.state shelf.old) (F.state shelf.new) O.highest_count (O.state out.old) (O.state out.new)) result }
    ensures complete { IsAnswerable words.now (streams I.highest_count (I.state input.old) (I.state input.new) F.highest_count
        (F.state shelf.old) (F.state shelf.new) O.highest_count (O.state out.old) (O.state out.new)) → IsAnswered (kind_of result) }
    ensures told { Tells E.highest_count (E.state err.old) (E.state err.new) (line_of result) }
    ensures err_untouched { IsDone (kind_of result) → err.new ≡ err.old }
    ensures taken { TakesAtMost 262145 (I.state input.old) (I.state input.new) }
    ensures stops { StopsAtEnd (I.state input.old) (I.state input.new) }
    ensures input_untouched { (IsAskedOfCell words.now → ⊥) → input.new ≡ input.old }
    ensures shelf_untouched { (IsFileWanted words.now (I.state input.old) (I.state input.new) → ⊥) → shelf.new ≡ shelf.old }
    ensures file_read { (shelf.new ≡ shelf.old) ⊎ TakesFile words.now (F.state shelf.old) (F.state shelf.new) }
    ensures out_untouched { IsRefusal (kind_of result) → out.new ≡ out.old }
    ensures in_later { (I.state input.old).faults ≤ (I.state input.new).faults }
    ensures shelf_later { (F.state shelf.old).picked.faults ≤ (F.state shelf.new).picked.faults }
    ensures out_later { (O.state out.old).faults ≤ (O.state out.new).faults }
    ensures err_later { (E.state err.old).faults ≤ (E.state err.new).faults }
{
    let status = answer(alloc, words, input, shelf, out, steps);
    tell(err, &status);
    status
}

/// The same, over a new counter of steps.
pub fn run_counted<L: Ledger, I: Source, F: Shelf, O: Sink, E: Sink>(
    alloc: Global,
    blank: Blank,
    words: &Words,
    input: &mut I,
    shelf: &mut F,
    out: &mut O,
    err: &mut E,
) -> Status
    requires name { blank.name ≡ L.name }
    requires parts { blank.parts ≡ L.parts }
    requires some { 0 < L.parts }
    ensures outcome { Outcome words.now (streams I.highest_count (I.state input.old) (I.state input.new) F.highest_count
        (F.state shelf.old) (F.state shelf.new) O.highest_count (O.state out.old) (O.state out.new)) result }
    ensures complete { IsAnswerable words.now (streams I.highest_count (I.state input.old) (I.state input.new) F.highest_count
        (F.state shelf.old) (F.state shelf.new) O.highest_count (O.state out.old) (O.state out.new)) → IsAnswered (kind_of result) }
    ensures told { Tells E.highest_count (E.state err.old) (E.state err.new) (line_of result) }
    ensures err_untouched { IsDone (kind_of result) → err.new ≡ err.old }
    ensures taken { TakesAtMost 262145 (I.state input.old) (I.state input.new) }
    ensures stops { StopsAtEnd (I.state input.old) (I.state input.new) }
    ensures input_untouched { (IsAskedOfCell words.now → ⊥) → input.new ≡ input.old }
    ensures shelf_untouched { (IsFileWanted words.now (I.state input.old) (I.state input.new) → ⊥) → shelf.new ≡ shelf.old }
    ensures file_read { (shelf.new ≡ shelf.old) ⊎ TakesFile words.now (F.state shelf.old) (F.state shelf.new) }
    ensures out_untouched { IsRefusal (kind_of result) → out.new ≡ out.old }
    ensures in_later { (I.state input.old).faults ≤ (I.state input.new).faults }
    ensures shelf_later { (F.state shelf.old).picked.faults ≤ (F.state shelf.new).picked.faults }
    ensures out_later { (O.state out.old).faults ≤ (O.state out.new).faults }
    ensures err_later { (E.state err.old).faults ≤ (E.state err.new).faults }
{
    let mut steps = Steps::<L>::new(blank);
    run(alloc, words, input, shelf, out, err, &mut steps)
}
