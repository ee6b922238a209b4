ghost use Rattle.std.specs.Prelude.{◌≡◌, ◌≤◌, ◌++◌, map, codes, decimal};
ghost use Rattle.std.specs.List.{concat};
ghost use Rattle.status_lines.specs.Telling.{Tells};
ghost use Rattle.run_status.specs.declared.status.Status.TheVariants.{SymbolRefused, TableRefused};
ghost use Rattle.cell_text.specs.declared.fault.CellFault.TheVariants.{SamePlace};
ghost use Rattle.hall_symbol.specs.FaultTexts.{digits_of};
ghost use Rattle.run_status.specs.StatusKinds.{kind_of, IsDone};
ghost use Rattle.status_lines.specs.Statuses.{told, fault_text, refusal, line_of};

use cell_text::{CellFault, texts};
use command_words::UsageFault;
use hall_text::RowFault;
use io_edge::{Sink, write_whole};
use itoa::Buffer;
use run_status::Status;

/// Writes the pieces of a line, one after another. A failed write leaves out the rest of the line.
fn tell_pieces<E: Sink>(err: &mut E, pieces: &[&[u8]])
    ensures told { Tells E.highest_count (E.state err.old) (E.state err.new) (concat (map (λ piece. piece.now) pieces.now)) }
    ensures later { (E.state err.old).faults ≤ (E.state err.new).faults }
{
    if let [piece, rest @ ..] = pieces {
        if write_whole(err, piece).is_ok() {
            tell_pieces(err, rest);
        }
    }
}

/// Writes that a line of a cell file breaks a rule, and the text on the rule.
fn tell_at<E: Sink>(err: &mut E, place: &[u8], line: u32, fault: &CellFault, text: &str)
    requires { text.now ≡ fault_text fault.now }
    ensures told { Tells E.highest_count (E.state err.old) (E.state err.new) (refusal place.now line fault.now) }
    ensures later { (E.state err.old).faults ≤ (E.state err.new).faults }
{
    let mut number = Buffer::new();
    let line = number.format(line).as_bytes();
    tell_pieces(
        err,
        &[
            b"magsym: ".as_slice(),
            place,
            line,
            b": ",
            text.as_bytes(),
            b"\n",
        ],
    );
}

/// Writes that a line of a cell file gives an atom at the position of another.
fn tell_same_place<E: Sink>(err: &mut E, place: &[u8], line: u32, first: u32, second: u32)
    ensures told { Tells E.highest_count (E.state err.old) (E.state err.new) (refusal place.now line (SamePlace first second)) }
    ensures later { (E.state err.old).faults ≤ (E.state err.new).faults }
{
    let (mut number, mut one, mut other) = (Buffer::new(), Buffer::new(), Buffer::new());
    let line = number.format(line).as_bytes();
    let first = one.format(first).as_bytes();
    let second = other.format(second).as_bytes();
    tell_pieces(
        err,
        &[
            b"magsym: ".as_slice(),
            place,
            line,
            b": ",
            texts::BEFORE_ATOMS.as_bytes(),
            first,
            texts::BETWEEN_ATOMS.as_bytes(),
            second,
            texts::BEHIND_ATOMS.as_bytes(),
            b"\n",
        ],
    );
}

/// Writes the line on a cell file that breaks a rule.
fn tell_refused<E: Sink>(err: &mut E, place: &[u8], line: u32, fault: &CellFault)
    ensures told { Tells E.highest_count (E.state err.old) (E.state err.new) (refusal place.now line fault.now) }
    ensures later { (E.state err.old).faults ≤ (E.state err.new).faults }
{
    match fault {
        CellFault::NotMagcell => tell_at(err, place, line, fault, texts::NOT_MAGCELL),
        CellFault::BadByte => tell_at(err, place, line, fault, texts::BAD_BYTE),
        CellFault::BadLine => tell_at(err, place, line, fault, texts::BAD_LINE),
        CellFault::BadNumber => tell_at(err, place, line, fault, texts::BAD_NUMBER),
        CellFault::NumberRange => tell_at(err, place, line, fault, texts::NUMBER_RANGE),
        CellFault::ZeroDenominator => tell_at(err, place, line, fault, texts::ZERO_DENOMINATOR),
        CellFault::MetricTwice => tell_at(err, place, line, fault, texts::METRIC_TWICE),
        CellFault::KindTwice => tell_at(err, place, line, fault, texts::KIND_TWICE),
        CellFault::KindLate => tell_at(err, place, line, fault, texts::KIND_LATE),
        CellFault::MetricMissing => tell_at(err, place, line, fault, texts::METRIC_MISSING),
        CellFault::MetricRange => tell_at(err, place, line, fault, texts::METRIC_RANGE),
        CellFault::NotPositive => tell_at(err, place, line, fault, texts::NOT_POSITIVE),
        CellFault::PositionRange => tell_at(err, place, line, fault, texts::POSITION_RANGE),
        CellFault::MomentRange => tell_at(err, place, line, fault, texts::MOMENT_RANGE),
        CellFault::TooManyAtoms => tell_at(err, place, line, fault, texts::TOO_MANY_ATOMS),
        CellFault::NoAtom => tell_at(err, place, line, fault, texts::NO_ATOM),
        CellFault::SamePlace(i, j) => tell_same_place(err, place, line, *i, *j),
        CellFault::NoEnd => tell_at(err, place, line, fault, texts::NO_END),
        CellFault::AfterEnd => tell_at(err, place, line, fault, texts::AFTER_END),
    }
}

/// Writes `magsym: `, the text and LF.
fn tell_text<E: Sink>(err: &mut E, text: &[u8])
    ensures told { Tells E.highest_count (E.state err.old) (E.state err.new) (told text.now) }
    ensures later { (E.state err.old).faults ≤ (E.state err.new).faults }
{
    tell_pieces(err, &[b"magsym: ".as_slice(), text, b"\n"]);
}

/// The decimal digits of the number, none where there is no number.
fn digits<'b>(number: Option<u32>, buffer: &'b mut Buffer) -> &'b [u8]
    ensures { result.now ≡ digits_of number }
{
    match number {
        Some(number) => buffer.format(number).as_bytes(),
        None => &[],
    }
}

/// Writes the line on a symbol that is refused.
fn tell_symbol<E: Sink>(err: &mut E, fault: &RowFault)
    ensures told { Tells E.highest_count (E.state err.old) (E.state err.new) (line_of (SymbolRefused fault.now)) }
    ensures later { (E.state err.old).faults ≤ (E.state err.new).faults }
{
    let text = fault.text();
    let mut buffer = Buffer::new();
    let number = digits(text.number, &mut buffer);
    tell_pieces(
        err,
        &[
            b"magsym: symbol: ".as_slice(),
            text.front.as_bytes(),
            number,
            text.back.as_bytes(),
            b"\n",
        ],
    );
}

/// Writes the line on a table that is refused.
fn tell_table<E: Sink>(err: &mut E, row: u32, fault: &RowFault)
    ensures told { Tells E.highest_count (E.state err.old) (E.state err.new) (line_of (TableRefused row fault.now)) }
    ensures later { (E.state err.old).faults ≤ (E.state err.new).faults }
{
    let text = fault.text();
    let (mut row_buffer, mut buffer) = (Buffer::new(), Buffer::new());
    let row = row_buffer.format(row).as_bytes();
    let number = digits(text.number, &mut buffer);
    tell_pieces(
        err,
        &[
            b"magsym: row ".as_slice(),
            row,
            b": ",
            text.front.as_bytes(),
            number,
            text.back.as_bytes(),
            b"\n",
        ],
    );
}

/// Writes the line of a status: nothing after a whole report. A failed write leaves out the rest of the line.
pub fn tell<E: Sink>(err: &mut E, status: &Status)
    ensures told { Tells E.highest_count (E.state err.old) (E.state err.new) (line_of status.now) }
    ensures untouched { IsDone (kind_of status.now) → err.new ≡ err.old }
    ensures later { (E.state err.old).faults ≤ (E.state err.new).faults }
{
    match status {
        Status::CellRefused(line, fault) => tell_refused(err, b"line ", *line, fault),
        Status::OtherRefused(line, fault) => tell_refused(err, b"other line ", *line, fault),
        Status::Done(_) | Status::NoMatch(_) | Status::Different(_, _) => {}
        Status::Usage(UsageFault::NoCommand) => tell_text(err, b"no command"),
        Status::Usage(UsageFault::UnknownCommand) => tell_text(err, b"unknown command"),
        Status::Usage(UsageFault::UnknownOption) => tell_text(err, b"unknown option"),
        Status::Usage(UsageFault::RepeatedOption) => tell_text(err, b"option given twice"),
        Status::Usage(UsageFault::MissingValue) => tell_text(err, b"option needs a value"),
        Status::Usage(UsageFault::BadValue) => tell_text(
            err,
            b"value is not a number of 1 to 9 digits",
        ),
        Status::Usage(UsageFault::ExtraWord) => tell_text(err, b"too many words"),
        Status::Usage(UsageFault::MissingWord) => tell_text(err, b"command needs one more word"),
        Status::SymbolRefused(fault) => tell_symbol(err, fault),
        Status::TableRefused(row, fault) => tell_table(err, *row, fault),
        Status::TableTooLong => tell_text(err, b"table is longer than 1048576 bytes"),
        Status::CellTooLong => tell_text(err, b"cell is longer than 262144 bytes"),
        Status::OtherTooLong => tell_text(err, b"other cell is longer than 262144 bytes"),
        Status::NoSuchAtom => tell_text(err, b"no such atom"),
        Status::NotAllowed(_) => tell_text(err, b"moment is not allowed at this site"),
        Status::TooWide(_) => tell_text(err, b"standard cell is too large"),
        Status::ReadFault => tell_text(err, b"reading failed"),
        Status::WriteFault(_, _) => tell_text(err, b"writing failed"),
        Status::Memory => tell_text(err, texts::OUT_OF_MEMORY.as_bytes()),
    }
}
