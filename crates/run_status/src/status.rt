ghost use Rattle.std.specs.Prelude.{◌≡◌};
ghost use Rattle.run_status.specs.ExitStatuses.{number_of};

use cell_text::CellFault;
use command_words::UsageFault;
use exact_num::Int;
use hall_text::RowFault;
use matrix3::Mat3;
use report_basis::Kept;

/// How a run ended.
#[derive(Clone, Copy, Debug, PartialEq, Eq)]
pub enum Status {
    /// The whole report is written.
    Done(Kept),

    /// The whole report of `identify` or `standard` is written, and no row of the table is matched. It speaks of the basis to
    /// which Q takes coordinates.
    NoMatch(Mat3<Int>),

    /// The whole report of `compare` is written, and no map carries the one crystal onto the other. It speaks of the bases to
    /// which the two matrices take coordinates of the cells.
    Different(Mat3<Int>, Mat3<Int>),

    /// The site of the atom does not allow the moment of `fill`, in the basis to which Q takes coordinates.
    NotAllowed(Mat3<Int>),

    /// The words ask for nothing, for this fault.
    Usage(UsageFault),

    /// The input has more than 262,144 bytes.
    CellTooLong,

    /// The line with this number, from 1, is the first of the input that breaks a rule of the cell file.
    CellRefused(u32, CellFault),

    /// The cell has no atom of the number that `fill` was given.
    NoSuchAtom,

    /// The other cell of `compare` has more than 262,144 bytes.
    OtherTooLong,

    /// The line with this number, from 1, is the first of the other cell of `compare` that breaks a rule of the cell file.
    OtherRefused(u32, CellFault),

    /// The symbol of `hall` has this fault.
    SymbolRefused(RowFault),

    /// The table has this fault first, in the row with this number, from 1.
    TableRefused(u32, RowFault),

    /// The table has more than 1,048,576 bytes.
    TableTooLong,

    /// The input, the table or the other cell could not be read to its end, or there is no file of its name.
    ReadFault,

    /// The output failed once so many first bytes of the report were out.
    WriteFault(u64, Kept),

    /// There was not enough memory.
    Memory,

    /// No cell can hold the crystal in the basis of the first matched symbol of `standard`. Q takes coordinates to those in
    /// the primitive cell.
    TooWide(Mat3<Int>),
}

impl Status {
    /// The exit status of the program.
    pub fn number(&self) -> u8
        ensures { result ≡ number_of self.now }
    {
        match self {
            Status::Done(_) => 0,
            Status::NoMatch(_) | Status::Different(_, _) | Status::NotAllowed(_) => 1,
            Status::Usage(_) => 2,
            Status::CellTooLong | Status::CellRefused(_, _) | Status::NoSuchAtom => 3,
            Status::OtherTooLong | Status::OtherRefused(_, _) => 3,
            Status::SymbolRefused(_) | Status::TableRefused(_, _) | Status::TableTooLong => 4,
            Status::ReadFault => 5,
            Status::WriteFault(_, _) => 6,
            Status::Memory => 7,
            Status::TooWide(_) => 8,
        }
    }
}
