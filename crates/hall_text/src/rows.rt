// Tables of symbols.
ghost use Rattle.std.specs.Prelude.{◌≡◌, ◌<◌, ◌≤◌, ◌+◌, ◌∷◌, OnOk, vec_len, vec_items, length, map, slice_get, Some, IfOk, IfErr, MatchResult, List, ℕ};
ghost use Rattle.plain_text.specs.Text.{lines};
ghost use Rattle.hall_symbol.specs.Symbols.{HallSymbol};
ghost use Rattle.hall_text.specs.Tables.{spaced, is_skipped, is_row_form, row_of, IsRow, IsRowFault, SpellsTable, TellsTable};
ghost use Rattle.hall_text.specs.RowSteps.{RefusesRow, IsLineRead, RefusesLine};

use crate::fault::{ExpandError, RowError, RowFault, TableError};
use crate::group::check_matrices;
use crate::limits::MOST_ROWS;
use hall_symbol::text::{begins, cut, skip_spaces};
use hall_symbol::{Symbol, read_symbol};
use io_edge::Bytes;
use plain_text::{first_line, has_bad_byte};
use std::alloc::{AllocError, Global};
use std::marker::Model;

/// A row: a name and a symbol.
#[derive(Drop)]
pub(crate) struct Row {
    pub name: Bytes,
    pub symbol: Symbol,
}

/// A table of symbols with their names.
#[derive(Drop)]
pub struct Table {
    rows: Vec<Row>,
}

impl Model for Table {
    ghost use Rattle.std.specs.Prelude.{List};
    ghost use Rattle.hall_text.specs.declared.rows.Row.{Row as TableRow};

    ghost Value = { List TableRow };

    ghost view = { λ t. t.rows.items };
}

impl Table {
    /// How many rows there are.
    pub fn count(&self) -> usize
        ensures { result ≡ length self.now }
    {
        self.rows.len()
    }

    /// The name of a row, counted from 0.
    pub fn name(&self, i: usize) -> &Bytes
        requires { i < length self.now }
        ensures { slice_get (map (λ r. r.name) self.now) i ≡ Some result.now }
    {
        &self.rows[i].name
    }

    /// The symbol of a row, counted from 0.
    pub fn symbol(&self, i: usize) -> &Symbol
        requires { i < length self.now }
        ensures { slice_get (map (λ r. r.symbol) self.now) i ≡ Some result.now }
    {
        &self.rows[i].symbol
    }
}

/// The line with tabs as spaces.
fn spaced(alloc: Global, line: &[u8]) -> Result<Vec<u8>, AllocError>
    ensures { IfOk result (λ v. v.items ≡ spaced line.now) }
{
    let mut found = Vec::new(alloc);
    for b in line {
        found.push(if *b == b'\t' { b' ' } else { *b })?;
    }
    Ok(found)
}

/// Whether the line has no words, or its first word begins with `#`.
#[tactic(auto, unfolding(crate::specs::Tables::is_skipped))]
fn is_skipped(line: &[u8]) -> bool
    ensures { result ≡ is_skipped line.now }
{
    let found = skip_spaces(line);
    found.is_empty() || begins(b'#', found)
}

/// Whether the line is plain ASCII, has two words and more, and begins with a name of at most 32 bytes.
#[tactic(auto, unfolding(crate::specs::Tables::is_row_form))]
fn is_row_form(line: &[u8]) -> bool
    ensures { result ≡ is_row_form line.now }
{
    let (name, rest) = cut(skip_spaces(line), b' ');
    !has_bad_byte(line) && !skip_spaces(rest).is_empty() && name.len() <= 32
}

/// The row with this number that the line spells, or its first fault.
fn read_row(alloc: Global, number: usize, line: &[u8]) -> Result<Row, RowError>
    ensures value { MatchResult result (λ r. IsRow number line.now × (r ≡ row_of line.now)) (RefusesRow number line.now) }
    ensures within { IfOk result (λ _. number ≤ MOST_ROWS) }
{
    if MOST_ROWS < number {
        return Err(RowError::Fault(RowFault::TooManyRows));
    }
    if !is_row_form(line) {
        return Err(RowError::Fault(RowFault::BadRow));
    }
    let (name, text) = cut(skip_spaces(line), b' ');
    let symbol = match read_symbol(text) {
        Ok(symbol) => symbol,
        Err(fault) => return Err(RowError::Fault(RowFault::Symbol(fault))),
    };
    match check_matrices(alloc, &symbol) {
        Ok(()) => {}
        Err(ExpandError::TooManyMatrices) => return Err(RowError::Fault(RowFault::TooManyMatrices)),
        Err(ExpandError::Memory) => return Err(RowError::Memory),
    }
    let Ok(name) = Bytes::copy(alloc, name) else {
        return Err(RowError::Memory);
    };
    Ok(Row { name, symbol })
}

/// Reads a line: the row that it is, unless it is skipped.
fn read_line(alloc: Global, rows: &mut Vec<Row>, line: &[u8]) -> Result<(), TableError>
    requires { vec_len rows.old ≤ MOST_ROWS }
    ensures value { OnOk result (IsLineRead (vec_items rows.old) line.now (vec_items rows.new)) }
    ensures few { OnOk result (vec_len rows.new ≤ MOST_ROWS) }
    ensures refused { IfErr result (RefusesLine (vec_len rows.old + 1) line.now) }
{
    if is_skipped(line) {
        return Ok(());
    }
    let number = rows.len() + 1;
    match read_row(alloc, number, line) {
        Ok(row) => {
            let Ok(()) = rows.push(row) else {
                return Err(TableError::Memory);
            };
            Ok(())
        }
        Err(RowError::Memory) => Err(TableError::Memory),
        Err(RowError::Fault(fault)) => Err(TableError::Refused(number as u32, fault)),
    }
}

/// The table that the text spells.
///
/// A row is a name of 1 to 32 bytes, spaces or tabs, and a symbol that goes to the end of the line; inside the symbol a tab
/// counts as a space. Lines end with LF or CR LF. Lines without words, and those whose first word begins with `#`, are
/// skipped; the others are counted from 1. `Refused` names the first row with a fault, and its first fault: too many rows,
/// no row, the first fault of its symbol, too many matrices. `Memory` comes for want of memory alone. The format is our own.
pub fn read_table(alloc: Global, text: &Bytes) -> Result<Table, TableError>
    ensures value { IfOk result (SpellsTable text.now) }
    ensures refused { IfErr result (TellsTable text.now) }
{
    let mut rows = Vec::new(alloc);
    let mut rest = text.as_slice();
    while !rest.is_empty() {
        let (line, after) = first_line(rest);
        let Ok(line) = spaced(alloc, line) else {
            return Err(TableError::Memory);
        };
        match read_line(alloc, &mut rows, &line) {
            Ok(()) => {}
            Err(error) => return Err(error),
        }
        rest = after;
    }
    Ok(Table { rows })
}
