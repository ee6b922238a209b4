// `hall`: the operations of the group of a Hall symbol.

ghost use Rattle.std.specs.Prelude.{◌≡◌, ℕ, List, IfOk, OnErr};
ghost use Rattle.std.specs.declared.option.Option.TheVariants.{None};
ghost use Rattle.hall_symbol.specs.Spelling.{Spells, symbol_fault};
ghost use Rattle.hall_symbol.specs.Symbols.{generators};
ghost use Rattle.hall_text.specs.Products.{IsGroupOf};
ghost use Rattle.answers.specs.Answers.{IsHallAnswer};
ghost use Rattle.answers.specs.HallReports.{IsHallReport};

use crate::answer::{Answer, Report};
use hall_text::{ExpandError, RowFault, Symbol, expand, read_symbol};
use op_group::OpList;
use report_basis::Kept;
use report_text::ops_report;
use std::alloc::{AllocError, Global};

/// The lines of the group of a symbol.
fn report_of_group(alloc: Global, symbol: &Symbol, list: &OpList) -> Result<Report, AllocError>
    requires n { list.now.n ≡ 12 }
    requires exact { IsGroupOf (generators symbol.now) list.now.operations }
    ensures { IfOk result (λ report. (word : List ℕ) → Spells word symbol.now → IsHallReport word report.kept report.text) }
{
    list.invariant();
    let text = ops_report(alloc, list, 0, None)?;
    Ok(Report {
        kept: Kept::NoBase,
        text,
    })
}

/// What `hall` answers on a word: the operations of the group of the symbol that it spells, in units of 1/12 and in the
/// basis of the symbol, or the fault of the symbol.
///
/// A word that spells no symbol is told without memory. Refuses for want of memory alone.
pub fn answer_hall(alloc: Global, word: &[u8]) -> Result<Answer, AllocError>
    ensures answer { IfOk result (λ answer. IsHallAnswer word.now answer) }
    ensures read { OnErr result (symbol_fault word.now ≡ None) }
{
    let symbol = match read_symbol(word) {
        Ok(symbol) => symbol,
        Err(fault) => return Ok(Answer::SymbolRefused(RowFault::Symbol(fault))),
    };
    let list = match expand(alloc, &symbol) {
        Ok(list) => list,
        Err(ExpandError::TooManyMatrices) => {
            return Ok(Answer::SymbolRefused(RowFault::TooManyMatrices));
        }
        Err(ExpandError::Memory) => return Err(AllocError),
    };
    let report = report_of_group(alloc, &symbol, &list)?;
    Ok(Answer::Report(report))
}
