// The reader, which takes the lines of a text one by one.
ghost use Rattle.std.specs.Prelude.{true, false, ◌≡◌, ◌<◌, ◌≤◌, ◌++◌, [], ◌∷◌, length, map, OnOk, IfOk};
ghost use Rattle.std.specs.List.{list_all};
ghost use Rattle.plain_text.specs.Text.{words};
ghost use Rattle.plain_text.specs.NumberWords.{scaled};
ghost use Rattle.cell_text.specs.Entries.{start, with_metric, with_atom, with_end, with_kind, with_entry, with_line, kind_of, moments, is_billion, atom_line_of, metric_of, values};
ghost use Rattle.cell_text.specs.Rules.{metric_fault, place_fault, kind_fault, atom_fault, end_fault, entry_fault, later_fault, judged};
ghost use Rattle.cell_text.specs.CellFile.{cell_with};
ghost use Rattle.cell_text.specs.Views.{Judges, IsOfScalar, atom_view, entry_view, words_view, moment_view};

use crate::atom::{are_moments_in_range, is_moment_in_range, is_of_kind, read_atom, same_place};
use crate::atom_line::AtomLine;
use crate::cell::{cell_of, kind_or_default};
use crate::fault::{CellFault, LineError};
use crate::form::Form;
use crate::line::{form_of, heading};
use crate::metric::metric_of;
use crate::number_words::read_numbers;
use crate::scaled_metric::ScaledMetric;
use crate::three::{MomentWords, ThreeWords};
use crate::version::Version;
use crystal::{Cell, MOST_ATOMS, MomentKind, Name};
use plain_text::{grown, has_bad_byte, words};
use std::alloc::{AllocError, Global};
use std::marker::Model;

/// The lines so far.
#[derive(Drop)]
pub(crate) struct Reader {
    version: Option<Version>,
    kind: Option<MomentKind>,
    metric: Option<ScaledMetric>,
    atoms: Vec<AtomLine>,
    n: u128,
    k: u128,
    ended: bool,
}

impl Model for Reader {
    ghost use Rattle.cell_text.specs.Entries.{State};
    ghost use Rattle.cell_text.specs.Readers.{state_of, IsReader};

    ghost Value = { State };

    ghost view = { state_of };

    ghost invariant = { IsReader };
}

impl Reader {
    /// No line so far.
    #[tactic(auto, unfolding(crate::specs::Entries::moments, crate::specs::Entries::positions))]
    pub(crate) fn new(alloc: Global) -> Reader
        ensures { result ≡ start }
    {
        Reader {
            version: None,
            kind: None,
            metric: None,
            atoms: Vec::new(alloc),
            n: 1,
            k: 1,
            ended: false,
        }
    }

    /// Whether an end line came.
    pub(crate) fn is_ended(&self) -> bool
        ensures { result ≡ self.now.held.ended }
    {
        self.ended
    }

    /// The cell of the lines. Refuses for want of memory alone.
    pub(crate) fn finish(&self, alloc: Global) -> Result<Cell, AllocError>
        requires { self.now.held.ended ≡ true }
        ensures { IfOk result (λ c. c ≡ cell_with self.now.held) }
    {
        let Some(metric) = self.metric else {
            unreachable!();
        };
        cell_of(
            alloc,
            &self.kind,
            &metric,
            self.n as u32,
            self.k as u32,
            &self.atoms,
        )
    }

    /// Whether k times each moment is at most 10^9 in size, where k is a multiple of the common denominator so far.
    fn are_moments_in_range(&self, atom: &AtomLine, k: u128) -> bool
        requires { k ≤ 1000000 }
        ensures { result ≡ list_all (λ m. is_billion (scaled k m)) (moments (self.now.held.atoms ++ atom_view atom.now ∷ [])) }
    {
        (k == self.k || are_moments_in_range(&self.atoms, k)) && is_moment_in_range(atom, k)
    }

    /// One more atom.
    fn place(&mut self, atom: AtomLine) -> Result<(), LineError>
        requires fewer { length self.old.held.atoms < MOST_ATOMS }
        requires of_kind { (kind_of self.old.held).vector ≡ false → IsOfScalar (atom_view atom) }
        ensures judged { Judges (place_fault self.old.held (atom_view atom)) result }
        ensures next { OnOk result (self.new ≡ record self.old { held = with_atom self.old.held (atom_view atom) }) }
    {
        let place = &atom.position;
        let Some(n) = grown(self.n, &place.a, &place.b, &place.c, 1_000_000) else {
            return Err(LineError::Fault(CellFault::PositionRange));
        };
        let moment = &atom.moment;
        let Some(k) = grown(self.k, &moment.a, &moment.b, &moment.c, 1_000_000) else {
            return Err(LineError::Fault(CellFault::MomentRange));
        };
        if !self.are_moments_in_range(&atom, k) {
            return Err(LineError::Fault(CellFault::MomentRange));
        }
        same_place(&self.atoms, &atom)?;
        self.atoms.push(atom)?;
        self.n = n;
        self.k = k;
        Ok(())
    }

    /// An atom line of a file of this version.
    #[tactic(auto, unfolding(crate::specs::Rules::atom_fault))]
    fn read_atom(
        &mut self,
        version: Version,
        name: Name,
        position: ThreeWords,
        moment: MomentWords,
    ) -> Result<(), LineError>
        ensures judged { Judges (atom_fault version self.old.held name (words_view position.entry ++ moment_view moment.entry)) result }
        ensures next { OnOk result (self.new ≡ record self.old { held = with_atom self.old.held (atom_line_of name (values (words_view position.entry ++ moment_view moment.entry))) }) }
    {
        if !is_of_kind(kind_or_default(self.kind), &moment) {
            return Err(LineError::Fault(CellFault::BadLine));
        }
        if self.atoms.len() >= MOST_ATOMS {
            return Err(LineError::Fault(CellFault::TooManyAtoms));
        }
        let atom = read_atom(version, name, position, moment)?;
        self.place(atom)
    }

    /// A metric line of a file of this version.
    #[tactic(auto, unfolding(crate::specs::Rules::metric_fault))]
    fn read_metric(
        &mut self,
        version: Version,
        squares: ThreeWords,
        products: ThreeWords,
    ) -> Result<(), LineError>
        ensures judged { Judges (metric_fault version self.old.held (words_view squares.entry ++ words_view products.entry)) result }
        ensures next { OnOk result (self.new ≡ record self.old { held = with_metric self.old.held (metric_of (values (words_view squares.entry ++ words_view products.entry))) }) }
    {
        if self.metric.is_some() {
            return Err(LineError::Fault(CellFault::MetricTwice));
        }
        let squares = read_numbers(version, squares)?;
        let products = read_numbers(version, products)?;
        let Some(metric) = metric_of(&squares, &products) else {
            return Err(LineError::Fault(CellFault::MetricRange));
        };
        if !metric.is_positive() {
            return Err(LineError::Fault(CellFault::NotPositive));
        }
        self.metric = Some(metric);
        Ok(())
    }

    /// An end line.
    #[tactic(auto, unfolding(crate::specs::Rules::end_fault))]
    fn read_end(&mut self) -> Result<(), LineError>
        ensures judged { Judges (end_fault self.old.held) result }
        ensures next { OnOk result (self.new ≡ record self.old { held = with_end self.old.held }) }
    {
        if self.metric.is_none() {
            return Err(LineError::Fault(CellFault::MetricMissing));
        }
        if self.atoms.len() == 0 {
            return Err(LineError::Fault(CellFault::NoAtom));
        }
        self.ended = true;
        Ok(())
    }

    /// A kind line.
    #[tactic(auto, unfolding(crate::specs::Rules::kind_fault))]
    fn read_kind(&mut self, kind: MomentKind) -> Result<(), LineError>
        ensures judged { Judges (kind_fault self.old.held) result }
        ensures next { OnOk result (self.new ≡ record self.old { held = with_kind self.old.held kind }) }
    {
        if self.kind.is_some() {
            return Err(LineError::Fault(CellFault::KindTwice));
        }
        if self.atoms.len() > 0 {
            return Err(LineError::Fault(CellFault::KindLate));
        }
        self.kind = Some(kind);
        Ok(())
    }

    /// A line of a file of this version, by its form.
    fn read_form(&mut self, version: Version, form: Form) -> Result<(), LineError>
        ensures judged { Judges (entry_fault version self.old.held (entry_view form.entry)) result }
        ensures next { OnOk result (self.new ≡ record self.old { held = with_entry self.old.held (entry_view form.entry) }) }
    {
        match form {
            Form::Skipped => Ok(()),
            Form::Metric(squares, products) => self.read_metric(version, squares, products),
            Form::Atom(name, position, moment) => self.read_atom(version, name, position, moment),
            Form::End => self.read_end(),
            Form::Kind(kind) => self.read_kind(kind),
            Form::Other => Err(LineError::Fault(CellFault::BadLine)),
        }
    }

    /// A later line of a file of this version, which has this form.
    #[tactic(auto, unfolding(crate::specs::Rules::later_fault))]
    fn read_later(&mut self, version: Version, line: &[u8], form: Form) -> Result<(), LineError>
        ensures judged { Judges (later_fault version self.old.held line.now (entry_view form.entry)) result }
        ensures next { OnOk result (self.new ≡ record self.old { held = with_entry self.old.held (entry_view form.entry) }) }
    {
        if let Form::Skipped = form {
            return Ok(());
        }
        if has_bad_byte(line) {
            return Err(LineError::Fault(CellFault::BadByte));
        }
        if self.ended {
            return Err(LineError::Fault(CellFault::AfterEnd));
        }
        self.read_form(version, form)
    }

    /// The next line of the text.
    pub(crate) fn read(&mut self, alloc: Global, line: &[u8]) -> Result<(), LineError>
        ensures judged { Judges (judged self.old line.now) result }
        ensures next { OnOk result (self.new ≡ with_line self.old line.now) }
    {
        let words = words(alloc, line)?;
        let Some(version) = self.version else {
            self.version = Some(heading(line, &words)?);
            return Ok(());
        };
        self.read_later(version, line, form_of(version, &words))
    }
}
