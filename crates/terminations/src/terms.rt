//! The table of terminations.
ghost use Rattle.std.specs.Prelude.{◌≡◌, ℕ, ◌<◌, ◌==◌, if◌then◌else◌, Bool, true, false, Some, None, Err, IsTrue, IfOk, IfSome, OnOk, OnErr, is_some, ◌↔◌, Contains, map};
ghost use Rattle.mg_names.specs.declared.identifiers.TermId.TheVariants.{Line, Eph};
ghost use Rattle.mg_model.specs.Items.{IsRising};
ghost use Rattle.terminations.specs.declared.faults.AddLineFault.TheVariants as AddLineFault;
ghost use Rattle.identifiers.specs.declared.fault.CreateFault.TheVariants as CreateFault;

use crate::faults::AddLineFault;
use crate::term_rows::{self, IDLE, Rows};
use identifiers::{CreateFault, Identifiers};
use mg_model::items::Settings;
use mg_model::rows::Row;
use mg_names::codes::Code;
use mg_names::identifiers::{ContextId, LineNo, TermId};
use mg_names::modes::Mode;
use std::alloc::{AllocError, Global};
use std::collections::HashMap;
use std::marker::Model;

/// The terminations of a gateway and their rows.
#[derive(Drop)]
pub struct Terms {
    lines: Rows,
    ephemerals: Identifiers<Row>,
}

/// The greatest number of an ephemeral (this profile's own).
const LAST_EPHEMERAL: u32 = u32::MAX;

impl Model for Terms {
    ghost use Rattle.terminations.specs.Table.{Table, IsSound};

    ghost Value = { Table };

    ghost view = { λ t. record { lines = t.lines.entries; ephemerals = t.ephemerals } };

    ghost invariant = { λ t. IsSound t.lines.entries t.ephemerals };
}

#[tactic(auto, unfolding(crate::specs::Table::row_of, crate::specs::Table::used_of))]
impl Terms {
    ghost use Rattle.mg_model.specs.Numbers.{last_ephemeral};
    ghost use Rattle.terminations.specs.Table.{row_of, used_of, put, left, destroyed, with_mode, with_remote, cleared, known, unless_taken, known_ephemeral, overwritten, LineHasNoRemote, SameNumbers, IsUsedUp, IsCreated};
    ghost use Rattle.terminations.specs.Rows.{fits, set_on};
    ghost use Rattle.mg_model.specs.Board.{row_with, null_row};

    /// No termination, and no number used.
    pub fn new(alloc: Global) -> Terms
        ensures rows { row_of result ≡ (λ t. None) }
        ensures used { used_of result ≡ (λ n. false) }
        ensures class { result.ephemerals.class ≡ record { first = 0; stride = 1; last = last_ephemeral } }
    {
        Terms::with_ids(alloc, 0, 1)
    }

    /// No termination, and no number used. Numbers are given that leave `first` where they are divided by `stride`, and no others, so that
    /// several tables never give the same one (this profile's own).
    pub fn with_ids(alloc: Global, first: u32, stride: u32) -> Terms
        requires { first < stride }
        ensures rows { row_of result ≡ (λ t. None) }
        ensures used { used_of result ≡ (λ n. false) }
        ensures class { result.ephemerals.class ≡ record { first = first; stride = stride; last = last_ephemeral } }
    {
        Terms {
            lines: HashMap::new(alloc),
            ephemerals: Identifiers::new(alloc, first, stride, LAST_EPHEMERAL),
        }
    }

    /// The row of a termination; `None` where it doesn't exist.
    pub fn get(&self, t: TermId) -> Option<Row>
        ensures row { result ≡ row_of self.now t }
        ensures bare { IfSome result (LineHasNoRemote t) }
    {
        match t {
            TermId::Line(line) => term_rows::row_at(&self.lines, line.0),
            TermId::Eph(number) => self.ephemerals.get(number).copied(),
        }
    }

    /// The lines that exist, in rising order.
    pub fn lines(&self, alloc: Global) -> Result<Vec<LineNo>, AllocError>
        ensures rising { IfOk result (λ found. IsRising (map (λ l. l.0) found.items)) }
        ensures exactly { IfOk result (λ found. (n : ℕ) → Contains (map (λ l. l.0) found.items) n ↔ IsTrue (is_some (row_of self.now (Line (record { 0 = n }))))) }
    {
        let found: Vec<LineNo> = crate::keys::names(alloc, &self.lines)?;
        Ok(found)
    }

    /// The numbers of the ephemerals that exist, in rising order.
    pub fn ephemerals(&self, alloc: Global) -> Result<Vec<u32>, AllocError>
        ensures rising { IfOk result (λ found. IsRising found.items) }
        ensures exactly { IfOk result (λ found. (n : ℕ) → Contains found.items n ↔ IsTrue (is_some (row_of self.now (Eph n)))) }
    {
        self.ephemerals.numbers(alloc)
    }

    /// Adds a line in the null context, Inactive (H.248.1 section 6.2: a physical termination always exists). `Known` where it
    /// is there.
    pub fn add_line(&mut self, line: LineNo) -> Result<(), AddLineFault>
        ensures known { result ≡ Err AddLineFault.Known → IsTrue (is_some (row_of self.old (Line line))) }
        ensures new { OnOk result (row_of self.old (Line line) ≡ None) }
        ensures rows { OnOk result (row_of self.new ≡ row_with (row_of self.old) (Line line) (Some null_row)) }
        ensures numbers { OnOk result (SameNumbers self.old self.new) }
        ensures unchanged { OnErr result (self.new ≡ self.old) }
    {
        if term_rows::row_at(&self.lines, line.0).is_some() {
            return Err(AddLineFault::Known);
        }
        match term_rows::insert_idle(&mut self.lines, line.0) {
            Ok(()) => Ok(()),
            Err(_) => Err(AddLineFault::NoMemory),
        }
    }

    /// Whether the number of each ephemeral is used.
    pub fn is_full(&self) -> bool
        ensures { IsTrue result ↔ IsUsedUp self.now }
    {
        self.ephemerals.is_full()
    }

    /// Creates an ephemeral in the null context, Inactive and with no Remote. `Full` where each number is
    /// used: its ephemeral is there, or was destroyed since the last `settle`. This profile's own, as is every number.
    pub fn create(&mut self) -> Result<TermId, CreateFault>
        ensures full { result ≡ Err CreateFault.Full ↔ IsUsedUp self.old }
        ensures created { IfOk result (IsCreated self.old self.new) }
        ensures unchanged { OnErr result (self.new ≡ self.old) }
    {
        let number = self.ephemerals.create(IDLE)?;
        Ok(TermId::Eph(number))
    }

    /// Replaces the whole row of a termination: its context, its mode and its Remote. It does nothing if the termination does not exist.
    /// It checks neither the context nor what the Remote names, and it takes no memory. The row of a line must have no Remote.
    /// This profile's own.
    pub fn overwrite(&mut self, t: TermId, row: Row)
        requires { LineHasNoRemote t row }
        ensures rows { row_of self.new ≡ row_with (row_of self.old) t (overwritten row (row_of self.old t)) }
        ensures numbers { SameNumbers self.old self.new }
    {
        match t {
            TermId::Line(line) => term_rows::overwrite(&mut self.lines, line.0, row),
            TermId::Eph(number) => {
                let _ = self.ephemerals.replace(number, row);
            }
        }
    }

    /// Moves a termination to `context`, or leaves it in its own if that is `None`, and sets the mode and the Remote that `settings` has;
    /// a setting that is left out keeps its value (H.248.1 sections 7.2.1, 7.2.2 and 7.2.4 on Add, Modify and Move). It does nothing if
    /// the termination does not exist. It checks neither the context nor what the Remote names, and it takes no memory. `settings` must have no
    /// Remote for a line.
    pub fn set(&mut self, t: TermId, context: Option<ContextId>, settings: &Settings)
        requires { fits t settings.now.remote ≡ true }
        ensures rows { row_of self.new ≡ row_with (row_of self.old) t (set_on context settings.now (row_of self.old t)) }
        ensures numbers { SameNumbers self.old self.new }
    {
        match t {
            TermId::Line(line) => term_rows::set(&mut self.lines, line.0, context, settings),
            TermId::Eph(number) => {
                term_rows::set_ephemeral(&mut self.ephemerals, number, context, settings)
            }
        }
    }

    /// Puts a termination that is in the null context into another one. 430 where it doesn't exist, 433 where it stands in a
    /// context already (H.248.1 section 7.2.1 on Add).
    pub fn put(&mut self, t: TermId, context: ContextId) -> Result<(), Code>
        ensures answer { result ≡ unless_taken (row_of self.old t) }
        ensures rows { row_of self.new ≡ row_with (row_of self.old) t (put context (row_of self.old t)) }
        ensures numbers { SameNumbers self.old self.new }
        ensures unchanged { OnErr result (self.new ≡ self.old) }
    {
        let Some(row) = self.get(t) else {
            return Err(Code::UnknownTermination);
        };
        if row.place.0 != ContextId::NULL.0 {
            return Err(Code::AlreadyInContext);
        }
        self.overwrite(
            t,
            Row {
                place: context,
                ..row
            },
        );
        Ok(())
    }

    /// Takes a termination into the null context. An ephemeral stays there until `destroy`. 430 where it doesn't exist.
    pub fn leave(&mut self, t: TermId) -> Result<(), Code>
        ensures answer { result ≡ known (row_of self.old t) }
        ensures rows { row_of self.new ≡ row_with (row_of self.old) t (left (row_of self.old t)) }
        ensures numbers { SameNumbers self.old self.new }
        ensures unchanged { OnErr result (self.new ≡ self.old) }
    {
        let Some(row) = self.get(t) else {
            return Err(Code::UnknownTermination);
        };
        self.overwrite(
            t,
            Row {
                place: ContextId::NULL,
                ..row
            },
        );
        Ok(())
    }

    /// Destroys an ephemeral, in whichever context it stands (H.248.1 section 7.2.3 on Subtract). Its number stays used until `settle`.
    /// 430 where it doesn't exist, and for a line.
    pub fn destroy(&mut self, t: TermId) -> Result<(), Code>
        ensures answer { result ≡ known_ephemeral t (row_of self.old t) }
        ensures rows { row_of self.new ≡ row_with (row_of self.old) t (destroyed t (row_of self.old t)) }
        ensures numbers { SameNumbers self.old self.new }
        ensures unchanged { OnErr result (self.new ≡ self.old) }
    {
        let TermId::Eph(number) = t else {
            return Err(Code::UnknownTermination);
        };
        if self.ephemerals.get(number).is_none() {
            return Err(Code::UnknownTermination);
        }
        let _ = self.ephemerals.free(number);
        Ok(())
    }

    /// Sets the mode of a termination (H.248.1 section 7.1.7). 430 where it doesn't exist.
    pub fn set_mode(&mut self, t: TermId, mode: Mode) -> Result<(), Code>
        ensures answer { result ≡ known (row_of self.old t) }
        ensures rows { row_of self.new ≡ row_with (row_of self.old) t (with_mode mode (row_of self.old t)) }
        ensures numbers { SameNumbers self.old self.new }
        ensures unchanged { OnErr result (self.new ≡ self.old) }
    {
        let Some(row) = self.get(t) else {
            return Err(Code::UnknownTermination);
        };
        self.overwrite(t, Row { mode, ..row });
        Ok(())
    }

    /// Sets the Remote of an ephemeral; whether what it names exists is not asked here. 430 where the ephemeral doesn't exist,
    /// and for a line, which has none. This profile's own.
    pub fn set_remote(&mut self, t: TermId, remote: Option<u32>) -> Result<(), Code>
        ensures answer { result ≡ known_ephemeral t (row_of self.old t) }
        ensures rows { row_of self.new ≡ row_with (row_of self.old) t (with_remote t remote (row_of self.old t)) }
        ensures numbers { SameNumbers self.old self.new }
        ensures unchanged { OnErr result (self.new ≡ self.old) }
    {
        let TermId::Eph(_) = t else {
            return Err(Code::UnknownTermination);
        };
        let Some(row) = self.get(t) else {
            return Err(Code::UnknownTermination);
        };
        self.overwrite(t, Row { remote, ..row });
        Ok(())
    }

    /// Takes back an ephemeral that is there, as if it had not been created: its number isn't used any more.
    pub fn withdraw(&mut self, number: u32)
        requires { IsTrue (is_some (row_of self.old (Eph number))) }
        ensures rows { row_of self.new ≡ row_with (row_of self.old) (Eph number) None }
        ensures used { used_of self.new ≡ (λ n. if n == number then false else used_of self.old n) }
        ensures class { self.new.ephemerals.class ≡ self.old.ephemerals.class }
    {
        self.ephemerals.withdraw(number);
    }

    /// From now on the numbers of what was destroyed may be given again. This takes no memory.
    pub fn settle(&mut self)
        ensures rows { row_of self.new ≡ row_of self.old }
        ensures used { used_of self.new ≡ (λ n. is_some (row_of self.old (Eph n))) }
        ensures class { self.new.ephemerals.class ≡ self.old.ephemerals.class }
    {
        self.ephemerals.settle();
    }

    /// The same rows, with the same numbers used. Which number comes next is not said.
    pub fn copy(&self) -> Result<Terms, AllocError>
        ensures rows { IfOk result (λ copied. row_of copied ≡ row_of self.now) }
        ensures numbers { IfOk result (SameNumbers self.now) }
    {
        let lines = term_rows::copy(&self.lines)?;
        let ephemerals = self.ephemerals.copy()?;
        Ok(Terms { lines, ephemerals })
    }

    /// Every line goes to the null context and is Inactive, no ephemeral is left, and each number may be given again.
    pub fn reset(&mut self)
        ensures rows { row_of self.new ≡ (λ t. cleared t (row_of self.old t)) }
        ensures used { used_of self.new ≡ (λ n. false) }
        ensures class { self.new.ephemerals.class ≡ self.old.ephemerals.class }
    {
        term_rows::make_idle(&mut self.lines);
        self.ephemerals.clear();
    }
}
