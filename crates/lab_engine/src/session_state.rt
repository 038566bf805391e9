//! The state of a session.

ghost use Rattle.std.specs.Prelude.{◌≡◌, ◌==◌, ◌<◌, ◌≤◌, ◌+◌, ◌++◌, ◌∷◌, ℕ, [], None, Some, Option, true, cond, is_some, length, OnOk};
ghost use Rattle.std.specs.Option.{option_or, option_to_list};
ghost use Rattle.std.specs.FinMap as map;
ghost use Rattle.lab_table.specs.Row.{Row};
ghost use Rattle.lab_table.specs.Table.{Rows};
ghost use Rattle.lab_history.specs.VersionName.{View};
ghost use Rattle.lab_history.specs.declared.operation.Op.{Op};
ghost use Rattle.lab_history.specs.declared.operation.VersionName.TheVariants.{Of};
ghost use Rattle.lab_engine.specs.declared.event.Level.{Level as Kind};
ghost use Rattle.lab_engine.specs.declared.event.Outcome.TheVariants.{Committed, Rows as Listed};
ghost use Rattle.lab_engine.specs.Limits.{max_events};
ghost use Rattle.lab_engine.specs.Log.{Past, Txn, active_after, asked, version_by};
ghost use Rattle.lab_engine.specs.Chains.{chain_after};
ghost use Rattle.lab_engine.specs.KeptRows.{chain_in, pending_in, AreReady};
ghost use Rattle.lab_engine.specs.Merging.{written_version};
ghost use Rattle.lab_engine.specs.Situation.{DescribesSession, DescribesRows, Agree, IsRunning, HasRoom, HasPlaces, HoldsOutcome, grown, keeps_statements, kept_of, written_by};

use crate::event::{LogEvent, Outcome};
use crate::event_query::{is_busy, is_over};
use crate::row_states::RowStates;
use crate::statements_run::StatementsRun;
use lab_history::{VersionName, Writes};
use lab_table::{Command, NoMemory, RowName, Session, Statement, TxnNo};
use std::alloc::Global;

/// An active transaction.
#[derive(Drop)]
pub struct RunningTxn {
    /// Its number.
    pub number: TxnNo,
    /// Position of its begin in the log, counted from 0.
    pub before: usize,
    /// How many operations it has run.
    pub operations: u32,
    /// The statements that it ran, in order, if the level needs them; else none.
    pub statements: StatementsRun,
    /// The rows that it wrote, each once.
    pub written: Vec<RowName>,
}

/// The state of a session.
#[derive(Drop)]
pub struct SessionState {
    pub session: Session,
    /// Its waiting statement, if it waits.
    pub waits: Option<Statement>,
    /// Its active transaction, if it has one.
    pub running: Option<RunningTxn>,
}

impl SessionState {
    /// A session that does nothing.
    pub(crate) fn idle(session: Session) -> SessionState
        ensures session { result.session ≡ session }
        ensures waits { result.waits ≡ None }
        ensures running { result.running ≡ None }
    {
        SessionState {
            session,
            waits: None,
            running: None,
        }
    }

    /// Makes room for what an event of the session keeps of its transaction: of its statement if `keeps`, and of what it
    /// writes. NoMemory where an allocation was refused.
    pub(crate) fn reserve(&mut self, keeps: bool, writes: &Writes) -> Result<(), NoMemory>
        ensures session { self.new.session ≡ self.old.session }
        ensures same { (level : Kind) (past : Past) → DescribesSession level past self.old → DescribesSession level past self.new }
        ensures places { OnOk result (HasPlaces keeps self.new.running writes.now) }
    {
        match &mut self.running {
            Some(running) => running.reserve(keeps, writes),
            None => Ok(()),
        }
    }

    /// Goes on by one event of the session, with so many events before it, and so do the rows. What is kept of its
    /// statement is taken. It can't fail: only the index of the statements may take memory.
    pub(crate) fn take_in(
        &mut self,
        alloc: Global,
        rows: &mut RowStates,
        event: &LogEvent,
        kept: &mut Option<Statement>,
        before: usize,
    )
        requires few { HasRoom self.old.running }
        requires room { HoldsOutcome (is_some kept.old) event.now.outcome self.old.running rows.old }
        ensures session { self.new.session ≡ self.old.session }
        ensures goes_on { (level : Kind) (past : Past) → kept.old ≡ kept_of (keeps_statements level) event.now.command event.now.outcome
            → event.now.session ≡ self.old.session → before ≡ length past → DescribesSession level past self.old × DescribesRows past rows.old
            → DescribesSession level (event.now ∷ past) self.new × DescribesRows (event.now ∷ past) rows.new }
    {
        if is_busy(&event.outcome) {
            return;
        }
        self.waits = None;
        match &event.outcome {
            Outcome::Begun(number) => {
                give_up(rows, self.session, &self.running);
                self.running = Some(RunningTxn::begin(alloc, *number, before));
            }
            Outcome::Rows { writes, .. } => {
                run_in(
                    alloc,
                    rows,
                    self.session,
                    &mut self.running,
                    &event.command,
                    kept,
                    writes,
                );
            }
            Outcome::Waits { .. } => {
                self.waits = kept.take();
            }
            Outcome::Committed => {
                install(rows, self.session, &self.running, before);
                self.running = None;
            }
            other => {
                if is_over(other) {
                    give_up(rows, self.session, &self.running);
                    self.running = None;
                }
            }
        }
    }
}

impl RunningTxn {
    /// A transaction that begins, with so many events before; it takes no memory.
    fn begin(alloc: Global, number: TxnNo, before: usize) -> RunningTxn
        ensures { (level : Kind) (past : Past) → before ≡ length past → IsRunning level (record { no = number; ops = []; before = past }) result }
    {
        RunningTxn {
            number,
            before,
            operations: 0,
            statements: StatementsRun::new(alloc),
            written: Vec::new(alloc),
        }
    }

    /// Makes room for one more statement, if it is kept, and the rows that it writes. NoMemory where an allocation was
    /// refused.
    fn reserve(&mut self, keeps: bool, writes: &Writes) -> Result<(), NoMemory>
        ensures number { self.new.number ≡ self.old.number }
        ensures before { self.new.before ≡ self.old.before }
        ensures operations { self.new.operations ≡ self.old.operations }
        ensures statements { self.new.statements.items ≡ self.old.statements.items }
        ensures written { self.new.written.items ≡ self.old.written.items }
        ensures places { OnOk result (HasPlaces keeps (Some self.new) writes.now) }
    {
        reserve_one(&mut self.statements, keeps)?;
        self.written.try_reserve(writes.entries().len())
    }

    /// Goes on by an operation of its session, of whose statement this is kept, and so do the rows.
    fn run(
        &mut self,
        alloc: Global,
        rows: &mut RowStates,
        session: Session,
        kept: Option<Statement>,
        writes: &Writes,
    )
        requires few { self.old.operations < max_events }
        requires places { HasPlaces (is_some kept) (Some self.old) writes.now }
        requires ready { AreReady rows.old writes.now }
        ensures txn { (level : Kind) (txn : Txn) (op : Op) → IsRunning level txn self.old → ((row : Row) → pending_in rows.old row session ≡ version_by txn row)
            → kept ≡ cond (keeps_statements level) (Some op.statement) None → op.writes ≡ writes.now → IsRunning level (grown txn op) self.new }
        ensures chain { (row : Row) → chain_in rows.new row ≡ chain_in rows.old row }
        ensures pending { (row : Row) (n : ℕ) → pending_in rows.new row n ≡ cond (n == session)
            (option_or (written_version (Of self.old.number (self.old.operations + 1)) (map.get writes.now row)) (pending_in rows.old row n)) (pending_in rows.old row n) }
    {
        self.operations += 1;
        let name = VersionName::Of {
            txn: self.number,
            op: self.operations,
        };
        rows.note_new(session, writes, &mut self.written);
        rows.hold_each(session, name, writes);
        keep(alloc, &mut self.statements, kept);
    }
}

/// Makes room for one more statement, if it is kept. NoMemory where an allocation was refused.
fn reserve_one(statements: &mut StatementsRun, keeps: bool) -> Result<(), NoMemory>
    ensures items { statements.new.items ≡ statements.old.items }
    ensures place { OnOk result (keeps ≡ true → length statements.new.items + 1 ≤ statements.new.places) }
{
    if keeps { statements.reserve() } else { Ok(()) }
}

/// Puts a statement, if there is one, behind others.
fn keep(alloc: Global, statements: &mut StatementsRun, kept: Option<Statement>)
    requires { is_some kept ≡ true → length statements.old.items + 1 ≤ statements.old.places }
    ensures { statements.new.items ≡ statements.old.items ++ option_to_list kept }
{
    if let Some(statement) = kept {
        statements.add(alloc, statement);
    }
}

/// An active transaction, if there is one, goes on by an operation of its session, and so do the rows. What is kept of
/// its statement is taken.
fn run_in(
    alloc: Global,
    rows: &mut RowStates,
    session: Session,
    running: &mut Option<RunningTxn>,
    command: &Command,
    kept: &mut Option<Statement>,
    writes: &Writes,
)
    requires few { HasRoom running.old }
    requires places { HasPlaces (is_some kept.old) running.old writes.now }
    requires ready { AreReady rows.old writes.now }
    ensures txn { (level : Kind) (past : Past) (txn : Option Txn) (view : View) (lists : Rows) → Agree level txn running.old → ((row : Row) → pending_in rows.old row session ≡ written_by txn row)
        → kept.old ≡ cond (keeps_statements level) (asked command.now) None → Agree level (active_after command.now (Listed view lists writes.now) past txn) running.new }
    ensures chain { (row : Row) → chain_in rows.new row ≡ chain_in rows.old row }
    ensures pending { (level : Kind) (past : Past) (txn : Option Txn) (view : View) (lists : Rows) → Agree level txn running.old → ((row : Row) → pending_in rows.old row session ≡ written_by txn row)
        → (row : Row) (n : ℕ) → pending_in rows.new row n ≡ cond (n == session) (written_by (active_after command.now (Listed view lists writes.now) past txn) row) (pending_in rows.old row n) }
{
    let Command::Run(_) = command else {
        return;
    };
    if let Some(running) = running {
        running.run(alloc, rows, session, kept.take(), writes);
    }
}

/// Gives up what a session's transaction, if it has one, has pending.
fn give_up(rows: &mut RowStates, session: Session, running: &Option<RunningTxn>)
    ensures chain { (row : Row) → chain_in rows.new row ≡ chain_in rows.old row }
    ensures pending { (level : Kind) (txn : Option Txn) → Agree level txn running.now → ((row : Row) → pending_in rows.old row session ≡ written_by txn row)
        → (row : Row) (n : ℕ) → pending_in rows.new row n ≡ cond (n == session) None (pending_in rows.old row n) }
{
    if let Some(running) = running {
        rows.give_up_each(&running.written, session);
    }
}

/// Installs what a session's transaction, if it has one, has pending, by a commit with so many events before it.
fn install(rows: &mut RowStates, session: Session, running: &Option<RunningTxn>, before: usize)
    ensures chain { (level : Kind) (txn : Option Txn) → Agree level txn running.now → ((row : Row) → pending_in rows.old row session ≡ written_by txn row)
        → (row : Row) → chain_in rows.new row ≡ chain_after Committed txn before row (chain_in rows.old row) }
    ensures pending { (level : Kind) (txn : Option Txn) → Agree level txn running.now → ((row : Row) → pending_in rows.old row session ≡ written_by txn row)
        → (row : Row) (n : ℕ) → pending_in rows.new row n ≡ cond (n == session) None (pending_in rows.old row n) }
{
    if let Some(running) = running {
        rows.install_each(&running.written, session, running.number, before);
    }
}
