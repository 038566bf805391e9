//! What an engine answers to a command.

ghost use Rattle.std.specs.Prelude.{◌≡◌, ◌<◌, None, length, IsSome, IfOk, OnErr};
ghost use Rattle.lab_table.specs.Table.{Table as PlainTable};
ghost use Rattle.lab_engine.specs.declared.event.Level.{Level as Kind};
ghost use Rattle.lab_engine.specs.Effect.{IsResultOn, IsRefusalOn, IsEffectFault};
ghost use Rattle.lab_engine.specs.Limits.{max_events};
ghost use Rattle.lab_table.specs.Row.{Row};
ghost use Rattle.lab_table.specs.declared.statement.Statement.{Statement as Asked};
ghost use Rattle.lab_engine.specs.Log.{Version as Seen};
ghost use Rattle.lab_table.specs.declared.statement.Command.TheVariants.{Run};
ghost use Rattle.lab_engine.specs.Log.{Past, Txn, active, asked};
ghost use Rattle.lab_engine.specs.Asker.{IsAsker, seen_in};
ghost use Rattle.lab_engine.specs.Rules.{MayAsk};
ghost use Rattle.lab_engine.specs.Situation.{Describes};
ghost use Rattle.lab_engine.specs.WaitsFor.{AreWaits};
ghost use Rattle.lab_engine.specs.Answer.{MayGive, Answers, conflict_fault};

use crate::asker::Asker;
use crate::effect::{EffectFault, effect_of};
use crate::event::{EngineFault, Outcome};
use crate::rules::{Conflict, ConflictKind, Rules};
use crate::situation::Situation;
use crate::waits::{blockers, deadlock};
use lab_table::{Command, NoMemory, Session, Statement, Table, TxnNo};
use std::alloc::{AllocError, Global};

/// What the rules answer to a command of a session that doesn't wait, or waits with this command.
/// NoMemory where an allocation was refused; a command without a statement takes no memory.
pub fn answer_to<R: Rules>(
    alloc: Global,
    rules: &R,
    setup: &Table,
    situation: &Situation,
    session: Session,
    command: &Command,
) -> Result<Outcome, NoMemory>
    requires { (past : Past) × Describes R.kind past situation.now × (length past < max_events) }
    ensures answer { (past : Past) → Describes R.kind past situation.now → MayGive past session command.now
        → AreWaits R.kind setup.now past situation.now.waits → IfOk result (Answers R.kind setup.now past session command.now) }
    ensures err { OnErr result (IsSome (asked command.now)) }
{
    let Some(running) = situation.running(session) else {
        return Ok(without_transaction(situation, session, command));
    };
    let asker = Asker::of(rules, setup, situation, session, running);
    match command {
        Command::Begin => Ok(Outcome::Refused(EngineFault::AlreadyBegun)),
        Command::Commit => match rules.conflict(&asker) {
            None => Ok(Outcome::Committed),
            Some(conflict) => Ok(Outcome::Refused(fault_of(conflict))),
        },
        Command::Abort => Ok(Outcome::Aborted),
        Command::Run(statement) => run_statement(alloc, rules, &asker, statement),
    }
}

/// What the rules answer to a command of a session that has no active transaction.
#[tactic(auto, using(crate::proofs::EventBounds::begun_at_most))]
fn without_transaction(situation: &Situation, session: Session, command: &Command) -> Outcome
    requires { (level : Kind) × (past : Past) × Describes level past situation.now × (length past < max_events) }
    ensures { (level : Kind) (setup : PlainTable) (past : Past) → Describes level past situation.now → active past session ≡ None
        → Answers level setup past session command.now result }
{
    match command {
        Command::Begin => match TxnNo::new(situation.begun + 1) {
            Some(number) => Outcome::Begun(number),
            None => unreachable!(),
        },
        Command::Commit | Command::Abort | Command::Run(_) => {
            Outcome::Refused(EngineFault::NoTransaction)
        }
    }
}

/// The refusal of a commit for a conflict.
fn fault_of(conflict: Conflict) -> EngineFault
    ensures { result ≡ conflict_fault conflict.kind conflict.row conflict.by }
{
    let Conflict { kind, row, by } = conflict;
    match kind {
        ConflictKind::Write => EngineFault::WriteConflict { row, by },
        ConflictKind::Read => EngineFault::ReadConflict { row, by },
    }
}

/// What the rules answer to a statement of an active transaction.
/// NoMemory where an allocation was refused.
pub fn run_statement<R: Rules>(
    alloc: Global,
    rules: &R,
    asker: &Asker,
    statement: &Statement,
) -> Result<Outcome, NoMemory>
    ensures { (past : Past) (txn : Txn) → IsAsker R.kind past txn asker.now
        → AreWaits R.kind asker.now.setup.now past asker.now.situation.now.waits → MayAsk past asker.now.session statement.now
        → IfOk result (Answers R.kind asker.now.setup.now past asker.now.session (Run statement.now)) }
{
    let on = blockers(alloc, rules, asker, statement)?;
    if on.as_slice().is_empty() {
        return unblocked(alloc, asker, statement);
    }
    match deadlock(alloc, asker, &on)? {
        Some(circle) => Ok(Outcome::Refused(EngineFault::Deadlock { circle })),
        None => Ok(Outcome::Waits { on }),
    }
}

/// What a statement that nobody blocks answers on what an active transaction sees. NoMemory where an allocation was
/// refused.
fn unblocked(alloc: Global, asker: &Asker, statement: &Statement) -> Result<Outcome, NoMemory>
    ensures { IfOk result (IsResultOn (seen_in asker.now) statement.now) }
{
    match effect_of(alloc, asker, statement) {
        Ok(effect) => Ok(Outcome::Rows {
            view: effect.view,
            rows: effect.rows,
            writes: effect.writes,
        }),
        Err(fault) => Ok(Outcome::Refused(refusal(fault)?)),
    }
}

/// The refusal of a statement that can't run, but for want of memory.
fn refusal(fault: EffectFault) -> Result<EngineFault, NoMemory>
    ensures { (sees : Row → Seen) (s : Asked) → IsEffectFault sees s fault → IfOk result (IsRefusalOn sees s) }
{
    match fault {
        EffectFault::NoMemory => Err(AllocError),
        EffectFault::DuplicateKey { id } => Ok(EngineFault::DuplicateKey { id }),
        EffectFault::OutOfRange { id } => Ok(EngineFault::OutOfRange { id }),
    }
}
