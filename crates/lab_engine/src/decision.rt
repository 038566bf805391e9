//! What the rules permit next.

ghost use Rattle.std.specs.Prelude.{◌≡◌, ◌<◌, Some, length, IsSome, IfOk, OnErr};
ghost use Rattle.lab_table.specs.declared.statement.Statement.{Statement as Asked};
ghost use Rattle.lab_table.specs.declared.statement.Command.TheVariants.{Run};
ghost use Rattle.lab_engine.specs.declared.event.EngineFault.TheVariants.{Busy};
ghost use Rattle.lab_engine.specs.declared.event.Level.{Level as Kind};
ghost use Rattle.lab_engine.specs.declared.event.Outcome.TheVariants.{Refused};
ghost use Rattle.lab_engine.specs.Limits.{max_events};
ghost use Rattle.lab_engine.specs.Log.{Past, asked, waiting};
ghost use Rattle.lab_engine.specs.Rules.{Permitted};
ghost use Rattle.lab_engine.specs.Situation.{Describes};
ghost use Rattle.lab_engine.specs.LeastCircle.{NamesLeastOf};
ghost use Rattle.lab_engine.specs.WaitsFor.{AreWaits};

use crate::answer::answer_to;
use crate::event::{EngineFault, Outcome};
use crate::rules::Rules;
use crate::situation::Situation;
use lab_table::{Command, NoMemory, Session, Table};
use std::alloc::Global;

/// What the rules answer to a command, or Busy where the session waits. NoMemory where an allocation was refused; a
/// command without a statement takes no memory.
pub fn step_outcome<R: Rules>(
    alloc: Global,
    rules: &R,
    setup: &Table,
    situation: &Situation,
    session: Session,
    command: &Command,
) -> Result<Outcome, NoMemory>
    requires { (past : Past) × Describes R.kind past situation.now × (length past < max_events) }
    ensures permitted { (past : Past) → Describes R.kind past situation.now → AreWaits R.kind setup.now past situation.now.waits → IfOk result (Permitted R.kind setup.now past session command.now) }
    ensures least { (past : Past) → Describes R.kind past situation.now → AreWaits R.kind setup.now past situation.now.waits → IfOk result (NamesLeastOf R.kind setup.now past session command.now) }
    ensures busy { (past : Past) → Describes R.kind past situation.now → AreWaits R.kind setup.now past situation.now.waits → IfOk result (λ outcome. IsSome (waiting past session) → outcome ≡ Refused Busy) }
    ensures err { OnErr result (IsSome (asked command.now)) }
{
    if situation.is_waiting(session) {
        return Ok(Outcome::Refused(EngineFault::Busy));
    }
    answer_to(alloc, rules, setup, situation, session, command)
}

/// A copy of a command. NoMemory where an allocation was refused; one without a statement takes no memory.
pub fn copy_of(alloc: Global, command: &Command) -> Result<Command, NoMemory>
    ensures copy { IfOk result (λ copy. copy ≡ command.now) }
    ensures err { OnErr result (IsSome (asked command.now)) }
{
    match command {
        Command::Begin => Ok(Command::Begin),
        Command::Commit => Ok(Command::Commit),
        Command::Abort => Ok(Command::Abort),
        Command::Run(_) => command.copy(alloc),
    }
}

/// The command that a session waits with, which is for one that waits. NoMemory where an allocation was refused.
pub fn waiting_command(
    alloc: Global,
    situation: &Situation,
    session: Session,
) -> Result<Command, NoMemory>
    requires { (level : Kind) × (past : Past) × Describes level past situation.now × IsSome (waiting past session) }
    ensures { (level : Kind) (past : Past) → Describes level past situation.now
        → IfOk result (λ command. (s : Asked) × (waiting past session ≡ Some s) × (command ≡ Run s)) }
{
    let Some(statement) = situation.waiting(session) else {
        unreachable!();
    };
    Ok(Command::Run(statement.copy(alloc)?))
}
