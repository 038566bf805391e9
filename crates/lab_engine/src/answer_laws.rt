//! Theorems: the rules permit one outcome. Stated as contracts of empty functions.

ghost use Rattle.std.specs.Prelude.{◌≡◌, ℕ, List};
ghost use Rattle.lab_table.specs.Table.{Table};
ghost use Rattle.lab_table.specs.declared.statement.Statement.{Statement};
ghost use Rattle.lab_table.specs.declared.statement.Command.{Command};
ghost use Rattle.lab_engine.specs.declared.event.Level.{Level};
ghost use Rattle.lab_engine.specs.declared.event.LogEvent.{LogEvent};
ghost use Rattle.lab_engine.specs.declared.event.Outcome.{Outcome};
ghost use Rattle.lab_engine.specs.Log.{Past};
ghost use Rattle.lab_engine.specs.LeastCircle.{IsLeastCircle};
ghost use Rattle.lab_engine.specs.Answered.{StepsTo, RetriesTo};

/// A session that requests a statement is on at most one least wait-for cycle.
#[tactic(auto, using(crate::proofs::Circles::one_least_circle))]
pub fn least_circle_unique()
    ensures { (level : Level) (setup : Table) (past : Past) (session : ℕ) (s : Statement) (circle other : List ℕ)
        → IsLeastCircle level setup past session s circle → IsLeastCircle level setup past session s other → circle ≡ other }
{}

/// After a log, a command has exactly one permitted outcome, and so one log after it. The same holds for retrying a
/// waiting command.
pub fn one_outcome()
    ensures step { (level : Level) (setup : Table) (old new another : List LogEvent) (session : ℕ) (command : Command) (one other : Outcome)
        → StepsTo level setup old session command one new → StepsTo level setup old session command other another → (one ≡ other) × (new ≡ another) }
    ensures retry { (level : Level) (setup : Table) (old new another : List LogEvent) (session : ℕ) (one other : Outcome)
        → RetriesTo level setup old session one new → RetriesTo level setup old session other another → (one ≡ other) × (new ≡ another) }
{}
