//! Theorems on logs in which reads stay valid until the commit, stated as contracts of empty functions.

ghost use Rattle.std.specs.Prelude.{IsTrue};
ghost use Rattle.lab_table.specs.Table.{Table};
ghost use Rattle.lab_history.specs.History.{History};
ghost use Rattle.lab_engine.specs.declared.event.Level.{Level};
ghost use Rattle.lab_engine.specs.declared.event.Level.TheVariants.{Locking};
ghost use Rattle.lab_engine.specs.RuleTable.{rules_of, keeps_reads};
ghost use Rattle.lab_engine.specs.Log.{Past};
ghost use Rattle.lab_engine.specs.Rules.{IsLegal};
ghost use Rattle.lab_engine.specs.Recording.{IsLegalRecording};
ghost use Rattle.lab_judge.specs.Runs.{IsSerialRun};
ghost use Rattle.lab_judge.specs.Places.{IsForwardOrder};
ghost use Rattle.lab_judge.specs.Phenomena.{NoWalk, IsClosedWalk};
ghost use Rattle.lab_judge.specs.LogOrders.{commit_order};
ghost use Rattle.lab_judge.specs.Stable.{ReadsStable};

/// At any level, if the reads of each operation stay valid until the commit of its transaction, every dependency
/// follows the order of commits. So that order is a serial run.
pub fn stable_reads_are_serial()
    ensures forward { (level : Level) (setup : Table) (past : Past) (h : History) → IsLegalRecording level setup past h → ReadsStable level setup past → IsForwardOrder h (commit_order past) }
    ensures serial { (level : Level) (setup : Table) (past : Past) (h : History) → IsLegalRecording level setup past h → ReadsStable level setup past → IsSerialRun h (commit_order past) }
    ensures no_walk { (level : Level) (setup : Table) (past : Past) (h : History) → IsLegalRecording level setup past h → ReadsStable level setup past → NoWalk (IsClosedWalk h) }
{}

/// Locking keeps reads stable, and so does each level whose rules keep what a transaction has read unchanged until its
/// commit: a transaction that would change it waits, or the commit fails.
pub fn who_keeps_reads_stable()
    ensures locking { (setup : Table) (past : Past) → ReadsStable Locking setup past }
    ensures kept { (level : Level) (setup : Table) (past : Past) → IsTrue (keeps_reads (rules_of level)) → IsLegal level setup past → ReadsStable level setup past }
{}
