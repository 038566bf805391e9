//! Theorems, stated as contracts of empty functions.

ghost use Rattle.std.specs.Prelude.{◌≡◌, [], true};
ghost use Rattle.lab_history.specs.History.{History};
ghost use Rattle.lab_judge.specs.Judgement.{IsExactJudgement};
ghost use Rattle.lab_judge.specs.Runs.{HoldsEachOnce};
ghost use Rattle.lab_judge.specs.declared.report.Report.{Report};
ghost use Rattle.lab_reports.specs.declared.requirement.Requirement.{Requirement};
ghost use Rattle.lab_streams.specs.Reports.{is_idle, keeps, HasCommitted};

/// A report that says so is of a history in which no transaction committed: the empty list holds each once.
pub fn idle_histories_are_idle()
    ensures { (h : History) (report : Report) → IsExactJudgement h report → is_idle report ≡ true → HoldsEachOnce h [] }
{}

/// Only the report of a history in which a transaction committed keeps a requirement.
pub fn kept_histories_have_commits()
    ensures { (h : History) (report : Report) (requirement : Requirement) → IsExactJudgement h report → keeps requirement report ≡ true → HasCommitted h }
{}
