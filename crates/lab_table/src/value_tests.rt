//! Whether a statement tests values, or only row numbers.

ghost use Rattle.std.specs.Prelude.{◌≡◌};
ghost use Rattle.lab_table.specs.ValueTests.{where_tests};

use crate::predicate::{Pred, PredKind};
use crate::statement::{Statement, StatementKind};

impl Statement {
    ghost use Rattle.std.specs.Prelude.{◌≡◌, false};
    ghost use Rattle.lab_table.specs.ValueTests.{kind_tests, IsBlind};

    /// Returns whether any part of the condition tests the column value. If not, as in `id in (3, 5)`, without a
    /// `where` and in an insert, whether a present row matches the statement doesn't depend on its value.
    pub fn tests_values(&self) -> bool
        ensures exact { result ≡ kind_tests self.now.kind }
        ensures blind { result ≡ false → IsBlind self.now }
    {
        match &self.kind {
            StatementKind::Select { pred } => where_tests(pred),
            StatementKind::Update { pred, .. } => where_tests(pred),
            StatementKind::Insert { .. } => false,
            StatementKind::Delete { pred } => where_tests(pred),
        }
    }
}

/// Whether what stands behind `where` has a test of the column value.
fn where_tests(pred: &Option<Pred>) -> bool
    ensures { result ≡ where_tests pred.now }
{
    match pred {
        None => false,
        Some(pred) => pred.tests_values(),
    }
}

impl Pred {
    ghost use Rattle.std.specs.Prelude.{◌≡◌};
    ghost use Rattle.lab_table.specs.ValueTests.{pred_tests};

    /// Whether the condition, or a part of it, is a test of the column value.
    fn tests_values(&self) -> bool
        ensures { result ≡ pred_tests self.now }
    {
        match &self.kind {
            PredKind::Compare { col, .. } => !col.is_id(),
            PredKind::Remainder { col, .. } => !col.is_id(),
            PredKind::OneOf { col, .. } => !col.is_id(),
            PredKind::Not(p) => p.tests_values(),
            PredKind::And(p, q) => p.tests_values() || q.tests_values(),
            PredKind::Or(p, q) => p.tests_values() || q.tests_values(),
        }
    }
}
