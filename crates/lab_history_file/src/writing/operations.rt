//! The operations and transactions of a history as JSON texts. Each function appends; after NoMemory, part of what was to
//! be appended may stand there.

ghost use Rattle.std.specs.Prelude.{◌≡◌, ◌++◌, OnOk};
ghost use Rattle.std.specs.List.{All};
ghost use Rattle.json.specs.Print.{quoted};
ghost use Rattle.lab_printing.specs.Limits.{StatementPrints};
ghost use Rattle.lab_printing.specs.Printed.{printed_statement};
ghost use Rattle.lab_history.specs.HistoryRules.{OpKeeps};
ghost use Rattle.lab_history_file.specs.FileOf.{outcome_text, SpellsIn, IsOperation, IsTransaction};
ghost use Rattle.lab_history_file.specs.Tree.{op_tree, txn_tree};
ghost use Rattle.lab_history_file.specs.declared.file_version.FileVersion.TheVariants.{Two};

use crate::part::Part;
use crate::writing::entries::{put_rows, put_view, put_writes};
use crate::writing::json_text::{JsonText, put_list};
use lab_history::{Op, Outcome, Txn};
use lab_printing::put_statement;
use lab_table::{NoMemory, Statement};

/// Appends the printed form of a statement within the limits as a string. It has nothing that is escaped.
#[tactic(auto, using(crate::proofs::WrittenTexts::printed_spells))]
fn put_printed(out: &mut Vec<u8>, statement: &Statement) -> Result<(), NoMemory>
    requires { StatementPrints statement.now }
    ensures text { OnOk result (out.new.items ≡ out.old.items ++ quoted (printed_statement statement.now)) }
    ensures again { OnOk result (SpellsIn Two (printed_statement statement.now) statement.now) }
{
    out.push(b'"')?;
    put_statement(out, statement)?;
    out.push(b'"')?;
    Ok(())
}

/// `{rows, statement, view, writes}`.
impl JsonText for Op {
    ghost Keeps = { OpKeeps };

    ghost tree = { op_tree };

    ghost Is = { IsOperation Two };

    fn put(&self, out: &mut Vec<u8>) -> Result<(), NoMemory> {
        out.extend_from_slice(b"{\"rows\":")?;
        put_rows(out, &self.rows)?;
        out.extend_from_slice(b",\"statement\":")?;
        put_printed(out, &self.statement)?;
        out.extend_from_slice(b",\"view\":")?;
        put_view(out, &self.view)?;
        out.extend_from_slice(b",\"writes\":")?;
        put_writes(out, &self.writes)?;
        out.push(b'}')?;
        Ok(())
    }
}

/// Appends an outcome as a string.
#[tactic(auto, using(crate::proofs::WrittenTexts::outcome_quoted))]
fn put_outcome(out: &mut Vec<u8>, outcome: Outcome) -> Result<(), NoMemory>
    ensures { OnOk result (out.new.items ≡ out.old.items ++ quoted (outcome_text outcome)) }
{
    match outcome {
        Outcome::Committed => out.extend_from_slice(b"\"committed\""),
        Outcome::Aborted => out.extend_from_slice(b"\"aborted\""),
    }
}

/// `{no, ops, outcome}`.
impl JsonText for Txn {
    ghost Keeps = { λ txn. All OpKeeps txn.ops };

    ghost tree = { txn_tree };

    ghost Is = { IsTransaction Two };

    fn put(&self, out: &mut Vec<u8>) -> Result<(), NoMemory> {
        out.extend_from_slice(b"{\"no\":")?;
        self.no.put_part(out)?;
        out.extend_from_slice(b",\"ops\":")?;
        put_list(out, self.ops.as_slice())?;
        out.extend_from_slice(b",\"outcome\":")?;
        put_outcome(out, self.outcome)?;
        out.push(b'}')?;
        Ok(())
    }
}
