//! Operations of a history file, read from its tokens.

ghost use Rattle.std.specs.Prelude.{◌≡◌, Some, IfOk, IfSome, option_and_then};
ghost use Rattle.lab_history_file.specs.FileOf.{IsListOf, IsOperation};
ghost use Rattle.lab_history_file.specs.Format.{only_in};
ghost use Rattle.lab_history_file.specs.Spelled.{Spelled};
ghost use Rattle.lab_statement.specs.StatementText.{statement_in};

use super::super::cursor::Cursor;
use super::super::operation::only;
use super::super::stop::Stop;
use super::lists::entries_of;
use super::object::{Fields, fill, read_object};
use crate::file_version::FileVersion;
use lab_history::{MAX_OPERATIONS, Op, Ops, Rows, State, VersionName, View, Writes};
use lab_statement::{ScriptFault, parse_statement};
use lab_table::{Statement, Value};
use std::alloc::Global;

/// The members of an operation that have been read.
#[derive(Drop)]
struct OpFields {
    rows: Option<Rows>,
    statement: Option<Statement>,
    view: Option<View>,
    writes: Option<Writes>,
}

impl OpFields {
    /// The operation, if it has all its members.
    fn into_op(self) -> Option<Op>
        ensures { IfSome result (λ op. (self.rows ≡ Some op.rows) × (self.statement ≡ Some op.statement) × (self.view ≡ Some op.view) × (self.writes ≡ Some op.writes)) }
    {
        let OpFields {
            rows,
            statement,
            view,
            writes,
        } = self;
        let rows = rows?;
        let statement = statement?;
        let view = view?;
        let writes = writes?;
        Some(Op {
            statement,
            view,
            rows,
            writes,
        })
    }
}

impl Fields for OpFields {
    ghost use Rattle.lab_history_file.specs.Fields.{HoldOp};

    ghost LEVELS = { 3 };

    ghost hold = { HoldOp };

    #[tactic(auto, using(lab_history::proofs::NewStates::new_states_sorted))]
    fn read_member(
        &mut self,
        alloc: Global,
        version: FileVersion,
        key: &str,
        cursor: &mut Cursor<'_>,
    ) -> Result<(), Stop> {
        if key == "rows" {
            let entries = entries_of::<Value>(alloc, version, cursor)?;
            fill(&mut self.rows, Rows::new(entries));
            Ok(())
        } else if key == "statement" {
            let text = cursor.text()?;
            let statement = statement_of(alloc, version, text)?;
            fill(&mut self.statement, statement);
            Ok(())
        } else if key == "view" {
            let entries = entries_of::<VersionName>(alloc, version, cursor)?;
            fill(&mut self.view, View::new(entries));
            Ok(())
        } else if key == "writes" {
            let entries = entries_of::<State>(alloc, version, cursor)?;
            fill(&mut self.writes, Writes::new(entries));
            Ok(())
        } else {
            Err(Stop::Fault)
        }
    }
}

/// Reads a list of operations, [`MAX_OPERATIONS`] at most.
pub fn ops_of(alloc: Global, version: FileVersion, cursor: &mut Cursor<'_>) -> Result<Ops, Stop>
    ensures { IfOk result (λ ops. Spelled 5 (IsListOf (IsOperation version)) cursor.old cursor.new ops) }
{
    cursor.open_list()?;
    let mut ops = Vec::new(alloc);
    'ops: while !cursor.list_ends() {
        if ops.len() == MAX_OPERATIONS {
            return Err(Stop::Fault);
        }
        let op = op_of(alloc, version, cursor)?;
        ops.push(op)?;
    }
    Ok(Ops::new(ops))
}

fn op_of(alloc: Global, version: FileVersion, cursor: &mut Cursor<'_>) -> Result<Op, Stop>
    ensures { IfOk result (λ op. Spelled 4 (IsOperation version) cursor.old cursor.new op) }
{
    let mut fields = OpFields {
        rows: None,
        statement: None,
        view: None,
        writes: None,
    };
    read_object(alloc, version, &mut fields, cursor)?;
    fields.into_op().ok_or(Stop::Fault)
}

/// The statement that a text spells, if a file of this version may have it.
fn statement_of(alloc: Global, version: FileVersion, text: &str) -> Result<Statement, Stop>
    ensures { IfOk result (λ statement. option_and_then (only_in version) (statement_in text.now) ≡ Some statement) }
{
    match parse_statement(alloc, text.as_bytes()) {
        Ok(statement) => only(version, statement).ok_or(Stop::Fault),
        Err(ScriptFault::NoMemory) => Err(Stop::NoMemory),
        Err(ScriptFault::At { .. }) => Err(Stop::Fault),
    }
}
