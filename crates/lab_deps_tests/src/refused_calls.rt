//! Calls of the libraries up to the dependencies, with a failing allocation. Each says whether it returns the expected
//! result.

ghost use Rattle.std.specs.Prelude.{◌≡◌, IfOk};

use crate::inputs::{Inputs, Lists, Named, delete};
use crate::refused_edges::is_right_of_dependencies;
use crate::refused_steps::told;
use lab_engine::{EngineFault, LogEvent, MAX_EVENTS, Outcome, RecordFault, Recording, Sessions};
use lab_history::{History, ListPlace, Path};
use lab_refusal_tests::refuse;
use lab_table::{NoMemory, Table};
use std::alloc::{AllocError, Global};

/// A call.
#[derive(Clone, Copy, Debug)]
pub enum Call {
    ByRowCopy,
    NumbersCopy,
    TableCopy,
    TableAdd,
    ViewCopy,
    RowsCopy,
    WritesCopy,
    PathPrint,
    SessionsCopy,
    FaultCopy,
    OutcomeCopy,
    RecordingOf,
    RecordingFromLog,
    CheckLocal,
    Edges,
    DependenciesOf,
    DependenciesOfWrites,
}

/// Whether a copy lists what its original lists.
macro_rules! is_copied {
    ($alloc:ident, $original:expr, $listed:ident) => {{
        let copy = $original.copy($alloc)?;
        let alike = copy.$listed() == $original.$listed();
        drop(copy);
        Ok(alike)
    }};
}

/// Adds a fifth row to a copy of a table; where that is refused, the copy is as before, and the row can be added then.
fn is_added(
    alloc: Global,
    growth: u16,
    setup: &Table,
    named: &Named,
    table: &mut Table,
) -> Result<bool, NoMemory> {
    refuse(alloc, growth);
    if let Err(refusal) = table.add(alloc, named.row, named.value) {
        if table.rows() == setup.rows() && table.add(alloc, named.row, named.value)? {
            return Err(refusal);
        }
        return Ok(false);
    }
    Ok(table.rows().len() == 5 && table.get(named.row) == Some(named.value))
}

/// Calls on tables and lists of numbers.
fn is_right_of_tables(
    alloc: Global,
    growth: u16,
    call: Call,
    inputs: &Inputs,
) -> Result<bool, NoMemory> {
    let setup = inputs.recording.setup();
    match call {
        Call::ByRowCopy => is_copied!(alloc, inputs.lists.by_row, entries),
        Call::NumbersCopy => is_copied!(alloc, inputs.lists.numbers, as_slice),
        Call::TableCopy => is_copied!(alloc, setup, rows),
        _ => {
            refuse(alloc, 0);
            let mut table = setup.copy(alloc)?;
            let added = is_added(alloc, growth, setup, &inputs.named, &mut table);
            drop(table);
            added
        }
    }
}

/// Calls on histories.
fn is_right_of_histories(alloc: Global, call: Call, history: &History) -> Result<bool, NoMemory> {
    let Some(op) = delete(history) else {
        return Ok(false);
    };
    match call {
        Call::ViewCopy => is_copied!(alloc, op.view, entries),
        Call::RowsCopy => is_copied!(alloc, op.rows, entries),
        Call::WritesCopy => is_copied!(alloc, op.writes, entries),
        _ => {
            let list = ListPlace::View { txn: 0, op: 2 };
            let text = Path::Member { list, index: 1 }.print(alloc)?;
            Ok(text.as_slice() == b"/transactions/0/ops/2/view/1".as_slice())
        }
    }
}

/// Whether a fault is the deadlock of these sessions.
fn is_deadlock_of(fault: &EngineFault, sessions: &Sessions) -> bool {
    match fault {
        EngineFault::Deadlock { circle } => circle.as_slice() == sessions.as_slice(),
        _ => false,
    }
}

/// Copies the answer to the first update.
fn is_outcome_copied(alloc: Global, outcome: &Outcome) -> Result<bool, NoMemory> {
    let copy = outcome.copy(alloc)?;
    let alike = told(&copy) == ("rows", 10, 11);
    drop(copy);
    Ok(alike)
}

/// Calls on what engines answer.
fn is_right_of_answers(
    alloc: Global,
    call: Call,
    lists: &Lists,
    log: &[LogEvent],
) -> Result<bool, NoMemory> {
    match call {
        Call::SessionsCopy => is_copied!(alloc, lists.sessions, as_slice),
        Call::FaultCopy => {
            let copy = lists.fault.copy(alloc)?;
            let alike = is_deadlock_of(&copy, &lists.sessions);
            drop(copy);
            Ok(alike)
        }
        _ => match log.get(2) {
            Some(event) => is_outcome_copied(alloc, &event.outcome),
            None => Ok(false),
        },
    }
}

/// Whether a recording has seven events, this table, and a history with the end table of this one.
fn is_alike(made: &Recording, setup: &Table, history: &History) -> bool {
    made.log().len() == 7
        && made.setup().rows() == setup.rows()
        && made.history().end_table().rows() == history.end_table().rows()
}

/// Whether a recording of seven events was made, with this table and a history with the end table of this one.
fn is_made(
    made: Result<Recording, RecordFault>,
    setup: &Table,
    history: &History,
) -> Result<bool, NoMemory> {
    match made {
        Ok(made) => {
            let alike = is_alike(&made, setup, history);
            drop(made);
            Ok(alike)
        }
        Err(RecordFault::NoMemory) => Err(AllocError),
        Err(RecordFault::OverLimit { .. }) => Ok(false),
    }
}

/// Makes the recording of a recording's log again.
fn is_recorded(alloc: Global, recording: &Recording) -> Result<bool, NoMemory> {
    let history = recording.history();
    if recording.log().len() > MAX_EVENTS {
        return Ok(false);
    }
    let made = Recording::of(alloc, recording.level(), recording.setup(), recording.log());
    is_made(made, recording.setup(), history)
}

/// A copy of a log.
fn copied(alloc: Global, log: &[LogEvent]) -> Result<Vec<LogEvent>, NoMemory>
    ensures { IfOk result (λ copy. copy.items ≡ log.now) }
{
    let mut events = Vec::new(alloc);
    for event in log {
        events.push(LogEvent {
            session: event.session,
            command: event.command.copy(alloc)?,
            outcome: event.outcome.copy(alloc)?,
        })?;
    }
    Ok(events)
}

/// Makes the recording of a copy of a recording's log, with an allocation of that refused.
fn is_recorded_from_log(
    alloc: Global,
    growth: u16,
    recording: &Recording,
) -> Result<bool, NoMemory> {
    let history = recording.history();
    if recording.log().len() > MAX_EVENTS {
        return Ok(false);
    }
    refuse(alloc, 0);
    let setup = recording.setup().copy(alloc)?;
    let log = copied(alloc, recording.log())?;
    refuse(alloc, growth);
    let made = Recording::from_log(alloc, recording.level(), setup, log);
    is_made(made, recording.setup(), history)
}

/// Makes a call with an allocation refused, and says whether it answers what it is to answer.
pub fn is_right(alloc: Global, growth: u16, call: Call, inputs: &Inputs) -> Result<bool, NoMemory> {
    refuse(alloc, growth);
    match call {
        Call::ByRowCopy | Call::NumbersCopy | Call::TableCopy | Call::TableAdd =>
            is_right_of_tables(alloc, growth, call, inputs),
        Call::ViewCopy | Call::RowsCopy | Call::WritesCopy | Call::PathPrint =>
            is_right_of_histories(alloc, call, &inputs.history),
        Call::SessionsCopy | Call::FaultCopy | Call::OutcomeCopy => is_right_of_answers(
            alloc,
            call,
            &inputs.lists,
            inputs.recording.log(),
        ),
        Call::RecordingOf => is_recorded(alloc, &inputs.recording),
        Call::RecordingFromLog => is_recorded_from_log(alloc, growth, &inputs.recording),
        Call::CheckLocal | Call::Edges | Call::DependenciesOf | Call::DependenciesOfWrites =>
            is_right_of_dependencies(alloc, call, inputs),
    }
}
