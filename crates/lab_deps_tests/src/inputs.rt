//! Inputs of the calls whose allocations fail.

use lab_engine::{EngineFault, Recording, Sessions};
use lab_history::{History, Op};
use lab_history_file::read_history;
use lab_locking::LockEngine;
use lab_script::parse_script;
use lab_session::play_script;
use lab_table::{ByRow, NoMemory, Numbers, RowId, RowName, Session, TxnNo, Value};
use std::alloc::Global;

/// The first transaction inserts a row, which the second lists and deletes.
const HISTORY: &[u8] =
    br#"{"version":1,"format":"hermitage-history","initial":[[1,10]],"transactions":[{"no":1,"outcome":"committed","ops":[{"statement":"insert into test (id, value) values (3, 30)","view":[],"rows":[],"writes":[[3,30]]}]},{"no":2,"outcome":"committed","ops":[{"statement":"select * from test where id = 3","view":[[3,1,1]],"rows":[[3,30]],"writes":[]},{"statement":"delete from test where id = 3","view":[[3,1,1]],"rows":[[3,30]],"writes":[[3,null]]}]}],"installed":[[3,[1,2]]],"end":[[1,10]]}"#;

/// Two transactions update a row, of four.
const SCRIPT: &[u8] =
    b"setup (1, 10), (2, 20), (3, 30), (4, 40);\nbegin; -- T1\nbegin; -- T2\nupdate test set value = 11 where id = 1; -- T1\nupdate test set value = 12 where id = 1; -- T2\ncommit; -- T1\ncommit; -- T2\n";

/// What is handed to calls by value.
#[derive(Clone, Copy)]
pub struct Named {
    pub first: TxnNo,
    pub second: TxnNo,
    /// A row that the recording's setup doesn't have.
    pub row: RowName,
    pub value: Value,
    pub sessions: [Session; 2],
}

fn numbers_and_rows() -> Option<Named> {
    Some(Named {
        first: TxnNo::new(1)?,
        second: TxnNo::new(2)?,
        row: RowName::in_test(RowId::new(5)?),
        value: Value::new(50)?,
        sessions: [Session::new(1)?, Session::new(2)?],
    })
}

/// Lists that are copied.
#[derive(Drop)]
pub struct Lists {
    pub numbers: Numbers,
    pub by_row: ByRow<Value>,
    pub sessions: Sessions,
    pub fault: EngineFault,
}

fn row_of(alloc: Global, named: &Named) -> Result<ByRow<Value>, NoMemory> {
    let mut by_row = ByRow::new(alloc);
    by_row.put(named.row, named.value).and(Ok(by_row))
}

fn sessions_of(alloc: Global, named: &Named) -> Result<Sessions, NoMemory> {
    Ok(Sessions::new(Vec::from_array(alloc, named.sessions)?))
}

fn deadlock_of(alloc: Global, named: &Named) -> Result<EngineFault, NoMemory> {
    let circle = sessions_of(alloc, named)?;
    Ok(EngineFault::Deadlock { circle })
}

fn listed(alloc: Global, named: &Named) -> Result<Lists, NoMemory> {
    Ok(Lists {
        numbers: Numbers::new(vec![in alloc; named.value; 2]?),
        by_row: row_of(alloc, named)?,
        sessions: sessions_of(alloc, named)?,
        fault: deadlock_of(alloc, named)?,
    })
}

fn played(alloc: Global) -> Option<Recording> {
    let Ok(script) = parse_script(alloc, SCRIPT) else {
        return None;
    };
    let Ok(setup) = script.setup.copy(alloc) else {
        drop(script);
        return None;
    };
    let recording = play_script(alloc, LockEngine::new(alloc, setup), &script).ok();
    drop(script);
    recording
}

/// What the calls are made on.
#[derive(Drop)]
pub struct Inputs {
    pub named: Named,
    pub lists: Lists,
    pub recording: Recording,
    pub history: History,
}

/// None where memory is refused.
pub fn given(alloc: Global) -> Option<Inputs> {
    let named = numbers_and_rows()?;
    let Ok(lists) = listed(alloc, &named) else {
        return None;
    };
    let Some(recording) = played(alloc) else {
        drop(lists);
        return None;
    };
    let Some(history) = read_history(alloc, HISTORY).ok() else {
        drop(lists);
        drop(recording);
        return None;
    };
    Some(Inputs {
        named,
        lists,
        recording,
        history,
    })
}

/// The second transaction's delete.
pub fn delete(history: &History) -> Option<&Op> {
    history.txns().as_slice().get(1)?.ops.as_slice().get(1)
}
