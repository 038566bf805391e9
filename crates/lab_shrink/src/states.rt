//! The states that a row has in a history, and which statements depend on them.

use lab_deps::state_of;
use lab_history::{History, Op, VersionName};
use lab_table::{NoMemory, RowName, TxnNo, Value};
use std::alloc::Global;

/// The most different states of a row that statements are tested on; with more, any statement that may match is taken to
/// depend on them.
const MOST_STATES: usize = 8;

/// What is known of a row.
#[derive(Drop)]
pub struct RowStates {
    pub row: RowName,
    /// Its different states, the initial one first; of many, some.
    states: Vec<Option<Value>>,
}

impl RowStates {
    /// What is known of a row.
    pub fn of(alloc: Global, history: &History, row: RowName) -> Result<RowStates, NoMemory> {
        let mut states = Vec::new(alloc);
        states.push(history.initial().get(row))?;
        if let Some(installers) = history.installed().get(row) {
            for txn in installers.as_slice() {
                if states.len() > MOST_STATES {
                    break;
                }
                push_state(&mut states, state_left(history, *txn, row))?;
            }
        }
        Ok(RowStates { row, states })
    }

    /// Whether it has several.
    pub fn are_several(&self) -> bool {
        self.states.len() > 1
    }

    /// Whether the matches of an operation's statement may depend on the row's version.
    pub fn may_change(&self, op: &Op) -> bool {
        let Some((first, others)) = self.states.as_slice().split_first() else {
            return false;
        };
        if others.is_empty() || !op.statement.may_match(self.row) {
            return false;
        }
        if others.len() >= MOST_STATES {
            return true;
        }
        let matched = op.statement.matches(self.row, *first);
        others
            .iter()
            .any(|state| op.statement.matches(self.row, *state) != matched)
    }
}

/// The state in which a transaction leaves a row.
fn state_left(history: &History, txn: TxnNo, row: RowName) -> Option<Value> {
    let op = history.last_write(txn, row)?;
    state_of(history, row, VersionName::Of { txn, op })
}

/// Adds a state, if it isn't there.
fn push_state(states: &mut Vec<Option<Value>>, state: Option<Value>) -> Result<(), NoMemory> {
    if states.iter().any(|other| *other == state) {
        return Ok(());
    }
    states.push(state)?;
    Ok(())
}
