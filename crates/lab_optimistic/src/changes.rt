//! Which install of a row changed what a transaction's statements match.

ghost use Rattle.std.specs.Prelude.{◌≡◌, reverse};
ghost use Rattle.std.specs.FinMap as map;
ghost use Rattle.lab_optimistic.specs.Changes as spec;

use lab_engine::{Asker, Installed};
use lab_table::{RowName, TxnNo, Value};

/// The state in which the last of these installs left the row, else that of the setup.
fn last_state(asker: &Asker, row: RowName, installed: &[Installed]) -> Option<Value>
    ensures { result ≡ spec.state_of (map.get asker.now.setup.now row) (reverse installed.now) }
{
    match installed.split_last() {
        Some((last, _)) => last.version.state,
        None => asker.setup.get(row),
    }
}

/// Whether the asker's transaction has run a statement that matches the row as these installs left it.
fn has_read_last(asker: &Asker, row: RowName, installed: &[Installed]) -> bool
    ensures { result ≡ spec.has_read asker.now row (spec.state_of (map.get asker.now.setup.now row) (reverse installed.now)) }
{
    let state = last_state(asker, row, installed);
    asker.running.statements.has_read(row, state)
}

/// The transaction that was the first since the begin of the asker's to install the row where a statement of the asker's
/// matches it before or then. It goes from the newest install back, and asks for each state once.
fn first_back(asker: &Asker, row: RowName, installed: &[Installed]) -> Option<TxnNo>
    ensures { result ≡ spec.first_change (spec.has_read_either asker.now row) (map.get asker.now.setup.now row) asker.now.running.now.before (reverse installed.now) }
{
    let mut first = None;
    let mut left = installed;
    let mut after_it = has_read_last(asker, row, left);
    while let Some((last, rest)) = left.split_last() {
        if last.place < asker.running.before {
            return first;
        }
        let before = has_read_last(asker, row, rest);
        if before || after_it {
            first = Some(last.by);
        }
        after_it = before;
        left = rest;
    }
    first
}

/// The transaction that was the first since the begin of the asker's to install the row where a statement of the asker's
/// matches it before or then.
pub fn first_change(asker: &Asker, row: RowName, installed: &[Installed]) -> Option<TxnNo>
    ensures { result ≡ spec.first_change (spec.has_read_either asker.now row) (map.get asker.now.setup.now row) asker.now.running.now.before (reverse installed.now) }
{
    let (last, _) = installed.split_last()?;
    if last.place < asker.running.before {
        return None;
    }
    first_back(asker, row, installed)
}
