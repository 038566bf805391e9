//! Look-ups of transactions, versions, last writes and installers. They use binary search, and allocate nothing.

ghost use Rattle.std.specs.Prelude.{◌≡◌, option_map};
ghost use Rattle.std.specs.Option.{option_copied};
ghost use Rattle.std.specs.FinMap as map;
ghost use Rattle.lab_history.specs.Version.{find_txn, op_at, version_state, last_write, ops_of, installers, place_in};
ghost use Rattle.lab_history.specs.VersionName.{state_value};

use crate::hint::Hint;
use crate::history::History;
use crate::operation::{Op, State, VersionName};
use crate::transaction::Txn;
use crate::txn_row::TxnRow;
use lab_table::{RowName, TxnNo};

impl History {
    /// Returns the transaction with this number, or `None` if there is none.
    pub fn txn(&self, number: TxnNo) -> Option<&Txn>
        ensures { option_copied result ≡ find_txn self.now.txns number }
    {
        let place = self.index().numbers.get(number)?;
        self.txns().as_slice().get(place)
    }

    /// Returns the state of a version of a row, or `None` if there is no such version. The initial version of a row
    /// that the initial table lacks is absent.
    pub fn version_state(&self, row: RowName, version: VersionName) -> Option<State>
        ensures { option_map state_value result ≡ version_state self.now row version }
    {
        match version {
            VersionName::Initial => Some(self.initial_state(row)),
            VersionName::Of { txn, op } => op_of(self.txn(txn)?, op)?.writes.get(row),
        }
    }

    /// Returns the number of the transaction's last operation that writes the row, or `None` if none does.
    pub fn last_write(&self, txn: TxnNo, row: RowName) -> Option<u32>
        ensures { result ≡ last_write (ops_of self.now txn) row }
    {
        self.index().last_writes.get(TxnRow { txn, row })
    }

    /// Returns the position of a transaction among the installers of a row, counted from 1, or `None` if it isn't one
    /// of them.
    pub fn installer_place(&self, row: RowName, txn: TxnNo) -> Option<usize>
        ensures { result ≡ place_in (installers self.now row) txn }
    {
        self.index().places.get(TxnRow { txn, row })
    }

    /// Returns the same as `last_write`. It needs no binary search if consecutive look-ups go through ascending rows of
    /// one transaction, or through one row of consecutive transactions, and pass on the hint.
    #[inline(always)]
    pub fn last_write_near(&self, txn: TxnNo, row: RowName, hint: &mut Hint) -> Option<u32>
        ensures { result ≡ last_write (ops_of self.now txn) row }
    {
        self.index().last_writes.get_near(TxnRow { txn, row }, hint)
    }

    /// Returns the same as `installer_place`. It needs no binary search if consecutive look-ups go through ascending
    /// rows of one transaction, or through one row of consecutive transactions, and pass on the hint.
    #[inline(always)]
    pub fn installer_place_near(&self, row: RowName, txn: TxnNo, hint: &mut Hint) -> Option<usize>
        ensures { result ≡ place_in (installers self.now row) txn }
    {
        self.index().places.get_near(TxnRow { txn, row }, hint)
    }

    fn initial_state(&self, row: RowName) -> State
        ensures { state_value result ≡ map.get self.now.initial row }
    {
        match self.initial().get(row) {
            None => State::Absent,
            Some(value) => State::Present(value),
        }
    }
}

/// The operation of a transaction with this number.
fn op_of(txn: &Txn, number: u32) -> Option<&Op>
    ensures { option_copied result ≡ op_at txn.now.ops number }
{
    txn.ops.as_slice().get(number.checked_sub(1)? as usize)
}
