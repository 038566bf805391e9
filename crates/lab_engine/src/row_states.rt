//! The versions of all rows.

ghost use Rattle.std.specs.Prelude.{◌≡◌, ◌≤◌, ◌+◌, ◌==◌, ◌&&◌, ◌||◌, ℕ, None, Some, cond, is_some, is_none, length, option_map, OnOk};
ghost use Rattle.std.specs.List.{list_any};
ghost use Rattle.std.specs.Option.{option_or};
ghost use Rattle.std.specs.Vec.{vec_capacity};
ghost use Rattle.std.specs.FinMap as map;
ghost use Rattle.lab_table.specs.Row.{Row, row_eq};
ghost use Rattle.lab_history.specs.VersionName.{state_value};
ghost use Rattle.lab_engine.specs.Chains as plain;
ghost use Rattle.lab_engine.specs.Chains.{longer};
ghost use Rattle.lab_engine.specs.KeptRows.{kept_at, entries_in, chain_in, pending_in, IsReadyAt, AreReady, IsSame};
ghost use Rattle.lab_engine.specs.Merging.{written_version};

use crate::row_state::RowState;
use crate::version::{Version, value_of};
use lab_history::{State, VersionName, Writes};
use lab_table::{NoMemory, RowName, Session, TxnNo};
use std::alloc::Global;
use std::collections::BTreeMap;

/// The versions of each row that a transaction has written. A row that isn't listed has only its initial version.
#[derive(Drop)]
pub struct RowStates {
    rows: BTreeMap<RowName, RowState>,
}

impl RowStates {
    /// Nothing is installed or pending; it takes no memory.
    pub(crate) fn new(alloc: Global) -> RowStates
        ensures { (row : Row) → kept_at result row ≡ None }
    {
        RowStates {
            rows: BTreeMap::new(alloc),
        }
    }

    /// Returns the versions of `row`, or `None` if no transaction has written it.
    pub fn get(&self, row: RowName) -> Option<&RowState>
        ensures { option_map (λ kept. kept.now) result ≡ kept_at self.now row }
    {
        self.rows.get(&row)
    }

    /// Returns the versions of each row that a transaction has written, in ascending order of rows.
    pub fn by_row(&self) -> &BTreeMap<RowName, RowState>
        ensures { result.now.entries ≡ entries_in self.now }
    {
        &self.rows
    }

    /// Returns the uncommitted version of `row` by `session`, or `None` if there is none.
    pub fn pending(&self, row: RowName, session: Session) -> Option<Version>
        ensures { result ≡ pending_in self.now row session }
    {
        match self.rows.get(&row) {
            Some(kept) => kept.pending(session),
            None => None,
        }
    }

    /// Returns the last version of `row` committed before log position `place`, or `None` if there is none.
    pub fn last_before(&self, row: RowName, place: usize) -> Option<Version>
        ensures { result ≡ plain.last_before place (chain_in self.now row) }
    {
        match self.rows.get(&row) {
            Some(kept) => kept.last_before(place),
            None => None,
        }
    }

    /// Returns the version of `row` that `session` sees if its snapshot is at log position `place`: its own uncommitted
    /// version, or else the last version committed before `place`. `None` means the initial version.
    pub fn seen_by(&self, row: RowName, session: Session, place: usize) -> Option<Version>
        ensures { result ≡ option_or (pending_in self.now row session) (plain.last_before place (chain_in self.now row)) }
    {
        match self.rows.get(&row) {
            Some(kept) => kept.seen_by(session, place),
            None => None,
        }
    }

    /// Returns the first transaction that installed `row` by a commit at or after log position `place`, or `None` if
    /// there is none.
    pub fn first_since(&self, row: RowName, place: usize) -> Option<TxnNo>
        ensures { result ≡ plain.first_since place (chain_in self.now row) }
    {
        match self.rows.get(&row) {
            Some(kept) => kept.first_since(place),
            None => None,
        }
    }

    /// Makes room for a version of a row by each session. NoMemory where an allocation was refused.
    fn reserve(&mut self, alloc: Global, row: RowName) -> Result<(), NoMemory>
        ensures same { IsSame self.old self.new }
        ensures ready { OnOk result (IsReadyAt self.new row) }
        ensures still { (other : Row) → IsReadyAt self.old other → IsReadyAt self.new other }
    {
        if let Some(kept) = self.rows.get_mut(&row) {
            return kept.reserve();
        }
        let mut kept = RowState::new(alloc);
        kept.reserve()?;
        self.rows.insert(row, kept)?;
        Ok(())
    }

    /// The same of each row that is written. NoMemory where an allocation was refused.
    pub(crate) fn reserve_each(&mut self, alloc: Global, writes: &Writes) -> Result<(), NoMemory>
        ensures same { IsSame self.old self.new }
        ensures ready { OnOk result (AreReady self.new writes.now) }
    {
        let entries = writes.entries();
        for entry in entries {
            self.reserve(alloc, entry.0)?;
        }
        Ok(())
    }

    /// Puts the rows that are written and of which a session has nothing pending behind others.
    pub(crate) fn note_new(&self, session: Session, writes: &Writes, rows: &mut Vec<RowName>)
        requires { length rows.old.items + length (map.entries writes.now) ≤ vec_capacity rows.old }
        ensures { (row : Row) → list_any (row_eq row) rows.new.items ≡ (list_any (row_eq row) rows.old.items || (is_some (map.get writes.now row) && is_none (pending_in self.now row session))) }
    {
        let entries = writes.entries();
        for entry in entries {
            if self.pending(entry.0, session).is_none() {
                rows.push_reserved(entry.0);
            }
        }
    }

    /// From now on a session has this version of a row pending, in the place of the one that it had, if any.
    fn hold(&mut self, row: RowName, session: Session, version: Version)
        requires { IsReadyAt self.old row }
        ensures chain { (other : Row) → chain_in self.new other ≡ chain_in self.old other }
        ensures pending { (other : Row) (n : ℕ) → pending_in self.new other n ≡ cond (row_eq other row && n == session) (Some version) (pending_in self.old other n) }
        ensures ready { (other : Row) → IsReadyAt self.old other → IsReadyAt self.new other }
    {
        if let Some(kept) = self.rows.get_mut(&row) {
            kept.hold(session, version);
        }
    }

    /// From now on a session has what it writes pending, as versions of this name.
    pub(crate) fn hold_each(&mut self, session: Session, name: VersionName, writes: &Writes)
        requires { AreReady self.old writes.now }
        ensures chain { (row : Row) → chain_in self.new row ≡ chain_in self.old row }
        ensures pending { (row : Row) (n : ℕ) → pending_in self.new row n
            ≡ cond (n == session) (option_or (written_version name (map.get writes.now row)) (pending_in self.old row n)) (pending_in self.old row n) }
    {
        let entries = writes.entries();
        for entry in entries {
            self.hold(entry.0, session, version_named(&name, entry.1));
        }
    }

    /// From now on a session has no version of a row pending.
    fn give_up(&mut self, row: RowName, session: Session)
        ensures chain { (other : Row) → chain_in self.new other ≡ chain_in self.old other }
        ensures pending { (other : Row) (n : ℕ) → pending_in self.new other n ≡ cond (row_eq other row && n == session) None (pending_in self.old other n) }
    {
        if let Some(kept) = self.rows.get_mut(&row) {
            kept.give_up(session);
        }
    }

    /// From now on a session has no version of these rows pending.
    pub(crate) fn give_up_each(&mut self, rows: &[RowName], session: Session)
        ensures chain { (row : Row) → chain_in self.new row ≡ chain_in self.old row }
        ensures pending { (row : Row) (n : ℕ) → pending_in self.new row n ≡ cond (list_any (row_eq row) rows.now && n == session) None (pending_in self.old row n) }
    {
        for row in rows {
            self.give_up(*row, session);
        }
    }

    /// Installs what a session has pending of a row, if anything, by its transaction's commit with so many events before
    /// it.
    fn install(&mut self, row: RowName, session: Session, by: TxnNo, place: usize)
        ensures chain { (other : Row) → chain_in self.new other ≡ cond (row_eq other row) (longer by place (pending_in self.old other session) (chain_in self.old other)) (chain_in self.old other) }
        ensures pending { (other : Row) (n : ℕ) → pending_in self.new other n ≡ cond (row_eq other row && n == session) None (pending_in self.old other n) }
    {
        if let Some(kept) = self.rows.get_mut(&row) {
            kept.install(session, by, place);
        }
    }

    /// Installs what a session has pending of these rows.
    pub(crate) fn install_each(
        &mut self,
        rows: &[RowName],
        session: Session,
        by: TxnNo,
        place: usize,
    )
        ensures chain { (row : Row) → chain_in self.new row ≡ cond (list_any (row_eq row) rows.now) (longer by place (pending_in self.old row session) (chain_in self.old row)) (chain_in self.old row) }
        ensures pending { (row : Row) (n : ℕ) → pending_in self.new row n ≡ cond (list_any (row_eq row) rows.now && n == session) None (pending_in self.old row n) }
    {
        for row in rows {
            self.install(*row, session, by, place);
        }
    }
}

/// The version of this name that a write makes.
fn version_named(name: &VersionName, state: State) -> Version
    ensures { result ≡ record { name = name.now; state = state_value state } }
{
    Version {
        name: *name,
        state: value_of(state),
    }
}
