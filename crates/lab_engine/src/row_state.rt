//! The versions of one row: the committed ones, and the uncommitted one of each session.

ghost use Rattle.std.specs.Prelude.{◌≡◌, ◌==◌, ℕ, cond, None, Some, [], reverse, OnOk};
ghost use Rattle.std.specs.Option.{option_or};
ghost use Rattle.lab_engine.specs.Chains as plain;
ghost use Rattle.lab_engine.specs.Chains.{longer};
ghost use Rattle.lab_engine.specs.Kept.{pending_of, IsReady};

use crate::version::Version;
use lab_table::{NoMemory, PerSession, Session, TxnNo};
use std::alloc::Global;
use std::marker::Model;

/// A version that a commit installed.
#[derive(Clone, Copy, Debug, PartialEq, Eq)]
pub struct Installed {
    pub version: Version,
    /// The transaction that installed it.
    pub by: TxnNo,
    /// Position of the commit in the log, counted from 0.
    pub place: usize,
}

/// The versions of a row: the committed ones, in order of the commits, and the uncommitted one of each session. Space
/// for each uncommitted version is reserved among the committed ones, so its commit allocates nothing.
#[derive(Drop)]
pub struct RowState {
    installed: Vec<Installed>,
    pending: PerSession<Option<Version>>,
}

impl Model for RowState {
    ghost use Rattle.std.specs.Prelude.{length, reverse};
    ghost use Rattle.std.specs.Vec.{vec_capacity};
    ghost use Rattle.lab_engine.specs.Kept.{Kept, coded_kept, IsRoomy};
    ghost use Rattle.lab_engine.specs.contracts.version.Version as version;
    ghost use Rattle.lab_engine.specs.contracts.row_state.Installed as entry;

    ghost Value = { Kept };

    ghost coded = { coded_kept version.the_row.coded entry.the_row.coded };

    ghost view = { λ s. record { chain = reverse s.installed.items; pending = s.pending; places = vec_capacity s.installed } };

    ghost invariant = { λ s. IsRoomy (length s.installed.items) s.pending (vec_capacity s.installed) };
}

impl RowState {
    /// Nothing is installed, and nothing pending; it takes no memory.
    pub(crate) fn new(alloc: Global) -> RowState
        ensures chain { result.chain ≡ [] }
        ensures pending { (session : ℕ) → pending_of result session ≡ None }
    {
        RowState {
            installed: Vec::new(alloc),
            pending: PerSession::all(None),
        }
    }

    /// Returns the uncommitted version of `session`, or `None` if it has none.
    pub fn pending(&self, session: Session) -> Option<Version>
        ensures { result ≡ pending_of self.now session }
    {
        self.pending.get(session)
    }

    /// Returns the committed versions, in order of the commits.
    pub fn installed(&self) -> &[Installed]
        ensures { reverse result.now ≡ self.now.chain }
    {
        &self.installed
    }

    /// Returns the last version committed before log position `place`, or `None` if there is none.
    pub fn last_before(&self, place: usize) -> Option<Version>
        ensures { result ≡ plain.last_before place self.now.chain }
    {
        last_until(&self.installed, place)
    }

    /// Returns the version that `session` sees if its snapshot is at log position `place`: its own uncommitted version,
    /// or else the last version committed before `place`. `None` means the initial version.
    pub fn seen_by(&self, session: Session, place: usize) -> Option<Version>
        ensures { result ≡ option_or (pending_of self.now session) (plain.last_before place self.now.chain) }
    {
        match self.pending(session) {
            Some(version) => Some(version),
            None => self.last_before(place),
        }
    }

    /// Returns the first transaction that installed the row by a commit at or after log position `place`, or `None` if
    /// there is none.
    pub fn first_since(&self, place: usize) -> Option<TxnNo>
        ensures { result ≡ plain.first_since place self.now.chain }
    {
        first_from(&self.installed, place)
    }

    /// Makes room for one more version of each session. NoMemory where an allocation was refused; nothing has changed
    /// then.
    pub(crate) fn reserve(&mut self) -> Result<(), NoMemory>
        ensures chain { self.new.chain ≡ self.old.chain }
        ensures pending { self.new.pending ≡ self.old.pending }
        ensures ready { OnOk result (IsReady self.new) }
        ensures still { IsReady self.old → IsReady self.new }
    {
        self.installed.try_reserve(9)
    }

    /// From now on a session has this version pending, in the place of the one that it had, if any.
    #[tactic(auto, using(crate::proofs::PendingVersions::roomy_held))]
    pub(crate) fn hold(&mut self, session: Session, version: Version)
        requires { IsReady self.old }
        ensures chain { self.new.chain ≡ self.old.chain }
        ensures pending { (other : ℕ) → pending_of self.new other ≡ cond (other == session) (Some version) (pending_of self.old other) }
        ensures ready { IsReady self.new }
    {
        self.pending.set(session, Some(version));
    }

    /// From now on a session has none pending.
    pub(crate) fn give_up(&mut self, session: Session)
        ensures chain { self.new.chain ≡ self.old.chain }
        ensures pending { (other : ℕ) → pending_of self.new other ≡ cond (other == session) None (pending_of self.old other) }
    {
        self.pending.set(session, None);
    }

    /// Installs what a session has pending, if anything, by its transaction's commit with so many events before it.
    pub(crate) fn install(&mut self, session: Session, by: TxnNo, place: usize)
        ensures chain { self.new.chain ≡ longer by place (pending_of self.old session) self.old.chain }
        ensures pending { (other : ℕ) → pending_of self.new other ≡ cond (other == session) None (pending_of self.old other) }
    {
        let Some(version) = self.pending(session) else {
            return;
        };
        self.pending.set(session, None);
        self.installed
            .push_reserved(Installed { version, by, place });
    }
}

/// The transaction that was the first to install the row from a place on, found from the newest on.
fn first_from(chain: &[Installed], place: usize) -> Option<TxnNo>
    ensures { result ≡ plain.first_since place (reverse chain.now) }
{
    let mut first = None;
    let mut left = chain;
    while let Some((last, rest)) = left.split_last() {
        if last.place < place {
            return first;
        }
        first = Some(last.by);
        left = rest;
    }
    first
}

/// The last version of a chain that was installed before a place, found from the newest on.
fn last_until(chain: &[Installed], place: usize) -> Option<Version>
    ensures { result ≡ plain.last_before place (reverse chain.now) }
{
    let mut left = chain;
    while let Some((newest, rest)) = left.split_last() {
        if newest.place < place {
            return Some(newest.version);
        }
        left = rest;
    }
    None
}
