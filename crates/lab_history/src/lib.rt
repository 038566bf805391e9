//! Histories: what transactions saw and wrote, and in which order their writes were installed.
//!
//! A [`History`] has an initial table, transactions with their operations, the order in which the versions of each row
//! were installed, and a final table. `History::from_parts` builds it from its [`Parts`] and checks the limits and
//! rules of the file format. It doesn't check whether the history is sound or serializable. `lab_history_file` reads
//! and writes files.
//!
//! A version of a row is named by the operation that wrote it ([`VersionName`]). `History::version_state` returns the
//! state of a version, `last_write` a transaction's last operation that wrote a row, and `installer_place` the position
//! of a transaction among the installers of a row. These use binary search. `last_write_near` and
//! `installer_place_near` return the same, and try the position of a [`Hint`] first.
//!
//! `History::from_parts` fails with the first fault of the parts, a [`FileFault`], whose [`Path`] leads to the wrong
//! value of the file. Functions that allocate fail with `NoMemory` if an allocation fails; this can take the place of
//! any other result.
//!
//! The reader of files checks the order of rows with [`follows`], and builds its history with `History::within_limits`,
//! which doesn't check again what the reader has checked.
#![tactic(auto)]

mod checking;
mod equality;
mod fault;
mod hint;
mod history;
mod id_range;
mod ids;
mod index;
mod keyed;
mod laws;
mod limits;
mod lookup;
mod operation;
mod order;
mod parts;
mod path;
mod path_text;
mod tables;
mod transaction;
mod txn_row;

pub use fault::{FileFault, Limit};
pub use hint::Hint;
pub use history::History;
pub use lab_table::MAX_TABLES;
pub use laws::{last_write_is_the_greatest, place_is_the_first};
pub use limits::{MAX_ENTRIES, MAX_FILE_BYTES, MAX_IDS, MAX_OPERATIONS, MAX_TRANSACTIONS};
pub use operation::{Op, Ops, Rows, State, VersionName, View, Writes};
pub use order::follows;
pub use parts::Parts;
pub use path::{ListPlace, Path};
pub use transaction::{Installed, Installers, Outcome, Txn, Txns};
