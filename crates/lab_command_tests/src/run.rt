//! The output of `run`, also with threads.

use crate::case::{Case, Subcommand, check};
use lab_commands::Shown;
use lab_engine::Level;
use std::test::Fail;

/// A transaction that adds 1.
pub const INCREMENTED: &[u8] =
    b"setup (1, 10);\nbegin; -- T1\nupdate test set value = value + 1 where id = 1; -- T1\ncommit; -- T1\n";

/// Its history file.
pub const INCREMENTED_FILE: &[u8] =
    b"{\"end\":[[\"test\",1,11]],\"format\":\"hermitage-history\",\"initial\":[[\"test\",1,10]],\"installed\":[[\"test\",1,[1]]],\"transactions\":[{\"no\":1,\"ops\":[{\"rows\":[[\"test\",1,10]],\"statement\":\"update test set value = value + 1 where id = 1\",\"view\":[],\"writes\":[[\"test\",1,11]]}],\"outcome\":\"committed\"}],\"version\":2}\n";

/// The history file of a play.
pub const HISTORY: Case = Case {
    subcommand: Subcommand::Run {
        level: Level::Snapshot,
        shown: Shown::History,
    },
    input: INCREMENTED,
    text: INCREMENTED_FILE,
    status: 0,
};

/// The log of such a play with the committed rows, and the report of it.
pub const ROWS: Case = Case {
    subcommand: Subcommand::Run {
        level: Level::Snapshot,
        shown: Shown::Rows,
    },
    input: INCREMENTED,
    text: b"T1 begin: begun 1\nT1 update test set value = value + 1 where id = 1: rows (1, 10)\nT1 commit: committed\n-- rows (1, 11)\nserializable: yes T1\nsnapshot: yes T1 0-1\nG0: absent\nG1a: absent\nG1b: absent\nG1c: absent\nG-single: absent\nG2-item: absent\nG2: absent\nlevel: PL-3\n",
    status: 0,
};

/// A transaction that the script leaves open.
pub const OPEN: &[u8] =
    b"setup (1, 10);\nbegin; -- T1\nupdate test set value = value + 1 where id = 1; -- T1\n";

/// Its log, and the report of it.
pub const OPEN_LOG: &[u8] =
    b"T1 begin: begun 1\nT1 update test set value = value + 1 where id = 1: rows (1, 10)\nT1 abort: aborted\nserializable: yes\nsnapshot: yes\nG0: absent\nG1a: absent\nG1b: absent\nG1c: absent\nG-single: absent\nG2-item: absent\nG2: absent\nlevel: PL-3\n";

/// A transaction that the script leaves open, so that the play aborts it.
pub const LEFT_OPEN: Case = Case {
    subcommand: Subcommand::Run {
        level: Level::Snapshot,
        shown: Shown::Log,
    },
    input: OPEN,
    text: OPEN_LOG,
    status: 0,
};

/// A command of no session.
pub const WITHOUT_SESSION: &[u8] = b"setup (1, 10);\n-- a remark\nbegin;\n";

/// The line of its fault.
pub const WITHOUT_SESSION_FAULT: &[u8] = b"line 3: NoSession\n";

const NO_SESSION: Case = Case {
    subcommand: Subcommand::Run {
        level: Level::Locking,
        shown: Shown::History,
    },
    input: WITHOUT_SESSION,
    text: WITHOUT_SESSION_FAULT,
    status: 2,
};

/// Two transactions that read and write rows of one number in two tables.
const TWO_TABLES: Case = Case {
    subcommand: Subcommand::Run {
        level: Level::Snapshot,
        shown: Shown::Log,
    },
    input: b"setup (1, 10), stock (1, 5);\nbegin; -- T1\nbegin; -- T2\nselect * from test where id = 1; -- T1\nselect * from stock where id = 1; -- T2\nupdate stock set value = 6 where id = 1; -- T1\nupdate test set value = 11 where id = 1; -- T2\ncommit; -- T1\ncommit; -- T2\n",
    text: b"T1 begin: begun 1\nT2 begin: begun 2\nT1 select * from test where id = 1: rows (1, 10)\nT2 select * from stock where id = 1: rows (1, 5)\nT1 update stock set value = 6 where id = 1: rows (1, 5)\nT2 update test set value = 11 where id = 1: rows (1, 10)\nT1 commit: committed\nT2 commit: committed\nserializable: no T1 rw(1) T2 rw(stock 1) T1\nsnapshot: yes T1 0-2 T2 1-3\nG0: absent\nG1a: absent\nG1b: absent\nG1c: absent\nG-single: absent\nG2-item: present T1 rw(1) T2 rw(stock 1) T1\nG2: present T1 rw(1) T2 rw(stock 1) T1\nlevel: PL-2\n",
    status: 0,
};

/// The same by threads. The scripts are of one session each, so that what is written depends on no schedule.
pub const FREE_HISTORY: Case = Case {
    subcommand: Subcommand::RunFree {
        level: Level::Snapshot,
        shown: Shown::History,
    },
    input: INCREMENTED,
    text: INCREMENTED_FILE,
    status: 0,
};

pub const FREE_LEFT_OPEN: Case = Case {
    subcommand: Subcommand::RunFree {
        level: Level::Snapshot,
        shown: Shown::Log,
    },
    input: OPEN,
    text: OPEN_LOG,
    status: 0,
};

pub const FREE_NO_SESSION: Case = Case {
    subcommand: Subcommand::RunFree {
        level: Level::Locking,
        shown: Shown::History,
    },
    input: WITHOUT_SESSION,
    text: WITHOUT_SESSION_FAULT,
    status: 2,
};

const CASES: [Case; 8] = [
    HISTORY,
    ROWS,
    LEFT_OPEN,
    NO_SESSION,
    TWO_TABLES,
    FREE_HISTORY,
    FREE_LEFT_OPEN,
    FREE_NO_SESSION,
];

#[test]
fn run_writes_what_is_due(rt: HostRuntime) -> Result<(), Fail> {
    check(&rt, rt.alloc(), &CASES)
}
