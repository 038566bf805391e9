//! The output of `judge`.

use crate::case::{Case, Subcommand, check};
use std::test::Fail;

pub const ABORTED_READ: Case = Case {
    subcommand: Subcommand::Judge,
    input: br#"{"end":[[1,10],[2,20]],"format":"hermitage-history","initial":[[1,10],[2,20]],"installed":[],"transactions":[{"no":1,"ops":[{"rows":[[1,10]],"statement":"update test set value = 101 where id = 1","view":[],"writes":[[1,101]]}],"outcome":"aborted"},{"no":2,"ops":[{"rows":[[1,101],[2,20]],"statement":"select * from test","view":[[1,1,1]],"writes":[]}],"outcome":"committed"}],"version":1}"#,
    text: b"serializable: no F2 AbortedRead T2 op 1 row 1\nsnapshot: no F2 AbortedRead T2 op 1 row 1\nG0: absent\nG1a: present T2 op 1 row 1\nG1b: absent\nG1c: not judged\nG-single: not judged\nG2-item: not judged\nG2: not judged\nlevel: PL-1\n",
    status: 0,
};

const WRITE_CYCLE: Case = Case {
    subcommand: Subcommand::Judge,
    input: br#"{"end":[[1,12],[2,21]],"format":"hermitage-history","initial":[[1,10],[2,20]],"installed":[[1,[1,2]],[2,[2,1]]],"transactions":[{"no":1,"ops":[{"rows":[[1,10]],"statement":"update test set value = 11 where id = 1","view":[],"writes":[[1,11]]},{"rows":[[2,20]],"statement":"update test set value = 21 where id = 2","view":[[1,1,1]],"writes":[[2,21]]}],"outcome":"committed"},{"no":2,"ops":[{"rows":[[1,10]],"statement":"update test set value = 12 where id = 1","view":[],"writes":[[1,12]]},{"rows":[[2,20]],"statement":"update test set value = 22 where id = 2","view":[[1,2,1]],"writes":[[2,22]]}],"outcome":"committed"}],"version":1}"#,
    text: b"serializable: no T1 ww(1) T2 ww(2) T1\nsnapshot: no s1 c2 s1\nG0: present T1 ww(1) T2 ww(2) T1\nG1a: absent\nG1b: absent\nG1c: present T1 ww(1) T2 ww(2) T1\nG-single: present T1 rw(2) T2 ww(2) T1\nG2-item: present T1 rw(2) T2 ww(2) T1\nG2: present T1 rw(2) T2 ww(2) T1\nlevel: below PL-1\n",
    status: 0,
};

/// A read of what its transaction then overwrote.
pub const INTERMEDIATE: &[u8] =
    br#"{"end":[[1,11],[2,20]],"format":"hermitage-history","initial":[[1,10],[2,20]],"installed":[[1,[1]]],"transactions":[{"no":1,"ops":[{"rows":[[1,10]],"statement":"update test set value = 101 where id = 1","view":[],"writes":[[1,101]]},{"rows":[[1,101]],"statement":"update test set value = 11 where id = 1","view":[[1,1,1]],"writes":[[1,11]]}],"outcome":"committed"},{"no":2,"ops":[{"rows":[[1,101],[2,20]],"statement":"select * from test","view":[[1,1,1]],"writes":[]}],"outcome":"committed"}],"version":1}"#;

const INTERMEDIATE_READ: Case = Case {
    subcommand: Subcommand::Judge,
    input: INTERMEDIATE,
    text: b"serializable: no F3 IntermediateRead T2 op 1 row 1\nsnapshot: no F3 IntermediateRead T2 op 1 row 1\nG0: absent\nG1a: absent\nG1b: present T2 op 1 row 1\nG1c: not judged\nG-single: not judged\nG2-item: not judged\nG2: not judged\nlevel: PL-1\n",
    status: 0,
};

const READ_OF_A_LATER_VERSION: Case = Case {
    subcommand: Subcommand::Judge,
    input: br#"{"end":[[1,12],[2,20]],"format":"hermitage-history","initial":[[1,99],[2,20]],"installed":[[1,[1,2]]],"transactions":[{"no":1,"ops":[{"rows":[],"statement":"select * from test where value = 99","view":[[1,2,1]],"writes":[]},{"rows":[[1,99]],"statement":"update test set value = 11 where id = 1","view":[],"writes":[[1,11]]}],"outcome":"committed"},{"no":2,"ops":[{"rows":[[1,11]],"statement":"update test set value = 12 where id = 1","view":[[1,1,2]],"writes":[[1,12]]}],"outcome":"committed"}],"version":1}"#,
    text: b"serializable: no F5 LaterThanOwn T1 op 1 row 1\nsnapshot: no F5 LaterThanOwn T1 op 1 row 1\nG0: not judged\nG1a: not judged\nG1b: not judged\nG1c: not judged\nG-single: not judged\nG2-item: not judged\nG2: not judged\nlevel: unsound\n",
    status: 0,
};

const VALUE_WRITTEN_AGAIN: Case = Case {
    subcommand: Subcommand::Judge,
    input: br#"{"end":[[1,10],[2,21]],"format":"hermitage-history","initial":[[1,10],[2,20]],"installed":[[1,[2,3]],[2,[3]]],"transactions":[{"no":1,"ops":[{"rows":[[1,10]],"statement":"select * from test where id = 1","view":[],"writes":[]},{"rows":[[2,21]],"statement":"select * from test where id = 2","view":[[2,3,2]],"writes":[]}],"outcome":"committed"},{"no":2,"ops":[{"rows":[[1,10]],"statement":"update test set value = 11 where id = 1","view":[],"writes":[[1,11]]}],"outcome":"committed"},{"no":3,"ops":[{"rows":[[1,11]],"statement":"update test set value = 10 where id = 1","view":[[1,2,1]],"writes":[[1,10]]},{"rows":[[2,20]],"statement":"update test set value = 21 where id = 2","view":[[1,3,1]],"writes":[[2,21]]}],"outcome":"committed"}],"version":1}"#,
    text: b"serializable: no T1 rw(1) T2 ww(1) T3 wr(2) T1\nsnapshot: no s1 c2 s3 c3 s1\nG0: absent\nG1a: absent\nG1b: absent\nG1c: absent\nG-single: present T1 rw(1) T2 ww(1) T3 wr(2) T1\nG2-item: present T1 rw(1) T2 ww(1) T3 wr(2) T1\nG2: present T1 rw(1) T2 ww(1) T3 wr(2) T1\nlevel: PL-2\n",
    status: 0,
};

const ONE_UPDATE: Case = Case {
    subcommand: Subcommand::Judge,
    input: br#"{"end":[[1,11]],"format":"hermitage-history","initial":[[1,10]],"installed":[[1,[1]]],"transactions":[{"no":1,"ops":[{"rows":[[1,10]],"statement":"update test set value = value + 1 where id = 1","view":[],"writes":[[1,11]]}],"outcome":"committed"}],"version":1}"#,
    text: b"serializable: yes T1\nsnapshot: yes T1 0-1\nG0: absent\nG1a: absent\nG1b: absent\nG1c: absent\nG-single: absent\nG2-item: absent\nG2: absent\nlevel: PL-3\n",
    status: 0,
};

/// The same in a file of version 2.
const ONE_UPDATE_OF_A_NAMED_TABLE: Case = Case {
    subcommand: Subcommand::Judge,
    input: br#"{"end":[["test",1,11]],"format":"hermitage-history","initial":[["test",1,10]],"installed":[["test",1,[1]]],"transactions":[{"no":1,"ops":[{"rows":[["test",1,10]],"statement":"update test set value = value + 1 where id = 1","view":[],"writes":[["test",1,11]]}],"outcome":"committed"}],"version":2}"#,
    text: b"serializable: yes T1\nsnapshot: yes T1 0-1\nG0: absent\nG1a: absent\nG1b: absent\nG1c: absent\nG-single: absent\nG2-item: absent\nG2: absent\nlevel: PL-3\n",
    status: 0,
};

const ROW_BORN_AGAIN: Case = Case {
    subcommand: Subcommand::Judge,
    input: br#"{"end":[[1,10],[2,20],[3,33]],"format":"hermitage-history","initial":[[1,10],[2,20]],"installed":[[3,[1,2,3]]],"transactions":[{"no":1,"ops":[{"rows":[],"statement":"insert into test (id, value) values (3, 30)","view":[],"writes":[[3,30]]}],"outcome":"committed"},{"no":2,"ops":[{"rows":[[3,30]],"statement":"delete from test where id = 3","view":[[3,1,1]],"writes":[[3,null]]}],"outcome":"committed"},{"no":3,"ops":[{"rows":[],"statement":"insert into test (id, value) values (3, 33)","view":[[3,2,1]],"writes":[[3,33]]}],"outcome":"committed"}],"version":1}"#,
    text: b"serializable: yes T1 T2 T3\nsnapshot: yes T1 0-1 T2 2-3 T3 4-5\nG0: absent\nG1a: absent\nG1b: absent\nG1c: absent\nG-single: absent\nG2-item: absent\nG2: absent\nlevel: PL-3\n",
    status: 0,
};

/// A history without transactions.
pub const EMPTY: &[u8] =
    br#"{"end":[[1,10],[2,20]],"format":"hermitage-history","initial":[[1,10],[2,20]],"installed":[],"transactions":[],"version":1}"#;

const NO_TRANSACTIONS: Case = Case {
    subcommand: Subcommand::Judge,
    input: EMPTY,
    text: b"serializable: yes\nsnapshot: yes\nG0: absent\nG1a: absent\nG1b: absent\nG1c: absent\nG-single: absent\nG2-item: absent\nG2: absent\nlevel: PL-3\n",
    status: 0,
};

const ANOTHER_END: Case = Case {
    subcommand: Subcommand::Judge,
    input: br#"{"end":[[1,11],[2,20]],"format":"hermitage-history","initial":[[1,10],[2,20]],"installed":[],"transactions":[],"version":1}"#,
    text: b"serializable: no F9 EndDiffers row 1\nsnapshot: no F9 EndDiffers row 1\nG0: not judged\nG1a: not judged\nG1b: not judged\nG1c: not judged\nG-single: not judged\nG2-item: not judged\nG2: not judged\nlevel: unsound\n",
    status: 0,
};

/// A file without its last bracket.
pub const CUT: &[u8] =
    br#"{"end":[[1,11]],"format":"hermitage-history","initial":[[1,10]],"installed":[[1,[1]]],"transactions":[{"no":1,"ops":[{"rows":[[1,10]],"statement":"update test set value = value + 1 where id = 1","view":[],"writes":[[1,11]]}],"outcome":"committed"}],"version":1"#;

/// The line of its fault.
pub const CUT_FAULT: &[u8] = b"file: NotJson\n";

pub const CUT_FILE: Case = Case {
    subcommand: Subcommand::Judge,
    input: CUT,
    text: CUT_FAULT,
    status: 2,
};

const REPEATED_NUMBER: Case = Case {
    subcommand: Subcommand::Judge,
    input: br#"{"end":[[1,10],[2,20]],"format":"hermitage-history","initial":[[1,10],[2,20]],"installed":[],"transactions":[{"no":1,"ops":[],"outcome":"committed"},{"no":1,"ops":[],"outcome":"committed"}],"version":1}"#,
    text: b"file: RepeatedTxn 1\n",
    status: 2,
};

const CASES: [Case; 12] = [
    ABORTED_READ,
    WRITE_CYCLE,
    INTERMEDIATE_READ,
    READ_OF_A_LATER_VERSION,
    VALUE_WRITTEN_AGAIN,
    ONE_UPDATE,
    ONE_UPDATE_OF_A_NAMED_TABLE,
    ROW_BORN_AGAIN,
    NO_TRANSACTIONS,
    ANOTHER_END,
    CUT_FILE,
    REPEATED_NUMBER,
];

#[test]
fn judge_writes_what_is_due(rt: HostRuntime) -> Result<(), Fail> {
    check(&rt, rt.alloc(), &CASES)
}
