//! The output of `serial`.

use crate::case::{Case, Subcommand, check};
use std::test::Fail;

pub const TWO_SESSIONS: Case = Case {
    subcommand: Subcommand::Serial,
    input: b"setup (1, 10), (2, 20);\nbegin; -- T1\nbegin; -- T2\nselect * from test where value = 20; -- T2\nupdate test set value = value + 10 where id = 1; -- T1\ncommit; -- T2\ncommit; -- T1\n",
    text: b"txn 1 T1\nupdate test set value = value + 10 where id = 1 -> (1, 10)\ncommit\ntxn 2 T2\nselect * from test where value = 20 -> (1, 20), (2, 20)\ncommit\nend (1, 20), (2, 20)\n",
    status: 0,
};

const NO_ROWS: Case = Case {
    subcommand: Subcommand::Serial,
    input: b"setup ();",
    text: b"end none\n",
    status: 0,
};

const LARGE_NUMBER: Case = Case {
    subcommand: Subcommand::Serial,
    input: b"setup (1, 10), (2, 20);\nupdate test set value = 1000000001 where id = 1; -- T1\n",
    text: b"line 2: NumberOutOfRange\n",
    status: 2,
};

const LARGEST_NUMBER: Case = Case {
    subcommand: Subcommand::Serial,
    input: b"setup (1, 10), (2, 20);\nupdate test set value = 1000000000 where id = 1; -- T1\n",
    text: b"end (1, 10), (2, 20)\n",
    status: 0,
};

const OUT_OF_RANGE: Case = Case {
    subcommand: Subcommand::Serial,
    input: b"setup (1, 10), (2, 20);\nbegin; -- T1\nupdate test set value = value + 1000000000 where id = 2; -- T1\nselect * from test; -- T1\ncommit; -- T1\n",
    text: b"txn 1 T1\nupdate test set value = value + 1000000000 where id = 2 -> OutOfRange 2\nabort\nend (1, 10), (2, 20)\n",
    status: 0,
};

pub const NO_SESSION: Case = Case {
    subcommand: Subcommand::Serial,
    input: b"setup (1, 10);\n-- a remark\nbegin;\n",
    text: b"line 3: NoSession\n",
    status: 2,
};

const SEVENTEEN_OPEN: Case = Case {
    subcommand: Subcommand::Serial,
    input: b"setup (1, 10);\nselect * from test where (((((((((((((((((id = 1))))))))))))))))); -- T1\n",
    text: b"line 2: TooDeep\n",
    status: 2,
};

const SIXTEEN_OPEN: Case = Case {
    subcommand: Subcommand::Serial,
    input: b"setup (1, -7);\nbegin; -- T1\nselect * from test where ((((((((((((((((value % 3 = -1)))))))))))))))); -- T1\ncommit; -- T1\n",
    text: b"txn 1 T1\nselect * from test where value % 3 = -1 -> (1, -7)\ncommit\nend (1, -7)\n",
    status: 0,
};

const PRINTED: Case = Case {
    subcommand: Subcommand::Serial,
    input: b"setup (1, 10), (2, 20);\nBEGIN --t3\nSELECT * FROM test WHERE NOT (id=1 OR value>=20) AND id IN(1,2) -- T3, shows\nrollback; -- T3",
    text: b"txn 1 T3\nselect * from test where not (id = 1 or value >= 20) and id in (1, 2) -> none\nabort\nend (1, 10), (2, 20)\n",
    status: 0,
};

const TWO_TABLES: Case = Case {
    subcommand: Subcommand::Serial,
    input: b"setup test (1, 10), stock (1, 5);\nbegin; -- T1\nselect * from TEST where id = 1; -- T1\nupdate Stock set value = 6 where id = 1; -- T1\ninsert into test (id, value) values (2, 20); -- T1\ninsert into stock (id, value) values (1, 7); -- T1\n",
    text: b"txn 1 T1\nselect * from test where id = 1 -> (1, 10)\nupdate stock set value = 6 where id = 1 -> (1, 5)\ninsert into test (id, value) values (2, 20) -> none\ninsert into stock (id, value) values (1, 7) -> DuplicateKey stock 1\nabort\nend stock (1, 5), (1, 10)\n",
    status: 0,
};

const FIVE_TABLES: Case = Case {
    subcommand: Subcommand::Serial,
    input: b"setup a (1, 1), b (1, 1), c (1, 1), (1, 1), d (1, 1);",
    text: b"line 1: TooManyTables\n",
    status: 2,
};

const NO_NAME: Case = Case {
    subcommand: Subcommand::Serial,
    input: b"setup (1, 10);\nselect * from values; -- T1\n",
    text: b"line 2: BadTableName\n",
    status: 2,
};

const CASES: [Case; 12] = [
    NO_ROWS,
    TWO_SESSIONS,
    LARGE_NUMBER,
    LARGEST_NUMBER,
    OUT_OF_RANGE,
    NO_SESSION,
    SEVENTEEN_OPEN,
    SIXTEEN_OPEN,
    PRINTED,
    TWO_TABLES,
    FIVE_TABLES,
    NO_NAME,
];

#[test]
fn serial_writes_what_is_due(rt: HostRuntime) -> Result<(), Fail> {
    check(&rt, rt.alloc(), &CASES)
}
