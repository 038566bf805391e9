//! The scripts that benches run with each allocation failing in turn.

use crate::listings::{G1B, G1C};

/// A predicate by value, and an update that changes what it matches.
const BY_VALUE: &[u8] = b"setup (1, 10), (2, 20);
begin; -- T1
begin; -- T2
select * from test where value = 20; -- T2
update test set value = value + 10 where id = 1; -- T1
commit; -- T2
commit; -- T1
";

/// A predicate of several parts, and a negative value.
const PARTS: &[u8] = b"setup (1, -7), (2, 20);
begin; -- T3
select * from test where value % 3 = -1; -- T3
SELECT * FROM test WHERE NOT (id=1 OR value>=20) AND id IN(1,2) -- T3
commit; -- T3
";

/// One update.
const ONE_UPDATE: &[u8] = b"setup (1, 10);
begin; -- T1
update test set value = value + 1 where id = 1; -- T1
commit; -- T1
";

/// Session 1 updates behind eleven events, so that the log, which keeps room for ends, needs an allocation.
const LATE: &[u8] = b"setup (1, 10), (2, 20);
begin; -- T1
begin; -- T2
select * from test where id = 1; -- T1
select * from test where id = 1; -- T1
select * from test where id = 1; -- T2
select * from test where id = 1; -- T2
commit; -- T2
commit; -- T2
commit; -- T2
commit; -- T2
commit; -- T2
update test set value = 11 where id = 1; -- T1
";

/// Where writers wait session 2 does, and its retry comes behind eleven events.
const RETRIED: &[u8] = b"setup (1, 10), (2, 20);
begin; -- T1
update test set value = 11 where id = 1; -- T1
begin; -- T2
update test set value = 12 where id = 1; -- T2
begin; -- T3
select * from test where id = 2; -- T3
commit; -- T3
commit; -- T3
commit; -- T3
commit; -- T3
commit; -- T1
";

/// Session 1 has two rows pending, and where nobody waits session 2 has installed one of them since session 1's begin. Before
/// the end stand eleven events, so that any other event needs an allocation in the log.
const SNAPSHOT: &[u8] = b"setup (1, 10), (2, 20);
begin; -- T1
begin; -- T2
update test set value = 12 where id = 1; -- T2
commit; -- T2
update test set value = 11 where id = 1; -- T1
update test set value = 21 where id = 2; -- T1
insert into test (id, value) values (3, 30); -- T1
commit; -- T2
commit; -- T2
commit; -- T2
commit; -- T2
commit; -- T1
";

/// The same with another end.
const SNAPSHOT_ABORTED: &[u8] = b"setup (1, 10), (2, 20);
begin; -- T1
begin; -- T2
update test set value = 12 where id = 1; -- T2
commit; -- T2
update test set value = 11 where id = 1; -- T1
update test set value = 21 where id = 2; -- T1
insert into test (id, value) values (3, 30); -- T1
commit; -- T2
commit; -- T2
commit; -- T2
commit; -- T2
abort; -- T1
";

/// The same, but that session 2 has installed another row.
const APART: &[u8] = b"setup (1, 10), (2, 20), (4, 40);
begin; -- T1
begin; -- T2
update test set value = 42 where id = 4; -- T2
commit; -- T2
update test set value = 11 where id = 1; -- T1
update test set value = 21 where id = 2; -- T1
insert into test (id, value) values (3, 30); -- T1
commit; -- T2
commit; -- T2
commit; -- T2
commit; -- T2
commit; -- T1
";

/// The same, but that session 1 has read a row that session 2 has installed, and written others.
const READ: &[u8] = b"setup (1, 10), (2, 20), (4, 40);
begin; -- T1
begin; -- T2
update test set value = 42 where id = 4; -- T2
commit; -- T2
update test set value = 11 where id = 1; -- T1
select * from test where id = 4; -- T1
insert into test (id, value) values (3, 30); -- T1
commit; -- T2
commit; -- T2
commit; -- T2
commit; -- T2
commit; -- T1
";

/// The same with another end.
const READ_ABORTED: &[u8] = b"setup (1, 10), (2, 20), (4, 40);
begin; -- T1
begin; -- T2
update test set value = 42 where id = 4; -- T2
commit; -- T2
update test set value = 11 where id = 1; -- T1
select * from test where id = 4; -- T1
insert into test (id, value) values (3, 30); -- T1
commit; -- T2
commit; -- T2
commit; -- T2
commit; -- T2
abort; -- T1
";

/// Session 1 has rows pending and, where writers wait, session 2 waits for one of them, after eleven events.
const HELD: &[u8] = b"setup (1, 10), (2, 20);
begin; -- T1
update test set value = 11 where id = 1; -- T1
update test set value = 21 where id = 2; -- T1
insert into test (id, value) values (3, 30); -- T1
begin; -- T2
update test set value = 12 where id = 1; -- T2
commit; -- T3
commit; -- T3
commit; -- T3
commit; -- T3
commit; -- T3
commit; -- T1
";

/// The same with another end.
const HELD_ABORTED: &[u8] = b"setup (1, 10), (2, 20);
begin; -- T1
update test set value = 11 where id = 1; -- T1
update test set value = 21 where id = 2; -- T1
insert into test (id, value) values (3, 30); -- T1
begin; -- T2
update test set value = 12 where id = 1; -- T2
commit; -- T3
commit; -- T3
commit; -- T3
commit; -- T3
commit; -- T3
abort; -- T1
";

/// All of them; in two listings sessions wait at locking, in one up to a deadlock.
pub static SCRIPTS: [&[u8]; 14] = [
    BY_VALUE,
    PARTS,
    G1B,
    G1C,
    ONE_UPDATE,
    LATE,
    RETRIED,
    SNAPSHOT,
    SNAPSHOT_ABORTED,
    APART,
    READ,
    READ_ABORTED,
    HELD,
    HELD_ABORTED,
];
