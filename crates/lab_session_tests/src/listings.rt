//! Scripts in which no statement waits, and the logs of their runs.

use lab_engine::Level;

const PREDICATE: &[u8] = b"setup (1, 10), (2, 20);
begin; -- T1
begin; -- T2
select * from test where value = 20; -- T2
update test set value = value + 10 where id = 1; -- T1
commit; -- T2
commit; -- T1
";

const PREDICATE_LOG: &[u8] = b"T1 begin: begun 1
T2 begin: begun 2
T2 select * from test where value = 20: rows (2, 20)
T1 update test set value = value + 10 where id = 1: rows (1, 10)
T2 commit: committed
T1 commit: committed
";

/// The listing of G1b.
const INTERMEDIATE: &[u8] = b"setup (1, 10), (2, 20);
begin; -- T1
begin; -- T2
update test set value = 101 where id = 1; -- T1
select * from test; -- T2
update test set value = 11 where id = 1; -- T1
commit; -- T1
select * from test; -- T2
commit; -- T2
";

const INTERMEDIATE_COMMITTED: &[u8] = b"T1 begin: begun 1
T2 begin: begun 2
T1 update test set value = 101 where id = 1: rows (1, 10)
T2 select * from test: rows (1, 10), (2, 20)
T1 update test set value = 11 where id = 1: rows (1, 101)
T1 commit: committed
T2 select * from test: rows (1, 11), (2, 20)
T2 commit: committed
";

const INTERMEDIATE_SNAPSHOT: &[u8] = b"T1 begin: begun 1
T2 begin: begun 2
T1 update test set value = 101 where id = 1: rows (1, 10)
T2 select * from test: rows (1, 10), (2, 20)
T1 update test set value = 11 where id = 1: rows (1, 101)
T1 commit: committed
T2 select * from test: rows (1, 10), (2, 20)
T2 commit: committed
";

const INTERMEDIATE_OPTIMISTIC: &[u8] = b"T1 begin: begun 1
T2 begin: begun 2
T1 update test set value = 101 where id = 1: rows (1, 10)
T2 select * from test: rows (1, 10), (2, 20)
T1 update test set value = 11 where id = 1: rows (1, 101)
T1 commit: committed
T2 select * from test: rows (1, 10), (2, 20)
T2 commit: refused ReadConflict row 1 by 1
";

/// The listing of G1c.
const CIRCULAR: &[u8] = b"setup (1, 10), (2, 20);
begin; -- T1
begin; -- T2
update test set value = 11 where id = 1; -- T1
update test set value = 22 where id = 2; -- T2
select * from test where id = 2; -- T1
select * from test where id = 1; -- T2
commit; -- T1
commit; -- T2
";

const CIRCULAR_LOG: &[u8] = b"T1 begin: begun 1
T2 begin: begun 2
T1 update test set value = 11 where id = 1: rows (1, 10)
T2 update test set value = 22 where id = 2: rows (2, 20)
T1 select * from test where id = 2: rows (2, 20)
T2 select * from test where id = 1: rows (1, 10)
T1 commit: committed
T2 commit: committed
";

const CIRCULAR_OPTIMISTIC: &[u8] = b"T1 begin: begun 1
T2 begin: begun 2
T1 update test set value = 11 where id = 1: rows (1, 10)
T2 update test set value = 22 where id = 2: rows (2, 20)
T1 select * from test where id = 2: rows (2, 20)
T2 select * from test where id = 1: rows (1, 10)
T1 commit: committed
T2 commit: refused ReadConflict row 1 by 1
";

const ALONE: &[u8] = b"setup (1, 10);
begin; -- T1
update test set value = value + 1 where id = 1; -- T1
commit; -- T1
";

const ALONE_LOG: &[u8] = b"T1 begin: begun 1
T1 update test set value = value + 1 where id = 1: rows (1, 10)
T1 commit: committed
";

/// An update behind eleven events, three of them session 1's, so that it needs allocations in the log, which keeps room for
/// ends, and in the seat.
pub const LATE: &[u8] = b"setup (1, 10), (2, 20);
begin; -- T1
begin; -- T2
select * from test where id = 1; -- T1
select * from test where id = 1; -- T1
select * from test where id = 1; -- T2
select * from test where id = 1; -- T2
commit; -- T2
commit; -- T2
commit; -- T2
commit; -- T2
commit; -- T2
update test set value = 11 where id = 1; -- T1
";

pub const LATE_LOG: &[u8] = b"T1 begin: begun 1
T2 begin: begun 2
T1 select * from test where id = 1: rows (1, 10)
T1 select * from test where id = 1: rows (1, 10)
T2 select * from test where id = 1: rows (1, 10)
T2 select * from test where id = 1: rows (1, 10)
T2 commit: committed
T2 commit: refused NoTransaction
T2 commit: refused NoTransaction
T2 commit: refused NoTransaction
T2 commit: refused NoTransaction
T1 update test set value = 11 where id = 1: rows (1, 10)
";

/// The runs: the level, the script and its log.
pub static RUNS: [(Level, &[u8], &[u8]); 13] = [
    (Level::Committed, PREDICATE, PREDICATE_LOG),
    (Level::Snapshot, PREDICATE, PREDICATE_LOG),
    (Level::Committed, INTERMEDIATE, INTERMEDIATE_COMMITTED),
    (Level::Snapshot, INTERMEDIATE, INTERMEDIATE_SNAPSHOT),
    (Level::Committed, CIRCULAR, CIRCULAR_LOG),
    (Level::Snapshot, CIRCULAR, CIRCULAR_LOG),
    (Level::Locking, ALONE, ALONE_LOG),
    (Level::Committed, ALONE, ALONE_LOG),
    (Level::Snapshot, ALONE, ALONE_LOG),
    (Level::Optimistic, PREDICATE, PREDICATE_LOG),
    (Level::Optimistic, INTERMEDIATE, INTERMEDIATE_OPTIMISTIC),
    (Level::Optimistic, CIRCULAR, CIRCULAR_OPTIMISTIC),
    (Level::Optimistic, ALONE, ALONE_LOG),
];
