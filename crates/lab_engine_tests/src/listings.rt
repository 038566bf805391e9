//! Ten scripts with anomalies, after Kleppmann's Hermitage, and one over two tables.

pub const G0: &[u8] = b"setup (1, 10), (2, 20);
begin; -- T1
begin; -- T2
update test set value = 11 where id = 1; -- T1
update test set value = 12 where id = 1; -- T2
update test set value = 21 where id = 2; -- T1
commit; -- T1
update test set value = 22 where id = 2; -- T2
commit; -- T2
";

pub const G1A: &[u8] = b"setup (1, 10), (2, 20);
begin; -- T1
begin; -- T2
update test set value = 101 where id = 1; -- T1
select * from test; -- T2
abort; -- T1
select * from test; -- T2
commit; -- T2
";

pub const G1B: &[u8] = b"setup (1, 10), (2, 20);
begin; -- T1
begin; -- T2
update test set value = 101 where id = 1; -- T1
select * from test; -- T2
update test set value = 11 where id = 1; -- T1
commit; -- T1
select * from test; -- T2
commit; -- T2
";

pub const G1C: &[u8] = b"setup (1, 10), (2, 20);
begin; -- T1
begin; -- T2
update test set value = 11 where id = 1; -- T1
update test set value = 22 where id = 2; -- T2
select * from test where id = 2; -- T1
select * from test where id = 1; -- T2
commit; -- T1
commit; -- T2
";

pub const G_SINGLE: &[u8] = b"setup (1, 10), (2, 20);
begin; -- T1
begin; -- T2
select * from test where id = 1; -- T1
select * from test where id = 1; -- T2
select * from test where id = 2; -- T2
update test set value = 12 where id = 1; -- T2
update test set value = 18 where id = 2; -- T2
commit; -- T2
select * from test where id = 2; -- T1
commit; -- T1
";

pub const G2_ITEM: &[u8] = b"setup (1, 10), (2, 20);
begin; -- T1
begin; -- T2
select * from test where id in (1, 2); -- T1
select * from test where id in (1, 2); -- T2
update test set value = 11 where id = 1; -- T1
update test set value = 21 where id = 2; -- T2
commit; -- T1
commit; -- T2
";

pub const G2: &[u8] = b"setup (1, 10), (2, 20);
begin; -- T1
begin; -- T2
select * from test where value % 3 = 0; -- T1
select * from test where value % 3 = 0; -- T2
insert into test (id, value) values (3, 30); -- T1
insert into test (id, value) values (4, 42); -- T2
commit; -- T1
commit; -- T2
";

pub const OTV: &[u8] = b"setup (1, 10), (2, 20);
begin; -- T1
begin; -- T2
begin; -- T3
update test set value = 11 where id = 1; -- T1
update test set value = 19 where id = 2; -- T1
update test set value = 12 where id = 1; -- T2
commit; -- T1
select * from test where id = 1; -- T3
update test set value = 18 where id = 2; -- T2
select * from test where id = 2; -- T3
commit; -- T2
select * from test where id = 2; -- T3
select * from test where id = 1; -- T3
commit; -- T3
";

pub const P4: &[u8] = b"setup (1, 10), (2, 20);
begin; -- T1
begin; -- T2
select * from test where id = 1; -- T1
select * from test where id = 1; -- T2
update test set value = 11 where id = 1; -- T1
update test set value = 11 where id = 1; -- T2
commit; -- T1
commit; -- T2
";

pub const PMP: &[u8] = b"setup (1, 10), (2, 20);
begin; -- T1
begin; -- T2
select * from test where value = 30; -- T1
insert into test (id, value) values (3, 30); -- T2
commit; -- T2
select * from test where value % 3 = 0; -- T1
commit; -- T1
";

/// Write skew over the rows with one number in two tables.
pub const TWO_TABLES: &[u8] = b"setup (1, 10), stock (1, 5);
begin; -- T1
begin; -- T2
select * from test where id = 1; -- T1
select * from stock where id = 1; -- T2
update stock set value = 6 where id = 1; -- T1
update test set value = 11 where id = 1; -- T2
commit; -- T1
commit; -- T2
";

/// All of them.
pub static LISTINGS: [&[u8]; 11] = [
    G0, G1A, G1B, G1C, G_SINGLE, G2_ITEM, G2, OTV, P4, PMP, TWO_TABLES,
];
