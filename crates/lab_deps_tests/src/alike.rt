//! Histories that are written out in full, with their edges.

ghost use Rattle.lab_deps.specs.Soundness.{IsSound};

use crate::pairs::edges_by_pairs;
use crate::told::is_told;
use lab_deps::{Edge, Kind, Sound, check_local, edges};
use lab_history::History;
use lab_history_file::read_history;
use std::alloc::Global;
use std::test::Fail;

/// Whether the plainer body finds these edges.
fn are_paired(alloc: Global, history: &History, walked: &[Edge]) -> bool {
    match edges_by_pairs(alloc, history) {
        Ok(paired) => {
            let are_paired = paired.as_slice() == walked;
            drop(paired);
            are_paired
        }
        Err(_) => false,
    }
}

/// The edges of a sound history, where the plainer body finds the same, and what is told of each two transactions is that
/// too.
fn edges_of(alloc: Global, history: &History, sound: &Sound) -> Option<Vec<Edge>>
    requires { IsSound history.now }
{
    let Ok(walked) = edges(alloc, history, sound) else {
        return None;
    };
    if are_paired(alloc, history, &walked) && is_told(alloc, history, sound, &walked) {
        return Some(walked);
    }
    drop(walked);
    None
}

/// The same of a history; None too where it isn't sound.
pub fn edges_in(alloc: Global, history: &History) -> Option<Vec<Edge>> {
    match check_local(alloc, history) {
        Ok(sound) => edges_of(alloc, history, &sound),
        Err(_) => None,
    }
}

/// The same of the history of this text; None too where it isn't one.
pub fn edges_by_both(alloc: Global, text: &[u8]) -> Option<Vec<Edge>> {
    match read_history(alloc, text) {
        Ok(history) => {
            let found = edges_in(alloc, &history);
            drop(history);
            found
        }
        Err(_) => None,
    }
}

/// Two transactions write the same two rows, each first where the other is second.
const TWO_ORDERS: &str =
    r#"{"version":1,"format":"hermitage-history","initial":[[1,10],[2,20]],"transactions":[{"no":1,"outcome":"committed","ops":[{"statement":"update test set value = 11 where id = 1","view":[],"rows":[[1,10]],"writes":[[1,11]]},{"statement":"update test set value = 21 where id = 2","view":[[1,1,1]],"rows":[[2,20]],"writes":[[2,21]]}]},{"no":2,"outcome":"committed","ops":[{"statement":"update test set value = 12 where id = 1","view":[],"rows":[[1,10]],"writes":[[1,12]]},{"statement":"update test set value = 22 where id = 2","view":[[1,2,1]],"rows":[[2,20]],"writes":[[2,22]]}]}],"installed":[[1,[1,2]],[2,[2,1]]],"end":[[1,12],[2,21]]}"#;

/// A transaction sees row 1 before, and row 2 after, what two others did.
const BEFORE_AND_AFTER: &str =
    r#"{"version":1,"format":"hermitage-history","initial":[[1,10],[2,20]],"transactions":[{"no":1,"outcome":"committed","ops":[{"statement":"select * from test where id = 1","view":[],"rows":[[1,10]],"writes":[]},{"statement":"select * from test where id = 2","view":[[2,3,2]],"rows":[[2,21]],"writes":[]}]},{"no":2,"outcome":"committed","ops":[{"statement":"update test set value = 11 where id = 1","view":[],"rows":[[1,10]],"writes":[[1,11]]}]},{"no":3,"outcome":"committed","ops":[{"statement":"update test set value = 10 where id = 1","view":[[1,2,1]],"rows":[[1,11]],"writes":[[1,10]]},{"statement":"update test set value = 21 where id = 2","view":[[1,3,1]],"rows":[[2,20]],"writes":[[2,21]]}]}],"installed":[[1,[2,3]],[2,[3]]],"end":[[1,10],[2,21]]}"#;

/// A row is inserted, deleted and inserted again.
const REBORN: &str =
    r#"{"version":1,"format":"hermitage-history","initial":[[1,10],[2,20]],"transactions":[{"no":1,"outcome":"committed","ops":[{"statement":"insert into test (id, value) values (3, 30)","view":[],"rows":[],"writes":[[3,30]]}]},{"no":2,"outcome":"committed","ops":[{"statement":"delete from test where id = 3","view":[[3,1,1]],"rows":[[3,30]],"writes":[[3,null]]}]},{"no":3,"outcome":"committed","ops":[{"statement":"insert into test (id, value) values (3, 33)","view":[[3,2,1]],"rows":[],"writes":[[3,33]]}]}],"installed":[[3,[1,2,3]]],"end":[[1,10],[2,20],[3,33]]}"#;

/// Two tables have a row 1: one transaction sees that of `test` and writes the other, and one turned round. A third sees
/// what was written to `test`, and asks it for a value that only the other table's row had.
const TWO_TABLES: &str =
    r#"{"version":2,"format":"hermitage-history","initial":[["stock",1,5],["test",1,10]],"transactions":[{"no":1,"outcome":"committed","ops":[{"statement":"select * from test where id = 1","view":[],"rows":[["test",1,10]],"writes":[]},{"statement":"update stock set value = 6 where id = 1","view":[],"rows":[["stock",1,5]],"writes":[["stock",1,6]]}]},{"no":2,"outcome":"committed","ops":[{"statement":"select * from stock where id in (1, 2)","view":[],"rows":[["stock",1,5]],"writes":[]},{"statement":"update test set value = 11 where id = 1","view":[],"rows":[["test",1,10]],"writes":[["test",1,11]]}]},{"no":3,"outcome":"committed","ops":[{"statement":"select * from test","view":[["test",1,2,2]],"rows":[["test",1,11]],"writes":[]},{"statement":"select * from test where value = 5","view":[["test",1,2,2]],"rows":[],"writes":[]}]}],"installed":[["stock",1,[1]],["test",1,[2]]],"end":[["stock",1,6],["test",1,11]]}"#;

/// An edge: its transactions, its kind, its row's table and the row's number.
type Due = (u32, u32, Kind, &'static str, u32);

/// Histories, and their edges.
static WRITTEN_OUT: [(&str, &[Due]); 4] = [
    (
        TWO_ORDERS,
        &[
            (1, 2, Kind::Write, "test", 1),
            (1, 2, Kind::ItemAnti, "test", 2),
            (2, 1, Kind::Write, "test", 2),
            (2, 1, Kind::ItemAnti, "test", 1),
        ],
    ),
    (
        BEFORE_AND_AFTER,
        &[
            (1, 2, Kind::ItemAnti, "test", 1),
            (2, 3, Kind::Write, "test", 1),
            (2, 3, Kind::ItemRead, "test", 1),
            (3, 1, Kind::ItemRead, "test", 2),
        ],
    ),
    (
        REBORN,
        &[
            (1, 2, Kind::Write, "test", 3),
            (1, 2, Kind::ItemRead, "test", 3),
            (1, 2, Kind::PredicateRead, "test", 3),
            (1, 2, Kind::PredicateAnti, "test", 3),
            (1, 3, Kind::PredicateRead, "test", 3),
            (1, 3, Kind::PredicateAnti, "test", 3),
            (2, 3, Kind::Write, "test", 3),
            (2, 3, Kind::PredicateRead, "test", 3),
            (2, 3, Kind::PredicateAnti, "test", 3),
        ],
    ),
    (
        TWO_TABLES,
        &[
            (1, 2, Kind::ItemAnti, "test", 1),
            (2, 1, Kind::ItemAnti, "stock", 1),
            (2, 3, Kind::ItemRead, "test", 1),
        ],
    ),
];

fn is_due(edge: &Edge, due: &Due) -> bool {
    let (from, to, kind, table, row) = due;
    edge.from.number() == *from
        && edge.to.number() == *to
        && edge.kind == *kind
        && edge.row.table.as_bytes() == table.as_bytes()
        && edge.row.id.number() == *row
}

/// Whether the edges are these.
fn are_due(edges: &[Edge], expected: &[Due]) -> bool {
    for (edge, due) in edges.iter().zip(expected) {
        if !is_due(edge, due) {
            return false;
        }
    }
    edges.len() == expected.len()
}

/// Whether both bodies answer these edges of the history of this text.
fn has_edges(alloc: Global, text: &[u8], expected: &[Due]) -> bool {
    match edges_by_both(alloc, text) {
        Some(found) => {
            let are_due = are_due(&found, expected);
            drop(found);
            are_due
        }
        None => false,
    }
}

#[test]
fn edges_are_those_that_are_written_out(rt: HostRuntime) -> Result<(), Fail> {
    for (text, expected) in &WRITTEN_OUT {
        assert!(rt; has_edges(rt.alloc(), text.as_bytes(), expected), "{text}");
    }
    Ok(())
}
