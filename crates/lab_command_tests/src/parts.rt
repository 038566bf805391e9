//! Files that tests hold in memory: parts of runs, and summaries of pieces of runs.

use crate::files::Held;

/// A part without transactions.
pub const STILL: &[u8] =
    br#"{"end":[[1,10]],"format":"hermitage-history","initial":[[1,10]],"installed":[],"transactions":[],"version":1}"#;

/// The same with another value.
pub const OTHER: &[u8] =
    br#"{"end":[[1,11]],"format":"hermitage-history","initial":[[1,11]],"installed":[],"transactions":[],"version":1}"#;

/// A part that adds 1 to the row, and one that does so behind it.
const FIRST: &[u8] =
    br#"{"end":[[1,11]],"format":"hermitage-history","initial":[[1,10]],"installed":[[1,[1]]],"transactions":[{"no":1,"ops":[{"rows":[[1,10]],"statement":"update test set value = value + 1 where id = 1","view":[],"writes":[[1,11]]}],"outcome":"committed"}],"version":1}"#;

const SECOND: &[u8] =
    br#"{"end":[[1,12]],"format":"hermitage-history","initial":[[1,11]],"installed":[[1,[1]]],"transactions":[{"no":1,"ops":[{"rows":[[1,11]],"statement":"update test set value = value + 1 where id = 1","view":[],"writes":[[1,12]]}],"outcome":"committed"}],"version":1}"#;

/// The front of a file, of 29 bytes.
pub const FRONT: &[u8] = br#"{"format":"hermitage-history""#;

/// What `chain --json` writes of a part without transactions, which is named a.
pub const ANSWER: &[u8] =
    b"{\"committed\":false,\"end\":[[\"test\",1,10]],\"first\":\"a\",\"initial\":[[\"test\",1,10]],\"level\":\"PL-3\",\"parts\":1,\"phenomena\":{\"G-single\":{\"verdict\":\"absent\"},\"G0\":{\"verdict\":\"absent\"},\"G1a\":{\"verdict\":\"absent\"},\"G1b\":{\"verdict\":\"absent\"},\"G1c\":{\"verdict\":\"absent\"},\"G2\":{\"verdict\":\"absent\"},\"G2-item\":{\"verdict\":\"absent\"}},\"serializable\":{\"verdict\":\"yes\"},\"snapshot\":{\"verdict\":\"yes\"}}\n";

/// The same with another value.
pub const OTHER_ANSWER: &[u8] =
    b"{\"committed\":false,\"end\":[[\"test\",1,11]],\"first\":\"a\",\"initial\":[[\"test\",1,11]],\"level\":\"PL-3\",\"parts\":1,\"phenomena\":{\"G-single\":{\"verdict\":\"absent\"},\"G0\":{\"verdict\":\"absent\"},\"G1a\":{\"verdict\":\"absent\"},\"G1b\":{\"verdict\":\"absent\"},\"G1c\":{\"verdict\":\"absent\"},\"G2\":{\"verdict\":\"absent\"},\"G2-item\":{\"verdict\":\"absent\"}},\"serializable\":{\"verdict\":\"yes\"},\"snapshot\":{\"verdict\":\"yes\"}}\n";

/// What it writes of the two parts that each add 1.
const PIECE: &[u8] =
    b"{\"committed\":true,\"end\":[[\"test\",1,12]],\"first\":\"first\",\"initial\":[[\"test\",1,10]],\"level\":\"PL-3\",\"parts\":2,\"phenomena\":{\"G-single\":{\"verdict\":\"absent\"},\"G0\":{\"verdict\":\"absent\"},\"G1a\":{\"verdict\":\"absent\"},\"G1b\":{\"verdict\":\"absent\"},\"G1c\":{\"verdict\":\"absent\"},\"G2\":{\"verdict\":\"absent\"},\"G2-item\":{\"verdict\":\"absent\"}},\"serializable\":{\"verdict\":\"yes\"},\"snapshot\":{\"verdict\":\"yes\"}}\n";

/// Files of these, by their names.
pub fn files_in_memory() -> [Held; 6] {
    [
        Held::new("still", STILL),
        Held::new("first", FIRST),
        Held::new("second", SECOND),
        Held::new("cut", FRONT),
        Held::new("answer", ANSWER),
        Held::new("piece", PIECE),
    ]
}
