//! What is said of a run besides its answer.

use lab_reports::Violation;
use lab_streams::note_text;
use std::io::Write;

/// What there is to say of a run besides its answer.
#[derive(Clone, Copy, Debug, Drop, PartialEq, Eq)]
pub enum Remark {
    /// Nothing: the answer is a smaller history, of which nothing more can go.
    Nothing,
    /// The history is serializable, and a no was wanted.
    Serializable,
    /// The history doesn't show what is asked for.
    NotShown(Violation),
    /// Nothing can go.
    AlreadyLeast,
    /// The work ended before it was known that nothing more can go.
    Ended,
    /// The smaller history's file would be longer than a file may be.
    TooLong,
}

impl Remark {
    /// Gives `notes` a line where there is something to say; what fails there is let go.
    pub fn note<N: Write>(self, notes: &mut N) {
        match self {
            Remark::Nothing => {}
            Remark::Serializable => note_text(
                b"note: the history is serializable, and is given back as it is\n",
                notes,
            ),
            Remark::NotShown(violation) => note_not_shown(violation, notes),
            Remark::AlreadyLeast => note_text(
                b"note: nothing of the history can be taken away; it is given back as it is\n",
                notes,
            ),
            Remark::Ended => note_text(
                b"note: it ended after as much work as it may do; more may be taken away by running it again\n",
                notes,
            ),
            Remark::TooLong => note_text(
                b"note: the smaller history's file would have more than 8388608 bytes; it is given back as it is\n",
                notes,
            ),
        }
    }
}

/// Says that a history doesn't show what is asked for.
fn note_not_shown<N: Write>(violation: Violation, notes: &mut N) {
    match violation {
        Violation::Phenomenon(phenomenon) => {
            note_text(b"note: the history doesn't show ", notes);
            note_text(phenomenon.name().as_bytes(), notes);
            note_text(b", and is given back as it is\n", notes);
        }
        Violation::Snapshot => note_text(
            b"note: the history is a snapshot run, and is given back as it is\n",
            notes,
        ),
    }
}
