//! The committed rows behind the lines of a script.
//!
//! A session's lines are answered in their order: so for each engine and session a cursor goes through the commits once, and
//! it does so where engines have not all installed the same.

ghost use Rattle.std.specs.Prelude.{◌≡◌, ◌≤◌, ◌<◌, Some, true, length, map, slice_get, slice_index_or, IfOk, IfSome, OnOk};
ghost use Rattle.std.specs.Option.{option_copied};
ghost use Rattle.lab_commands.specs.Overwriting.{put_each};
ghost use Rattle.lab_compare.specs.declared.behind.Cursor.{Cursor as CursorOf};
ghost use Rattle.lab_compare.specs.Behind.{installed_at, rows_at, rows_behind, rows_told, table_at, Stands};

use crate::cells::Cell;
use crate::commits::Commits;
use crate::side::Side;
use crate::telling::{Content, Telling};
use lab_commands::put_state;
use lab_table::{ByRow, NoMemory, RowName, Sequence, Session, Value};
use std::alloc::Global;
use std::marker::Model;

/// Committed rows, for a session.
#[derive(Drop)]
pub struct Cursor {
    /// The place of the side whose rows they are.
    side: usize,
    session: Session,
    /// How many writes are installed.
    taken: usize,
    rows: ByRow<Value>,
}

/// Puts rows into these states, one after another. On failure, some of them may have been applied.
fn put_each(
    alloc: Global,
    rows: &mut ByRow<Value>,
    states: &[(RowName, Option<Value>)],
) -> Result<(), NoMemory>
    ensures { OnOk result (rows.new ≡ put_each states.now rows.old) }
{
    for (row, state) in states {
        put_state(alloc, rows, *row, *state)?;
    }
    Ok(())
}

/// Installs writes from one number of them on up to another.
fn go_on(
    alloc: Global,
    rows: &mut ByRow<Value>,
    commits: &Commits,
    taken: usize,
    count: usize,
) -> Result<(), NoMemory>
    requires stands { rows.old ≡ table_at commits.now taken }
    requires ahead { taken ≤ count }
    ensures { OnOk result (rows.new ≡ table_at commits.now count) }
{
    let installs = commits.installs.as_slice();
    let (before, _behind) = installs.split_at(count.min(installs.len()));
    let (_taken, next) = before.split_at(taken.min(before.len()));
    put_each(alloc, rows, next)
}

impl Cursor {
    /// Whether it is of a session and the side at a place.
    fn is_of(&self, number: usize, session: Session) -> bool
        ensures { result ≡ true → self.now.side ≡ number }
    {
        self.side == number && self.session == session
    }

    /// Before the first write.
    fn first(
        alloc: Global,
        number: usize,
        session: Session,
        commits: &Commits,
    ) -> Result<Cursor, NoMemory>
        ensures { IfOk result (λ cursor. (cursor.side ≡ number) × (cursor.taken ≡ 0) × (cursor.rows ≡ table_at commits.now 0)) }
    {
        Ok(Cursor {
            side: number,
            session,
            taken: 0,
            rows: commits.first.copy(alloc)?,
        })
    }

    /// Behind so many writes. After a failure, the result must not be used.
    fn go_to(&mut self, alloc: Global, commits: &Commits, count: usize) -> Result<(), NoMemory>
        requires stands { self.old.rows ≡ table_at commits.now self.old.taken }
        requires ahead { self.old.taken ≤ count }
        ensures { OnOk result ((self.new.side ≡ self.old.side) × (self.new.taken ≡ count) × (self.new.rows ≡ table_at commits.now count)) }
    {
        go_on(alloc, &mut self.rows, commits, self.taken, count)?;
        self.taken = count;
        Ok(())
    }
}

/// The place of the cursor of a session of the side at a place, if there is one.
fn place_of(cursors: &[Cursor], number: usize, session: Session) -> Option<usize>
    ensures { IfSome result (λ place. (place < length cursors.now) × ((cursor : CursorOf) → cursor ≡ slice_index_or cursors.now place cursor → cursor.side ≡ number)) }
{
    for (place, cursor) in cursors.iter().enumerate() {
        if cursor.is_of(number, session) {
            return Some(place);
        }
    }
    None
}

/// How many writes are installed behind the event that answers a line, if one does.
pub fn installed_at(commits: &Commits, cell: Option<&Cell>) -> Option<usize>
    ensures { result ≡ installed_at commits.now (option_copied cell.entry) }
{
    let cell = cell?;
    let counts = commits.counts.as_slice();
    counts
        .get(counts.len().saturating_sub(cell.from_end))
        .copied()
}

/// The cursors of sides.
#[derive(Drop)]
pub struct Cursors<'s> {
    sides: &'s [Side],
    cursors: Vec<Cursor>,
}

impl<'s> Model for Cursors<'s> {
    ghost use Rattle.std.specs.Prelude.{List};
    ghost use Rattle.std.specs.List.{All};
    ghost use Rattle.lab_compare.specs.Behind.{Stands};
    ghost use Rattle.lab_compare.specs.declared.side.Side.{Side};
    ghost use Rattle.std.specs.Coded.{coded_list};
    ghost use Rattle.lab_compare.specs.contracts.side.Side as stored_side;

    ghost Value = { List Side };

    ghost coded = { coded_list stored_side.the_row.coded };

    ghost view = { λ c. c.sides.now };

    ghost invariant = { λ c. All (Stands c.sides.now) c.cursors.items };
}

impl<'s> Cursors<'s> {
    /// None so far; it takes no memory.
    pub fn new(alloc: Global, sides: &'s [Side]) -> Cursors<'s>
        ensures { result ≡ sides.now }
    {
        Cursors {
            sides,
            cursors: Vec::new(alloc),
        }
    }

    /// The sides.
    pub fn sides(&self) -> &'s [Side]
        ensures { result.now ≡ self.now }
    {
        self.sides
    }

    /// The cursor of a session of the side at a place, taken out, if there is one.
    fn take(&mut self, number: usize, session: Session) -> Option<Cursor>
        ensures found { IfSome result (λ cursor. (cursor.side ≡ number) × Stands self.old cursor) }
        ensures same { self.new ≡ self.old }
    {
        let place = place_of(&self.cursors, number, session)?;
        Some(self.cursors.swap_remove(place))
    }

    /// The same, if it is at most behind so many writes.
    fn take_before(&mut self, number: usize, session: Session, count: usize) -> Option<Cursor>
        ensures found { IfSome result (λ cursor. (cursor.side ≡ number) × (cursor.taken ≤ count) × Stands self.old cursor) }
        ensures same { self.new ≡ self.old }
    {
        let cursor = self.take(number, session)?;
        if cursor.taken <= count {
            Some(cursor)
        } else {
            None
        }
    }

    /// The same, or one before the first write.
    fn cursor_before(
        &mut self,
        alloc: Global,
        number: usize,
        side: &Side,
        session: Session,
        count: usize,
    ) -> Result<Cursor, NoMemory>
        requires { slice_get self.old number ≡ Some side.now }
        ensures cursor { IfOk result (λ cursor. (cursor.side ≡ number) × (cursor.taken ≤ count) × (cursor.rows ≡ table_at side.now.commits cursor.taken)) }
        ensures same { self.new ≡ self.old }
    {
        match self.take_before(number, session, count) {
            Some(cursor) => Ok(cursor),
            None => Cursor::first(alloc, number, session, &side.commits),
        }
    }

    /// A cursor of a session of the side at a place, behind so many writes.
    fn cursor_at(
        &mut self,
        alloc: Global,
        number: usize,
        side: &Side,
        session: Session,
        count: usize,
    ) -> Result<Cursor, NoMemory>
        requires { slice_get self.old number ≡ Some side.now }
        ensures cursor { IfOk result (λ cursor. (cursor.side ≡ number) × (cursor.taken ≡ count) × (cursor.rows ≡ table_at side.now.commits count)) }
        ensures same { self.new ≡ self.old }
    {
        let mut cursor = self.cursor_before(alloc, number, side, session, count)?;
        cursor.go_to(alloc, &side.commits, count)?;
        Ok(cursor)
    }

    /// The committed rows behind so many writes on the side at a place, where a number is given.
    fn rows_at(
        &mut self,
        alloc: Global,
        number: usize,
        side: &Side,
        session: Session,
        count: Option<usize>,
    ) -> Result<Vec<(RowName, Value)>, NoMemory>
        requires { slice_get self.old number ≡ Some side.now }
        ensures rows { IfOk result (λ rows. rows.items ≡ rows_at side.now.commits count) }
        ensures same { self.new ≡ self.old }
    {
        let Some(count) = count else {
            return Ok(Vec::new(alloc));
        };
        let cursor = self.cursor_at(alloc, number, side, session, count)?;
        let rows = Vec::from_slice(alloc, cursor.rows.entries())?;
        self.cursors.push(cursor)?;
        Ok(rows)
    }

    /// The committed rows behind the line at a place of the script, which is a session's, on the side at another place.
    fn rows_behind(
        &mut self,
        alloc: Global,
        number: usize,
        side: &Side,
        session: Session,
        place: usize,
    ) -> Result<Vec<(RowName, Value)>, NoMemory>
        requires { slice_get self.old number ≡ Some side.now }
        ensures rows { IfOk result (λ rows. rows.items ≡ rows_behind place side.now) }
        ensures same { self.new ≡ self.old }
    {
        let count = installed_at(&side.commits, side.summary.cells.as_slice().get(place));
        self.rows_at(alloc, number, side, session, count)
    }

    /// What each engine tells of the committed rows behind the line at a place, which is a session's.
    pub fn rows_told(
        &mut self,
        alloc: Global,
        session: Session,
        place: usize,
    ) -> Result<Vec<Telling<'s>>, NoMemory>
        ensures told { IfOk result (λ told. told.items ≡ map (rows_told place) self.old) }
        ensures same { self.new ≡ self.old }
    {
        let sides = self.sides;
        let mut told = Vec::with_capacity(alloc, sides.len())?;
        for (number, side) in sides.iter().enumerate() {
            let rows = self.rows_behind(alloc, number, side, session, place)?;
            told.push(Telling {
                level: side.level,
                content: Content::Rows(Sequence::new(rows)),
            })?;
        }
        Ok(told)
    }
}
