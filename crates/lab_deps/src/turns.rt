//! The versions at which a row turns from one of two classes to the other.

ghost use Rattle.std.specs.Prelude.{◌≡◌, ◌<◌, ◌≤◌, ◌+◌, ◌*◌, ℕ, false, cond, length, get_or, set, bit_or, IfOk, IfSome};
ghost use Rattle.std.specs.List.{list_any};
ghost use Rattle.lab_deps.specs.Marks.{marked, all_marked, turns_marked, Reaches};
ghost use Rattle.lab_deps.specs.Turns.{classes_of, AreInstallers, AreMarks, AreTurns};

use crate::reading::differ;
use crate::versions::Version;
use lab_table::NoMemory;
use std::alloc::Global;

/// The versions of another class than the one before.
#[derive(Drop)]
pub struct Turns {
    /// For each version the place of its installer among the transactions, or 0 where it is of the class before; for none,
    /// where all are of one class.
    pub installers: Vec<u16>,
    /// The greatest of these places.
    pub most: u16,
    /// Where there are many, for each place up to that 16 where it is among them, else 0.
    pub marks: Option<Vec<u8>>,
}

impl Turns {
    /// Where versions with these numbers turn, by an answer for each; it is false for other numbers and for the state before
    /// them. NoMemory where an allocation was refused.
    pub fn of(
        alloc: Global,
        versions: &[Version],
        numbers: &[usize],
        answers: &[bool],
    ) -> Result<Turns, NoMemory>
        requires { length numbers.now ≡ length versions.now }
        ensures { IfOk result (AreTurns false (classes_of answers.now numbers.now) versions.now) }
    {
        let installers = turned(alloc, versions, numbers, answers)?;
        let most = greatest(&installers);
        let marks = marks_of(alloc, &installers, most)?;
        Ok(Turns {
            installers,
            most,
            marks,
        })
    }

    /// Sets the bits between a reader of the version at a place, counted from 0, and the installers: of a predicate-read
    /// where these are before the place, of an anti-dependency behind it. The cells are of rows so wide.
    pub fn mark(&self, cells: &mut [u8], width: u16, reader: u16, place: usize)
        requires reach { Reaches width cells.old reader self.now.most }
        requires most { (k : ℕ) → get_or self.now.installers.items k 0 ≤ self.now.most }
        requires marks { IfSome self.now.marks (λ row. AreMarks self.now.installers.items self.now.most row.items) }
        ensures { cells.new ≡ turns_marked width reader place self.now.installers.items cells.old }
    {
        match self.marks_for(place) {
            None => mark_beside(cells, width, reader, place, &self.installers),
            Some(marks) => mark_all(cells, reader as u32 * width as u32, marks),
        }
    }

    /// The marks, where a reader sees the version at place 0, the one that the row has at first.
    fn marks_for(&self, place: usize) -> Option<&[u8]>
        ensures { IfSome self.now.marks (λ row. AreMarks self.now.installers.items self.now.most row.items)
            → IfSome result (λ row. (place ≡ 0) × AreMarks self.now.installers.items self.now.most row.now) }
    {
        match &self.marks {
            None => None,
            Some(marks) => {
                if place == 0 {
                    Some(marks.as_slice())
                } else {
                    None
                }
            }
        }
    }
}

/// For each version the place of its installer, or 0 where it is of the class before; none where all are of the class
/// false. NoMemory where an allocation was refused.
fn turned(
    alloc: Global,
    versions: &[Version],
    numbers: &[usize],
    answers: &[bool],
) -> Result<Vec<u16>, NoMemory>
    requires { length numbers.now ≡ length versions.now }
    ensures { IfOk result (λ found. AreInstallers false (classes_of answers.now numbers.now) versions.now found.items) }
{
    if !has_any(answers) {
        return Ok(Vec::new(alloc));
    }
    let mut found = Vec::with_capacity(alloc, versions.len())?;
    let mut before = false;
    for (place, version) in versions.iter().enumerate() {
        let after = answer_at(answers, numbers[place]);
        found.push(installer_if(version, differ(before, after)))?;
        before = after;
    }
    Ok(found)
}

/// Whether one of these is true.
fn has_any(answers: &[bool]) -> bool
    ensures { result ≡ list_any (λ answer. answer) answers.now }
{
    answers.iter().any(|answer| *answer)
}

fn answer_at(answers: &[bool], number: usize) -> bool
    ensures { result ≡ get_or answers.now number false }
{
    answers.get(number).copied().unwrap_or(false)
}

/// The place of a version's installer, or 0 where it doesn't turn.
pub fn installer_if(version: &Version, turns: bool) -> u16
    ensures { result ≡ cond turns version.now.place 0 }
{
    if turns { version.place } else { 0 }
}

/// The greatest of some numbers, 0 of none.
pub fn greatest(numbers: &[u16]) -> u16
    ensures { (k : ℕ) → get_or numbers.now k 0 ≤ result }
{
    let mut most = 0;
    for number in numbers {
        if *number > most {
            most = *number;
        }
    }
    most
}

/// For each place up to the greatest one 16 where it is among these; None where they are few. NoMemory where an
/// allocation was refused.
fn marks_of(alloc: Global, installers: &[u16], most: u16) -> Result<Option<Vec<u8>>, NoMemory>
    requires { (k : ℕ) → get_or installers.now k 0 ≤ most }
    ensures { IfOk result (λ marks. IfSome marks (λ row. AreMarks installers.now most row.items)) }
{
    if are_few(installers, most) {
        return Ok(None);
    }
    let mut marks = vec![in alloc; 0; most as usize + 1]?;
    mark_each(&mut marks, 0, 1, installers, 16);
    Ok(Some(marks))
}

/// Whether it costs less to mark these one by one than all places up to the greatest one at once.
fn are_few(installers: &[u16], most: u16) -> bool {
    installers.len() <= most as usize / 8
}

/// Sets the bits between a reader and installers one by one.
pub fn mark_beside(cells: &mut [u8], width: u16, reader: u16, place: usize, installers: &[u16])
    requires row { (k : ℕ) → reader * width + get_or installers.now k 0 * 1 < length cells.old }
    requires column { (k : ℕ) → reader + get_or installers.now k 0 * width < length cells.old }
    ensures { cells.new ≡ turns_marked width reader place installers.now cells.old }
{
    let (ahead, behind) = installers.split_at(place.min(installers.len()));
    mark_each(cells, reader as u32, width, ahead, 4);
    mark_each(cells, reader as u32 * width as u32, 1, behind, 16);
}

/// Sets bits in the cells that stand so many steps behind a first one as these numbers say.
#[inline(always)]
fn mark_each(cells: &mut [u8], first: u32, step: u16, numbers: &[u16], bits: u8)
    requires { (k : ℕ) → first + get_or numbers.now k 0 * step < length cells.old }
    ensures { cells.new ≡ marked first step bits numbers.now cells.old }
{
    for number in numbers {
        mark_at(
            cells,
            first as usize + *number as usize * step as usize,
            bits,
        );
    }
}

/// Sets the bits of marks in as many cells from a first one on.
#[inline(always)]
fn mark_all(cells: &mut [u8], first: u32, marks: &[u8])
    requires { first + length marks.now ≤ length cells.old }
    ensures { cells.new ≡ all_marked first marks.now cells.old }
{
    for (index, bits) in marks.iter().enumerate() {
        mark_at(cells, first as usize + index, *bits);
    }
}

#[inline(always)]
fn mark_at(cells: &mut [u8], at: usize, bits: u8)
    requires { at < length cells.old }
    ensures { cells.new ≡ set cells.old at (bit_or (get_or cells.old at 0) bits) }
{
    cells[at] |= bits;
}
