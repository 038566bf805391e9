//! Which kinds of dependencies there are between the committed transactions of a history.

ghost use Rattle.std.specs.Prelude.{◌≡◌, ◌≤◌, ◌+◌, ◌*◌, ◌++◌, ◌∷◌, [], ℕ, true, List, drop, get_or, length, set, bit_or, IfOk, IfSome};
ghost use Rattle.std.specs.List.Sorted.{IsStrictlyIncreasing};
ghost use Rattle.lab_history.specs.History.{History as Recorded};
ghost use Rattle.lab_history.specs.Limits.{max_transactions};
ghost use Rattle.lab_deps.specs.KindBits.{bit, has_bit, place, bits_at, Tells};
ghost use Rattle.lab_deps.specs.Marks.{Reaches, turns_marked};
ghost use Rattle.lab_deps.specs.Numbering.{AreNodes, HasPlaces, IsNumbering};
ghost use Rattle.lab_deps.specs.Turns.{AreMarks};
ghost use Rattle.lab_deps.specs.declared.edge.Edge.{Edge as Spelled};

use crate::edge::{Edge, Kind};
use crate::nodes::{place_in, places_of};
use crate::turns::{Turns, mark_beside};
use lab_table::{NoMemory, TxnNo};
use std::alloc::Global;

/// Which kinds of dependencies there are between each two transactions.
#[derive(Drop)]
pub struct Arrows {
    /// The place of each transaction by its number, counted from 1; 0 where it isn't among them.
    places: Vec<u16>,
    /// One more than there are places.
    width: u16,
    /// For each two places the bits of the kinds, one row of cells after another. Those of a place and itself, and those of
    /// place 0, say nothing.
    cells: Vec<u8>,
}

impl Arrows {
    /// No dependencies between transactions with these numbers. NoMemory where an allocation was refused.
    pub fn none(alloc: Global, numbers: &[TxnNo]) -> Result<Arrows, NoMemory>
        requires few { length numbers.now ≤ max_transactions }
        requires rising { IsStrictlyIncreasing numbers.now }
        ensures told { IfOk result (λ arrows. Tells arrows.places.items arrows.width arrows.cells.items arrows.places.items []) }
        ensures numbered { IfOk result (λ arrows. IsNumbering numbers.now arrows.places.items) }
        ensures places { IfOk result (λ arrows. (h : Recorded) → AreNodes h numbers.now → HasPlaces h arrows.places.items) }
    {
        let places = places_of(alloc, numbers)?;
        let width = numbers.len() as u16 + 1;
        let cells = vec![in alloc; 0; width as usize * width as usize]?;
        Ok(Arrows {
            places,
            width,
            cells,
        })
    }

    /// The bits of the kinds from one place to another.
    pub fn bits_at(&self, from: u16, to: u16) -> u8
        ensures { result ≡ bits_at self.now.width self.now.cells.items from to }
    {
        if from == to {
            0
        } else if from == 0 {
            0
        } else if to == 0 {
            0
        } else {
            self.cell(self.at(from, to))
        }
    }

    /// The cells from a place to the others.
    pub fn row(&self, from: u16) -> &[u8]
        ensures { result.now ≡ drop (from * self.now.width + 1) self.now.cells.items }
    {
        self.cells.get(self.at(from, 1)..).unwrap_or(&[])
    }

    /// The place of each transaction by its number.
    pub fn places(&self) -> &[u16]
        ensures { result.now ≡ self.now.places.items }
    {
        &self.places
    }

    /// The place of a transaction, counted from 1; 0 where it isn't among them.
    pub fn place(&self, number: TxnNo) -> u16
        ensures { result ≡ place self.now.places.items number }
    {
        place_in(&self.places, number)
    }

    /// Where the cell of two places stands.
    fn at(&self, from: u16, to: u16) -> usize
        ensures { result ≡ from * self.now.width + to }
    {
        from as usize * self.width as usize + to as usize
    }

    fn cell(&self, at: usize) -> u8
        ensures { result ≡ get_or self.now.cells.items at 0 }
    {
        self.cells.get(at).copied().unwrap_or(0)
    }

    /// Whether there are cells between a place and all up to another one.
    pub fn reaches(&self, place: u16, most: u16) -> bool
        ensures { result ≡ true → Reaches self.now.width self.now.cells.items place most }
    {
        let width = self.width as usize;
        place < self.width && (most < self.width && self.cells.len() == width * width)
    }

    /// Sets the bits between a reader of the version at a place of a row and the installers of those at which it turns.
    pub fn mark_turns(&mut self, turns: &Turns, reader: u16, place: usize)
        requires reach { Reaches self.old.width self.old.cells.items reader turns.now.most }
        requires most { (k : ℕ) → get_or turns.now.installers.items k 0 ≤ turns.now.most }
        requires marks { IfSome turns.now.marks (λ row. AreMarks turns.now.installers.items turns.now.most row.items) }
        ensures places { self.new.places.items ≡ self.old.places.items }
        ensures width { self.new.width ≡ self.old.width }
        ensures cells { self.new.cells.items ≡ turns_marked self.old.width reader place turns.now.installers.items self.old.cells.items }
    {
        let width = self.width;
        turns.mark(&mut self.cells, width, reader, place);
    }

    /// The same, with these installers, none of which has a greater place than is said.
    pub fn mark_installers(&mut self, installers: &[u16], most: u16, reader: u16, place: usize)
        requires reach { Reaches self.old.width self.old.cells.items reader most }
        requires most { (k : ℕ) → get_or installers.now k 0 ≤ most }
        ensures places { self.new.places.items ≡ self.old.places.items }
        ensures width { self.new.width ≡ self.old.width }
        ensures cells { self.new.cells.items ≡ turns_marked self.old.width reader place installers.now self.old.cells.items }
    {
        let width = self.width;
        mark_beside(&mut self.cells, width, reader, place, installers);
    }

    /// Sets an edge's bit.
    pub fn mark_edge(&mut self, edge: Edge)
        ensures places { self.new.places.items ≡ self.old.places.items }
        ensures width { self.new.width ≡ self.old.width }
        ensures told { (made : List ℕ) (es : List Spelled) → Tells self.old.places.items self.old.width self.old.cells.items made es
            → Tells self.old.places.items self.old.width self.new.cells.items made (es ++ edge ∷ []) }
    {
        let at = self.at(self.place(edge.from), self.place(edge.to));
        self.mark(at, edge.kind);
    }

    /// Sets the bit of a kind in a cell.
    fn mark(&mut self, at: usize, kind: Kind)
        ensures places { self.new.places.items ≡ self.old.places.items }
        ensures width { self.new.width ≡ self.old.width }
        ensures cells { self.new.cells.items ≡ set self.old.cells.items at (bit_or (get_or self.old.cells.items at 0) (bit kind)) }
    {
        if at < self.cells.len() {
            self.cells[at] |= bit(kind);
        }
    }
}

/// The bit of a kind.
pub fn bit(kind: Kind) -> u8
    ensures { result ≡ bit kind }
{
    match kind {
        Kind::Write => 1,
        Kind::ItemRead => 2,
        Kind::PredicateRead => 4,
        Kind::ItemAnti => 8,
        Kind::PredicateAnti => 16,
    }
}

/// Whether a cell has the bit of a kind.
pub fn has_bit(cell: u8, kind: Kind) -> bool
    ensures { result ≡ has_bit cell kind }
{
    cell & bit(kind) == bit(kind)
}
