//! What needn't be judged.
//!
//! A goal that is a cycle needs a sound history and a cycle of dependencies; a cycle of starts and commits goes along one,
//! too. So most blocks can be told to be needed without a judgement: what is left without them isn't sound, or no
//! dependencies can lead back there. Each dependency at a row leads forward along the row's versions, from those who wrote
//! or saw an earlier one to those who wrote or saw a later one, so the arrows that are looked at here are at least those of
//! what is left. Nothing is promised: a block that is let through is judged.

use crate::block::{Block, Sort};
use crate::gathering::{Touches, touches_of};
use crate::goal::Goal;
use crate::touch::Touch;
use crate::ways_round::{Arrow, lead_back};
use lab_history::History;
use lab_table::NoMemory;
use std::alloc::Global;

/// How often a judgement of what is left has to fail before a sieve is made.
const PATIENCE: u32 = 4;

/// What is known of the history that is made smaller.
#[derive(Drop)]
pub struct Sieve {
    is_used: bool,
    failed: u32,
    touches: Option<Touches>,
}

/// The arrows of what is left at one row, so far.
#[derive(Drop)]
struct RowArrows {
    /// The first writer and the last one.
    first: Option<usize>,
    last: Option<usize>,
    /// Who saw the last one's version.
    readers: Vec<usize>,
    /// Who sees the row as it was at first, because what it saw is gone.
    moved: Vec<usize>,
}

/// Adds an arrow from one transaction to another.
fn push_arrow(arrows: &mut Vec<Arrow>, from: usize, to: usize) -> Result<(), NoMemory> {
    if from != to {
        arrows.push(Arrow { from, to })?;
    }
    Ok(())
}

impl RowArrows {
    fn none(alloc: Global) -> RowArrows {
        RowArrows {
            first: None,
            last: None,
            readers: Vec::new(alloc),
            moved: Vec::new(alloc),
        }
    }

    /// Adds a writer of the next version.
    fn add_writer(&mut self, arrows: &mut Vec<Arrow>, writer: usize) -> Result<(), NoMemory> {
        if self.first.is_none() {
            self.first = Some(writer);
        }
        if let Some(last) = self.last {
            push_arrow(arrows, last, writer)?;
        }
        for reader in self.readers.iter() {
            push_arrow(arrows, *reader, writer)?;
        }
        self.last = Some(writer);
        self.readers.clear();
        Ok(())
    }

    /// Adds a reader of the last version.
    fn add_reader(&mut self, arrows: &mut Vec<Arrow>, reader: usize) -> Result<(), NoMemory> {
        if let Some(last) = self.last {
            push_arrow(arrows, last, reader)?;
        }
        self.readers.push(reader)?;
        Ok(())
    }

    /// Adds the arrows of those who see the row as it was at first.
    fn end(&self, arrows: &mut Vec<Arrow>) -> Result<(), NoMemory> {
        if let Some(first) = self.first {
            for reader in self.moved.iter() {
                push_arrow(arrows, *reader, first)?;
            }
        }
        Ok(())
    }
}

/// Whether the first writer of a row stays.
fn first_stays(touches: &[Touch], block: Block) -> bool {
    for touch in touches {
        if !touch.touched.is_seen && touch.touched.version == 1 && !touch.is_gone(block) {
            return true;
        }
    }
    false
}

/// Adds the arrows of what is left at one row; false where that certainly isn't sound.
fn push_row(
    alloc: Global,
    arrows: &mut Vec<Arrow>,
    touches: &[Touch],
    block: Block,
) -> Result<bool, NoMemory> {
    let is_first_there = first_stays(touches, block);
    let mut row = RowArrows::none(alloc);
    for touch in touches {
        if touch.is_gone(block) {
            continue;
        }
        if !touch.touched.is_seen {
            row.add_writer(arrows, touch.txn)?;
        } else if touch.is_moved(block) {
            if is_first_there && !touch.fits_initial {
                return Ok(false);
            }
            row.moved.push(touch.txn)?;
        } else if !touch.is_own {
            row.add_reader(arrows, touch.txn)?;
        }
    }
    row.end(arrows)?;
    Ok(true)
}

/// Whether a block has a row that an insert adds, or an entry that is needed.
fn is_needed(found: &Touches, block: Block) -> bool {
    match block.sort {
        Sort::Transactions | Sort::Operations => false,
        Sort::Rows => found.inserted.iter().any(|row| block.has(*row)),
        Sort::Entries => {
            let behind = found.needed.iter().skip(block.from);
            behind
                .take(block.to.saturating_sub(block.from))
                .any(|needed| *needed)
        }
    }
}

/// Whether what is left without a block may be sound and have a cycle.
fn may_show(alloc: Global, found: &Touches, block: Block) -> Result<bool, NoMemory> {
    if is_needed(found, block) {
        return Ok(false);
    }
    let mut arrows = Vec::new(alloc);
    let mut left = found.touches.as_slice();
    for _ in 0..found.touches.len() {
        let Some(first) = left.first() else {
            break;
        };
        let row = first.touched.row;
        let (of_row, others) = left.split_at(left.partition_point(|touch| touch.touched.row
            <= row));
        if !push_row(alloc, &mut arrows, of_row, block)? {
            return Ok(false);
        }
        left = others;
    }
    lead_back(alloc, found.txns, &arrows)
}

impl Sieve {
    /// A sieve that lets all through, and may come to know more where a goal wants a cycle of a sound history.
    pub fn of(goal: Goal) -> Sieve {
        let is_used = match goal {
            Goal::NoOrder | Goal::NoTimestamps => true,
            Goal::Fault(_) => false,
            Goal::Present { in_sound, .. } => in_sound,
        };
        Sieve {
            is_used,
            failed: 0,
            touches: None,
        }
    }

    /// Forgets what it knows, as the history is another one.
    pub fn forget(&mut self) {
        self.failed = 0;
        self.touches = None;
    }

    /// Learns that a judgement of what is left of a history failed.
    pub fn learn(&mut self, alloc: Global, history: &History) -> Result<(), NoMemory> {
        self.failed = self.failed.saturating_add(1);
        if self.is_used && self.failed == PATIENCE {
            self.touches = touches_of(alloc, history)?;
        }
        Ok(())
    }

    /// How much it looks at for one block.
    pub fn cost(&self) -> usize {
        match &self.touches {
            Some(found) => found.touches.len(),
            None => 0,
        }
    }

    /// Whether what is left without a block may show the goal.
    pub fn lets_through(&self, alloc: Global, block: Block) -> Result<bool, NoMemory> {
        match &self.touches {
            Some(found) => may_show(alloc, found, block),
            None => Ok(true),
        }
    }
}
