//! What is known of a history while its touches are gathered.

use crate::named::named_rows;
use crate::standing::Standings;
use crate::states::RowStates;
use lab_history::{History, Op};
use lab_table::{NoMemory, RowName};
use std::alloc::Global;

/// What is known of a history while its touches are gathered.
#[derive(Drop)]
pub struct Known {
    rows: Vec<RowStates>,
    /// The places of rows that have several states.
    pub changing: Vec<usize>,
    pub standings: Standings,
}

impl Known {
    /// What is known of a history.
    pub fn of(alloc: Global, history: &History) -> Result<Known, NoMemory> {
        let named = named_rows(alloc, history)?;
        let mut rows = Vec::new(alloc);
        let mut changing = Vec::new(alloc);
        for (place, row) in named.iter().enumerate() {
            let states = RowStates::of(alloc, history, *row)?;
            if states.are_several() {
                changing.push(place)?;
            }
            rows.push(states)?;
        }
        Ok(Known {
            rows,
            changing,
            standings: Standings::of(alloc, history)?,
        })
    }

    /// The place of a row, if it is known.
    pub fn place_of(&self, row: RowName) -> Option<usize> {
        let place = self.rows.partition_point(|other| other.row < row);
        if self.rows.get(place)?.row == row {
            Some(place)
        } else {
            None
        }
    }

    /// The row at a place, if there is one.
    pub fn row_at(&self, place: usize) -> Option<RowName> {
        Some(self.rows.get(place)?.row)
    }

    /// Adds the places of the rows of entries.
    fn push_places<X>(
        &self,
        places: &mut Vec<usize>,
        entries: &[(RowName, X)],
    ) -> Result<(), NoMemory> {
        for (row, _) in entries {
            if let Some(place) = self.place_of(*row) {
                places.push(place)?;
            }
        }
        Ok(())
    }

    /// Adds the place of a row on whose version the matches of an operation's statement may depend.
    fn push_changing(
        &self,
        places: &mut Vec<usize>,
        op: &Op,
        place: usize,
    ) -> Result<(), NoMemory> {
        if let Some(row) = self.rows.get(place)
            && row.may_change(op)
        {
            places.push(place)?;
        }
        Ok(())
    }

    /// The places of the rows that an operation touched, each once.
    pub fn touched(&self, alloc: Global, op: &Op) -> Result<Vec<usize>, NoMemory> {
        let mut places = Vec::new(alloc);
        self.push_places(&mut places, op.view.entries())?;
        self.push_places(&mut places, op.rows.entries())?;
        self.push_places(&mut places, op.writes.entries())?;
        match op.statement.named_row() {
            Some(row) => {
                if let Some(place) = self.place_of(row) {
                    self.push_changing(&mut places, op, place)?;
                }
            }
            None => {
                for place in self.changing.iter() {
                    self.push_changing(&mut places, op, *place)?;
                }
            }
        }
        places.sort()?;
        places.dedup();
        Ok(places)
    }
}
