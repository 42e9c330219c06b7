//! What is known of the numbers of rows.
use crate::cells::{count_at, number_at};
use points::Name;
use sqlite::Row;
use std::alloc::Global;
use std::collections::HashMap;
use std::hash::Hash;

/// The numbers of rows that were read or added before, by their keys. A row is found faster by its number than by its
/// key. Each is a guess, since what was read may have gone and what was added may have been undone: a statement that
/// takes one takes the key too, and one that takes a range of them comes behind a look at the keys of its rows. Where
/// memory is refused less is known.
#[derive(Drop)]
pub struct RowNumbers {
    pub(crate) nexts: HashMap<Name, i64>,
    pub(crate) places: HashMap<(Name, u8), i64>,
    pub(crate) shown: HashMap<Name, i64>,
}

/// Notes the number of the row of a key.
pub(crate) fn note<K: Eq + Hash + Drop>(numbers: &mut HashMap<K, i64>, key: K, row: i64) {
    let _noted = numbers.insert(key, row);
}

// Notes the number of the row of a name, of an answer that has it in its second cell.
fn note_of(numbers: &mut HashMap<Name, i64>, name: &Name, rows: &[Row]) {
    let Some(row) = rows.first() else {
        return;
    };
    if let Ok(number) = number_at(row, 1) {
        note(numbers, *name, number);
    }
}

impl RowNumbers {
    /// Nothing is known of any row.
    pub fn new(alloc: Global) -> Self {
        RowNumbers {
            nexts: HashMap::new(alloc),
            places: HashMap::new(alloc),
            shown: HashMap::new(alloc),
        }
    }

    /// Notes what an answer of `panels::find` tells.
    pub fn note_next(&mut self, panel: &Name, rows: &[Row]) {
        note_of(&mut self.nexts, panel, rows);
    }

    /// Notes what an answer of `places::of_point` tells.
    pub fn note_places(&mut self, point: &Name, rows: &[Row]) {
        for row in rows {
            self.note_place(point, row);
        }
    }

    fn note_place(&mut self, point: &Name, row: &Row) {
        let Ok(priority) = count_at(row, 0, 1, 16) else {
            return;
        };
        if let Ok(number) = number_at(row, 2) {
            note(&mut self.places, (*point, priority as u8), number);
        }
    }

    /// Notes what an answer of `schedules::find` tells.
    pub fn note_shown(&mut self, schedule: &Name, rows: &[Row]) {
        note_of(&mut self.shown, schedule, rows);
    }
}
