//! The table: records in the order in which they were added.
ghost use Rattle.std.specs.Prelude.{◌≡◌, ◌<◌, ◌≤◌, min, [], length, take, MatchOption, slice_set};
ghost use Rattle.std.specs.List.{HoldsAt};
ghost use Rattle.wesl_table.specs.Keys.{First};

use crate::fault::TableFault;
use crate::keyed::{Comparison, Keyed};

/// Records in the order in which they were added, in cells that the caller lends. Cells past the count are free, and
/// never read.
// Lent cells and a count, as nothing is allocated; and no model, since with one its caller does not learn what the cells hold
// once the table is gone.
#[derive(Drop)]
pub struct Table<'a, T> {
    cells: &'a mut [T],
    count: usize,
    ghost within: { count ≤ length cells.now },
}

impl<'a, T: Copy> Table<'a, T> {
    ghost use Rattle.wesl_table.specs.Tables.{records, room, SameCells, Pushed};

    /// A table without records over all of these cells.
    pub fn new(cells: &'a mut [T]) -> Table<'a, T>
        ensures empty { records result ≡ [] }
        ensures room { room result ≡ length cells.old }
        ensures cells { result.cells.ghost_name ≡ cells.entry.ghost_name }
    {
        Table { cells, count: 0 }
    }

    fn records(&self) -> &[T]
        ensures { result.now ≡ records self.now }
    {
        &self.cells[..self.count]
    }

    /// How many records it holds.
    pub fn len(&self) -> usize
        ensures { result ≡ length (records self.now) }
    {
        self.records().len()
    }

    /// The record at an index, counted from 0 in the order in which they were added.
    pub fn get(&self, i: usize) -> Option<T>
        ensures { MatchOption result (length (records self.now) ≤ i) (λ x. (i < length (records self.now)) × HoldsAt (λ y. y ≡ x) (records self.now) i) }
    {
        self.records().get(i).copied()
    }

    /// The record at the index of one that is there.
    pub fn at(&self, i: usize) -> T
        requires { i < length (records self.now) }
        ensures { HoldsAt (λ y. y ≡ result) (records self.now) i }
    {
        self.records()[i]
    }

    /// Adds a record at the end, where there is a cell for it.
    pub fn push(&mut self, record: T) -> Result<(), TableFault>
        ensures { Pushed «record» self.old self.new result }
    {
        if self.count >= self.cells.len() {
            return Err(TableFault::Full);
        }
        self.cells[self.count] = record;
        self.count += 1;
        Ok(())
    }

    /// Puts a record in the place of the one at an index, if there is one.
    pub fn replace(&mut self, i: usize, record: T)
        ensures after { records self.new ≡ slice_set (records self.old) i «record» }
        ensures same { SameCells self.old self.new }
    {
        if i < self.count {
            self.cells[i] = record;
        }
    }

    /// Keeps the first `len` records, or all where there are fewer.
    pub fn truncate(&mut self, len: usize)
        ensures after { records self.new ≡ take len (records self.old) }
        ensures same { SameCells self.old self.new }
    {
        self.count = self.count.min(len);
    }
}

impl<'a, T: Keyed + Copy> Table<'a, T> {
    ghost use Rattle.wesl_table.specs.Tables.{records};

    /// The index of the first record that has the key.
    pub fn find(&self, text: &[u8], sought: &[u8]) -> Option<usize>
        ensures { First (λ x. T.key x text.now ≡ sought.now) (records self.now) 0 (length (records self.now)) result }
    {
        self.find_within(0, self.len(), text, sought)
    }

    /// The index of the first record from `low` on and below `high` that has the key: one module's part of a table.
    pub fn find_within(&self, low: usize, high: usize, text: &[u8], sought: &[u8]) -> Option<usize>
        ensures { First (λ x. T.key x text.now ≡ sought.now) (records self.now) low (min high (length (records self.now))) result }
    {
        let high = high.min(self.len());
        let part = self.records().get(low..high)?;
        let i = part
            .iter()
            .position(|record| T::By::same_key(record.key_in(text), sought))?;
        Some(low + i)
    }
}
