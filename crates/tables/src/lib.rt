// Six lent columns as one value (01, "Numbers and tables"), for those who read them: how many rows and terms they have
// room for, and the entry of a row. specs/Lent.antt says which table they hold. Assumes nothing.
#![tactic(auto)]

ghost use Rattle.std.specs.Prelude.{◌≡◌, slice_get};
ghost use Rattle.definitions.specs.Table.{entries, row_room, term_room};
ghost use Rattle.tables.specs.Lent.{table_of};

use definitions::Entry;

// A table that is lent to be read.
#[derive(Clone, Copy)]
pub struct Table<'a> {
    pub kinds: &'a [u8],
    pub firsts: &'a [usize],
    pub counts: &'a [usize],
    pub bounds: &'a [i64],
    pub weights: &'a [i64],
    pub literals: &'a [u32],
}

impl<'a> Table<'a> {
    // "Columns of unequal length have the room of the shortest."
    pub fn row_room(self) -> usize
        ensures { result ≡ row_room (table_of self.entry) }
    {
        columns::row_room(self.kinds, self.firsts, self.counts, self.bounds)
    }

    pub fn term_room(self) -> usize
        ensures { result ≡ term_room (table_of self.entry) }
    {
        columns::term_room(self.weights, self.literals)
    }

    // The entry of a row, rows counted from 0; none behind the last.
    pub fn entry(self, row: usize) -> Option<Entry>
        ensures { result ≡ slice_get (entries (table_of self.entry)) row }
    {
        if row >= self.row_room() {
            return None;
        }
        let bound = self.bounds[row];
        Some(Entry {
            kind: self.kinds[row],
            first: self.firsts[row],
            count: self.counts[row],
            bound,
        })
    }
}
