// What is lent to a run, put together cell behind cell.
use crate::front::Front;
use tables::Lent;

// How many numbers the list of tables has: three a table, its width, its rows and its start. No struct a table, since cases
// lend the list as far as the middle of a table.
pub(crate) const NUMBERS: usize = 9;

// A column of one row more than a table may have.
pub(crate) const MOST_CELLS: usize = 1025;

// The list of tables, and the run of cells with a mark a cell.
#[derive(Drop)]
pub struct Store {
    pub tables: Front<usize, NUMBERS>,
    pub cells: Front<i64, MOST_CELLS>,
    pub marks: Front<u8, MOST_CELLS>,
}

// The list of tables with one of one column, from the first cell on.
pub(crate) fn one_column(rows: usize) -> [usize; NUMBERS] {
    [1, rows, 0, 0, 0, 0, 0, 0, 0]
}

impl Store {
    // The list of tables, and no cells so far.
    pub(crate) fn new(tables: [usize; NUMBERS]) -> Store {
        Store {
            tables: Front::all(tables),
            cells: Front::new(0),
            marks: Front::new(0),
        }
    }

    // The list of tables, and as many cells as there is room for, all the same.
    pub(crate) fn all(tables: [usize; NUMBERS], cell: i64) -> Store {
        Store {
            tables: Front::all(tables),
            cells: Front::all([cell; MOST_CELLS]),
            marks: Front::all([0; MOST_CELLS]),
        }
    }

    // A table of one column with these cells, none for null.
    pub(crate) fn column(cells: &[Option<i64>]) -> Store {
        let store = Store::new(one_column(cells.len()));
        cells.iter().fold(store, |store, cell| match cell {
            Some(number) => store.number(*number),
            None => store.null(),
        })
    }

    // A cell and its mark more, while there is room. The mark is a number, since cases lend marks that are none.
    pub(crate) fn cell(mut self, cell: i64, mark: u8) -> Store {
        self.cells.push(cell);
        self.marks.push(mark);
        self
    }

    pub(crate) fn number(self, cell: i64) -> Store {
        self.cell(cell, 0)
    }

    pub(crate) fn null(self) -> Store {
        self.cell(0, 1)
    }

    // The three cells of a use or a release.
    pub(crate) fn row(self, first: i64, second: i64, third: i64) -> Store {
        self.number(first).number(second).number(third)
    }

    pub(crate) fn lent(&self) -> Lent<'_> {
        Lent {
            tables: self.tables.as_slice(),
            cells: self.cells.as_slice(),
            marks: self.marks.as_slice(),
        }
    }
}
