// A case: what is lent to a run, and the run of it with its line.
ghost use Rattle.std.specs.Prelude.{◌<◌};
ghost use Rattle.run_cases.specs.declared.plans.TheConstants.{MOST_BYTES};
ghost use Rattle.run_cases.specs.declared.store.TheConstants.{MOST_CELLS, NUMBERS};

use crate::lines::{Area, FILL, FILL_MARK, say_line};
use crate::plans::Plan;
use crate::store::Store;
use std::io;

// The largest areas of a case: one node of 4,097 rows to work in, and as many rows of one column.
const MOST_WORK: usize = 65552;

const MOST_RESULT: usize = 4097;

// What is lent, how much room a run has, and the width of the result.
#[derive(Drop)]
pub struct Case {
    plan: Plan,
    store: Store,
    limit: usize,
    work: usize,
    work_marks: usize,
    result: usize,
    result_marks: usize,
    width: usize,
}

impl Case {
    // A plan of so many nodes and a root of a width, over what is stored, in just the room that it needs.
    pub(crate) fn new(plan: Plan, store: Store, nodes: usize, width: usize, limit: usize) -> Case {
        let work = limit.saturating_mul(16).saturating_mul(nodes);
        let result = limit.saturating_mul(width);
        Case {
            plan,
            store,
            limit,
            work,
            work_marks: work,
            result,
            result_marks: result,
            width,
        }
    }

    // Another row limit.
    pub(crate) fn limit(self, limit: usize) -> Case {
        Case { limit, ..self }
    }

    // Another count of what is lent: of the plan's bytes, of the numbers in the list of tables, of the cells and of the marks.
    pub(crate) fn lend_plan(mut self, n: usize) -> Case {
        self.plan.bytes.lend(n);
        self
    }

    pub(crate) fn lend_tables(mut self, n: usize) -> Case {
        self.store.tables.lend(n);
        self
    }

    pub(crate) fn lend_cells(mut self, n: usize) -> Case {
        self.store.cells.lend(n);
        self
    }

    pub(crate) fn lend_marks(mut self, n: usize) -> Case {
        self.store.marks.lend(n);
        self
    }

    // Another length of an area.
    pub(crate) fn lend_work(self, work: usize) -> Case {
        Case { work, ..self }
    }

    pub(crate) fn lend_work_marks(self, work_marks: usize) -> Case {
        Case { work_marks, ..self }
    }

    pub(crate) fn lend_result(self, n: usize) -> Case {
        Case { result: n, ..self }
    }

    pub(crate) fn lend_result_marks(self, result_marks: usize) -> Case {
        Case {
            result_marks,
            ..self
        }
    }

    // Another byte in the plan.
    pub(crate) fn byte(mut self, place: usize, byte: u8) -> Case
        requires { place < MOST_BYTES }
    {
        self.plan.bytes.set(place, byte);
        self
    }

    // Another number in the list of tables.
    pub(crate) fn table(mut self, place: usize, number: usize) -> Case
        requires { place < NUMBERS }
    {
        self.store.tables.set(place, number);
        self
    }

    // Another cell and mark in the lent run.
    pub(crate) fn cell(mut self, place: usize, cell: i64, mark: u8) -> Case
        requires { place < MOST_CELLS }
    {
        self.store.cells.set(place, cell);
        self.store.marks.set(place, mark);
        self
    }

    // Runs the plan in areas that are filled, and says what came back and what they hold then.
    // By value: a case that is only lent keeps its place on the stack beside the next ones.
    pub(crate) fn run(self, rt: &impl Print, label: &str) -> io::Result<()> {
        let mut work = [FILL; MOST_WORK];
        let mut work_marks = [FILL_MARK; MOST_WORK];
        let mut res = [FILL; MOST_RESULT];
        let mut result_marks = [FILL_MARK; MOST_RESULT];
        // with the 0: the check does not find the bounds of `..n` where an array is lent as `&mut`
        let work = &mut work[0..self.work.min(MOST_WORK)];
        let work_marks = &mut work_marks[0..self.work_marks.min(MOST_WORK)];
        let res = &mut res[0..self.result.min(MOST_RESULT)];
        let result_marks = &mut result_marks[0..self.result_marks.min(MOST_RESULT)];
        let outcome = runs::run(
            self.plan.bytes.as_slice(),
            self.store.lent(),
            self.limit,
            work,
            work_marks,
            res,
            result_marks,
        );
        let worked = Area {
            cells: work,
            marks: work_marks,
        };
        let answered = Area {
            cells: res,
            marks: result_marks,
        };
        say_line(rt, label, outcome, worked, answered, self.width)
    }
}
