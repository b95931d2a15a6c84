// Groupings of one column.
use crate::cases::Case;
use crate::plans::{Aggregate, Plan};
use crate::store::{Store, one_column};
use std::io;

// Every aggregate without a weight, over all rows of a column.
fn aggregates_of(cells: &[Option<i64>]) -> Case {
    let plan = Plan::new()
        .table(0, 1)
        .group(0, 7)
        .aggregate(Aggregate::Rows)
        .aggregate(Aggregate::Count(0))
        .aggregate(Aggregate::Sum(0))
        .aggregate(Aggregate::Least(0))
        .aggregate(Aggregate::Greatest(0))
        .aggregate(Aggregate::DistinctSum(0))
        .aggregate(Aggregate::DistinctCount(0));
    Case::new(plan, Store::column(cells), 2, 7, 4)
}

// The rows of each value.
fn rows_by_value(cells: &[Option<i64>]) -> Case {
    let plan = Plan::new()
        .table(0, 1)
        .group(1, 1)
        .column(0)
        .aggregate(Aggregate::Rows);
    Case::new(plan, Store::column(cells), 2, 2, 5)
}

// The sum of as many cells as a column may have.
fn longest_sum(cell: i64) -> Case {
    let plan = Plan::new()
        .table(0, 1)
        .group(0, 1)
        .aggregate(Aggregate::Sum(0));
    Case::new(plan, Store::all(one_column(1024), cell), 2, 1, 1024)
}

pub(crate) fn grouping_cases(rt: &impl Print) -> io::Result<()> {
    let values = [Some(3), Some(-1), None, Some(3)];
    aggregates_of(&values).run(rt, "aggregates of 3, -1, null and 3")?;
    aggregates_of(&[None, None]).run(rt, "aggregates of two nulls")?;
    aggregates_of(&[]).run(rt, "aggregates of no rows")?;
    let mixed = [Some(5), None, Some(-5), None, Some(5)];
    rows_by_value(&mixed).run(rt, "rows by value of 5, null, -5, null and 5")?;
    longest_sum(2147483647).run(rt, "sum of 1,024 cells of 2,147,483,647")?;
    longest_sum(-2147483647).run(rt, "sum of 1,024 cells of -2,147,483,647")?;
    Ok(())
}
