// Tables and plans at the ends of the limits, over one column of ones.
use crate::cases::Case;
use crate::plans::{Aggregate, Join, Plan};
use crate::store::{Store, one_column};
use std::io;

// A plan of so many nodes and such a width over a table of one column and so many rows.
fn over_ones(plan: Plan, rows: usize, nodes: usize, width: usize, limit: usize) -> Case {
    Case::new(plan, Store::all(one_column(rows), 1), nodes, width, limit)
}

// The table itself.
fn ones(rows: usize, limit: usize) -> Case {
    over_ones(Plan::new().table(0, 1), rows, 1, 1, limit)
}

// The table's rows counted.
fn counted(rows: usize, limit: usize) -> Case {
    over_ones(
        Plan::new()
            .table(0, 1)
            .group(0, 1)
            .aggregate(Aggregate::Rows),
        rows,
        2,
        1,
        limit,
    )
}

pub(crate) fn row_cases(rt: &impl Print) -> io::Result<()> {
    ones(1024, 1024).run(rt, "a table of 1,024 rows")?;
    ones(1025, 1025).run(rt, "a table of 1,025 rows")?;
    ones(0, 1).run(rt, "a table of no rows")?;
    ones(1, 1).run(rt, "a table of 1 row with L 1")?;
    ones(1, 4096).run(rt, "a table of 1 row with L 4,096")?;
    ones(1, 4097).run(rt, "a table of 1 row with L 4,097")?;
    ones(8, 8).run(rt, "a table of 8 rows with L 8")?;
    ones(8, 7).run(rt, "a table of 8 rows with L 7")?;
    counted(8, 8).run(rt, "a table of 8 rows counted with L 8")?;
    counted(8, 7).run(rt, "a table of 8 rows counted with L 7")?;
    Ok(())
}

// The table below 12 groupings; without the last, 12 nodes in 47 bytes.
fn chain() -> Case {
    let plan = (0..12u8).fold(Plan::new().table(0, 1), |plan, _| {
        plan.group(1, 0).column(0)
    });
    over_ones(plan, 1, 13, 1, 1)
}

// The table, joined with the table until there are so many leaves.
fn leaves(n: u8) -> Plan {
    (1..n).fold(Plan::new().table(0, 1), |plan, _| {
        plan.table(0, 1).join(Join::Inner, 1, 0, 0).pair(0, 0)
    })
}

// The table joined with itself on a count of pairs, of which 5 are there; a plan of fewer is shorter.
fn paired(pairs: u8) -> Case {
    let join = Plan::new()
        .table(0, 1)
        .table(0, 1)
        .join(Join::Inner, pairs, 0, 0);
    let plan = join.pair(0, 0).pair(0, 0).pair(0, 0).pair(0, 0).pair(0, 0);
    over_ones(plan, 1, 3, 2, 1)
}

pub(crate) fn node_cases(rt: &impl Print) -> io::Result<()> {
    chain().lend_plan(47).run(rt, "12 nodes")?;
    chain().run(rt, "13 nodes")?;
    over_ones(leaves(3), 2, 5, 3, 8).run(rt, "3 leaves of 2 rows with L 8")?;
    over_ones(leaves(3), 2, 5, 3, 7).run(rt, "3 leaves of 2 rows with L 7")?;
    over_ones(leaves(4), 1, 7, 4, 1).run(rt, "4 leaves")?;
    paired(0).lend_plan(10).run(rt, "a join on no pair")?;
    paired(4).lend_plan(18).run(rt, "a join on 4 pairs")?;
    paired(5).run(rt, "a join on 5 pairs")?;
    over_ones(Plan::new().table(0, 1).group(0, 0), 1, 2, 1, 1).run(rt, "a grouping of no columns")?;
    Ok(())
}

// A row of so many columns joined with one of one column.
fn widened(columns: u8) -> Case {
    let plan = Plan::new()
        .table(0, columns)
        .table(1, 1)
        .join(Join::Inner, 1, 0, 0)
        .pair(0, 0);
    let width = usize::from(columns);
    let tables = [width, 1, 0, 1, 1, 0, 0, 0, 0];
    Case::new(plan, Store::all(tables, 1), 3, width + 1, 1)
}

pub(crate) fn column_cases(rt: &impl Print) -> io::Result<()> {
    widened(15).run(rt, "15 columns and 1 joined")?;
    widened(16).run(rt, "16 columns and 1 joined")?;
    Ok(())
}
