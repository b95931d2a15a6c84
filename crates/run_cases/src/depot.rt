// The worked depot: plan A over the uses and the releases, and cases that differ from it by a number or two.
use crate::cases::Case;
use crate::plans::{Aggregate, Join, Plan};
use crate::store::{Store, one_column};
use std::io;

// Places in plan A, as numbers, since the bytes that cases write there make a string that is no plan's.
const USES_NODE: usize = 0;

const RELEASES_COLUMNS: usize = 5;

const PAIR_USE: usize = 10;

const PAIR_RELEASE: usize = 11;

const DEPOT_DEFAULT: usize = 12;

const SECOND_GROUPED: usize = 70;

const FIRST_AGGREGATE: usize = 71;

const LIMIT_SUM: usize = 77;

// Places in the list of tables, which is numbers as in `store`.
const USES: usize = 1;

const RELEASES_WIDTH: usize = 3;

const RELEASES: usize = 4;

const RELEASES_START: usize = 5;

// Places in the lent run; the last use's age is null.
const FIRST_CELL: usize = 0;

const AGE: usize = 11;

const LAST_CELL: usize = 23;

// The uses joined with the releases on tile; the defaults that are counted follow.
pub(crate) fn on_tile(kind: Join, left: u8, right: u8) -> Plan {
    Plan::new()
        .table(0, 3)
        .table(1, 3)
        .join(kind, 1, left, right)
        .pair(1, 0)
}

pub(crate) fn full_outer() -> Plan {
    on_tile(Join::FullOuter, 3, 3).nulls().nulls()
}

fn plan_a() -> Plan {
    full_outer()
        .group(2, 4)
        .column(0)
        .column(4)
        .aggregate(Aggregate::Rows)
        .aggregate(Aggregate::Sum(2))
        .aggregate(Aggregate::Sum(5))
        .aggregate(Aggregate::Count(2))
}

// Uses (depot, tile, age) and releases (tile, class, limit), and behind them a wrong table and a wrong cell.
pub(crate) fn uses_and_releases() -> Store {
    Store::new([3, 4, 0, 3, 4, 12, 17, 1025, 99])
        .row(1, 10, 5)
        .row(1, 10, 7)
        .row(1, 20, 4)
        .number(2)
        .number(30)
        .null()
        .row(10, 1, 30)
        .row(10, 1, 40)
        .row(20, 2, 50)
        .row(40, 2, 20)
        .cell(2147483648, 2)
}

// The worked depot, without what is wrong behind its lists.
fn depot() -> Case {
    Case::new(plan_a(), uses_and_releases(), 4, 6, 7)
        .lend_tables(6)
        .lend_cells(24)
        .lend_marks(24)
}

pub(crate) fn worked_cases(rt: &impl Print) -> io::Result<()> {
    depot().run(rt, "plan A with L 7")?;
    depot().limit(6).run(rt, "plan A with L 6")?;
    depot().limit(0).run(rt, "plan A with L 0")?;
    depot().table(USES, 0).run(rt, "plan A over no uses")?;
    depot()
        .table(RELEASES, 0)
        .run(rt, "plan A over no releases")?;
    depot()
        .table(USES, 0)
        .table(RELEASES, 0)
        .run(rt, "plan A over two empty tables")?;
    Ok(())
}

pub(crate) fn cell_cases(rt: &impl Print) -> io::Result<()> {
    depot()
        .cell(AGE, 2147483647, 0)
        .run(rt, "cell 2,147,483,647")?;
    depot()
        .cell(AGE, 2147483648, 0)
        .run(rt, "cell 2,147,483,648")?;
    depot()
        .cell(AGE, -2147483647, 0)
        .run(rt, "cell -2,147,483,647")?;
    depot()
        .cell(AGE, -2147483648, 0)
        .run(rt, "cell -2,147,483,648")?;
    depot()
        .cell(AGE, i64::MAX, 0)
        .run(rt, "cell 9,223,372,036,854,775,807")?;
    depot()
        .cell(AGE, i64::MIN, 0)
        .run(rt, "cell -9,223,372,036,854,775,808")?;
    depot().cell(AGE, 0, 0).run(rt, "cell 0")?;
    depot().cell(AGE, 1, 1).run(rt, "cell 1 marked null")?;
    depot().cell(AGE, 0, 2).run(rt, "cell 0 with mark 2")?;
    depot()
        .cell(FIRST_CELL, 2147483648, 0)
        .run(rt, "first cell 2,147,483,648")?;
    depot()
        .cell(LAST_CELL, 2147483648, 0)
        .run(rt, "last cell 2,147,483,648")?;
    Ok(())
}

pub(crate) fn table_cases(rt: &impl Print) -> io::Result<()> {
    depot()
        .lend_tables(3)
        .run(rt, "the releases' table not there")?;
    depot()
        .lend_tables(5)
        .run(rt, "the releases' table without its start")?;
    depot()
        .lend_tables(9)
        .run(rt, "a wrong table that no leaf names")?;
    depot()
        .table(RELEASES_WIDTH, 2)
        .run(rt, "releases of 2 columns where the leaf says 3")?;
    depot()
        .table(RELEASES, usize::MAX)
        .run(rt, "18,446,744,073,709,551,615 releases")?;
    depot()
        .table(RELEASES_START, 9)
        .run(rt, "releases that overlap the last use")?;
    depot()
        .table(RELEASES_START, 13)
        .run(rt, "releases from cell 13, of 24")?;
    depot()
        .table(RELEASES_START, usize::MAX)
        .run(rt, "releases from cell 18,446,744,073,709,551,615")?;
    depot()
        .table(RELEASES_START, usize::MAX)
        .table(RELEASES, 0)
        .run(rt, "no releases, from cell 18,446,744,073,709,551,615")?;
    Ok(())
}

pub(crate) fn lent_run_cases(rt: &impl Print) -> io::Result<()> {
    depot()
        .lend_cells(23)
        .run(rt, "a lent run of 23 cells, of 24")?;
    depot()
        .lend_marks(23)
        .run(rt, "a lent run of 23 marks, of 24")?;
    depot()
        .lend_cells(25)
        .run(rt, "a lent run of 25 cells and 24 marks")?;
    depot()
        .lend_cells(25)
        .lend_marks(25)
        .run(rt, "a wrong cell behind the tables")?;
    Ok(())
}

pub(crate) fn room_cases(rt: &impl Print) -> io::Result<()> {
    depot()
        .lend_work(447)
        .run(rt, "447 cells to work in, of 448")?;
    depot()
        .lend_work_marks(447)
        .run(rt, "447 marks to work in, of 448")?;
    depot()
        .lend_work(0)
        .lend_work_marks(0)
        .run(rt, "nothing to work in")?;
    depot()
        .lend_result(41)
        .run(rt, "41 cells for the result, of 42")?;
    depot()
        .lend_result_marks(41)
        .run(rt, "41 marks for the result, of 42")?;
    depot()
        .lend_work(500)
        .lend_work_marks(600)
        .run(rt, "more to work in than needed, with L 7")?;
    depot()
        .lend_work(500)
        .lend_work_marks(600)
        .limit(6)
        .run(rt, "more to work in than needed, with L 6")?;
    depot()
        .lend_result(50)
        .lend_result_marks(60)
        .run(rt, "more for the result than needed")?;
    Ok(())
}

fn nothing() -> Case {
    Case::new(Plan::new(), Store::new(one_column(0)), 0, 0, 0).lend_tables(0)
}

pub(crate) fn byte_cases(rt: &impl Print) -> io::Result<()> {
    nothing().run(rt, "nothing lent at all")?;
    depot().lend_plan(0).run(rt, "a plan of no bytes")?;
    depot()
        .lend_plan(82)
        .run(rt, "plan A without its last byte")?;
    depot().lend_plan(84).run(rt, "plan A with a byte more")?;
    depot()
        .lend_plan(6)
        .run(rt, "two tables and nothing above them")?;
    depot().byte(USES_NODE, 5).run(rt, "an unknown node")?;
    depot()
        .byte(FIRST_AGGREGATE, 9)
        .run(rt, "an unknown aggregate")?;
    depot()
        .byte(DEPOT_DEFAULT, 2)
        .run(rt, "a default with mark 2")?;
    depot()
        .byte(DEPOT_DEFAULT + 1, 2)
        .run(rt, "a default 1 marked null")?;
    Ok(())
}

pub(crate) fn plan_cases(rt: &impl Print) -> io::Result<()> {
    depot()
        .byte(RELEASES_COLUMNS, 0)
        .run(rt, "a leaf of no columns")?;
    depot()
        .byte(RELEASES_COLUMNS, 17)
        .run(rt, "a leaf of 17 columns")?;
    depot()
        .byte(PAIR_USE, 3)
        .run(rt, "a pair of the uses' column 3, of 3")?;
    depot()
        .byte(PAIR_RELEASE, 3)
        .run(rt, "a pair of the releases' column 3, of 3")?;
    depot()
        .byte(SECOND_GROUPED, 6)
        .run(rt, "grouped by column 6, of 6")?;
    depot()
        .byte(SECOND_GROUPED, 0)
        .run(rt, "grouped by column 0 twice")?;
    depot()
        .byte(LIMIT_SUM, 7)
        .run(rt, "a sum weighted by a plain column")?;
    Ok(())
}

pub(crate) fn order_cases(rt: &impl Print) -> io::Result<()> {
    depot()
        .byte(USES_NODE, 5)
        .byte(RELEASES_COLUMNS, 17)
        .run(rt, "an unknown node, and a leaf of 17 columns")?;
    depot().byte(RELEASES_COLUMNS, 17).byte(PAIR_USE, 3).run(
        rt,
        "a leaf of 17 columns, and a pair of the uses' column 3",
    )?;
    depot().byte(PAIR_USE, 3).byte(LIMIT_SUM, 7).run(
        rt,
        "a pair of the uses' column 3, and a sum weighted by a plain column",
    )?;
    depot().byte(LIMIT_SUM, 7).cell(AGE, 0, 2).run(
        rt,
        "a sum weighted by a plain column, and a cell with mark 2",
    )?;
    depot()
        .byte(USES_NODE, 5)
        .lend_work(0)
        .run(rt, "an unknown node, and no cells to work in")?;
    depot()
        .cell(AGE, 2147483648, 0)
        .limit(0)
        .run(rt, "cell 2,147,483,648, and L 0")?;
    depot()
        .limit(6)
        .lend_result(35)
        .run(rt, "L 6, and 35 cells for the result, of 36")?;
    Ok(())
}
