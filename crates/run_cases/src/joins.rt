// The kinds of joins, nulls in pairs, defaults, and weights.
use crate::cases::Case;
use crate::depot::{full_outer, on_tile, uses_and_releases};
use crate::plans::{Aggregate, Join, Plan};
use crate::store::Store;
use std::io;

fn inner() -> Plan {
    on_tile(Join::Inner, 0, 0)
}

fn left_outer() -> Plan {
    on_tile(Join::LeftOuter, 0, 3).nulls()
}

// On tile, and the use's depot with the release's class.
fn on_two_pairs() -> Plan {
    Plan::new()
        .table(0, 3)
        .table(1, 3)
        .join(Join::Inner, 2, 0, 0)
        .pair(1, 0)
        .pair(0, 1)
}

fn releases_twice() -> Plan {
    Plan::new()
        .table(1, 3)
        .table(1, 3)
        .join(Join::Inner, 1, 0, 0)
        .pair(0, 0)
}

// A plan of three nodes and six columns over the depot's uses and releases.
fn over_depot(plan: Plan, limit: usize) -> Case {
    Case::new(plan, uses_and_releases(), 3, 6, limit)
}

pub(crate) fn kind_cases(rt: &impl Print) -> io::Result<()> {
    over_depot(inner(), 5).run(rt, "inner join with L 5")?;
    over_depot(inner(), 4).run(rt, "inner join with L 4")?;
    over_depot(left_outer(), 6).run(rt, "left outer join with L 6")?;
    over_depot(left_outer(), 5).run(rt, "left outer join with L 5")?;
    over_depot(full_outer(), 7).run(rt, "full outer join with L 7")?;
    over_depot(full_outer(), 6).run(rt, "full outer join with L 6")?;
    over_depot(on_two_pairs(), 4).run(rt, "inner join on tile and on depot = class")?;
    over_depot(releases_twice(), 6).run(rt, "releases joined with themselves on tile")?;
    Ok(())
}

// One use, whose tile is null, and one release, whose tile is null too.
fn over_null_tiles(plan: Plan) -> Case {
    let store = Store::new([3, 1, 0, 3, 1, 3, 0, 0, 0])
        .number(3)
        .null()
        .number(9)
        .null()
        .number(1)
        .number(30);
    Case::new(plan, store, 3, 6, 2)
}

pub(crate) fn null_cases(rt: &impl Print) -> io::Result<()> {
    over_null_tiles(inner()).run(rt, "inner join of null tiles")?;
    over_null_tiles(left_outer()).run(rt, "left outer join of null tiles")?;
    over_null_tiles(full_outer()).run(rt, "full outer join of null tiles")?;
    Ok(())
}

// The left outer join with a default for the release's class.
fn class_default(n: i64) -> Case {
    over_depot(on_tile(Join::LeftOuter, 0, 3).null().default(n).null(), 6)
}

pub(crate) fn default_cases(rt: &impl Print) -> io::Result<()> {
    class_default(2147483647).run(rt, "default 2,147,483,647")?;
    class_default(2147483648).run(rt, "default 2,147,483,648")?;
    class_default(-2147483647).run(rt, "default -2,147,483,647")?;
    class_default(-2147483648).run(rt, "default -2,147,483,648")?;
    Ok(())
}

// The uses by depot and tile: sum of age, count of age, and c, the count of rows.
fn uses_grouped() -> Plan {
    let group = Plan::new().table(0, 3).group(2, 3).column(0).column(1);
    group
        .aggregate(Aggregate::Sum(2))
        .aggregate(Aggregate::Count(2))
        .aggregate(Aggregate::Rows)
}

// Those full joined with the releases on tile; where there is no use 0 ages are counted, and c's default is given.
fn uses_joined(c: i64) -> Plan {
    let join = uses_grouped()
        .table(1, 3)
        .join(Join::FullOuter, 1, 5, 3)
        .pair(1, 0);
    let left = join.nulls().default(0).default(c);
    left.nulls()
}

// Plan A over the grouped uses, with an aggregate of limit by c.
fn weighted(aggregate: Aggregate, c: i64, limit: usize) -> Case {
    let group = uses_joined(c).group(2, 4).column(0).column(6);
    let plan = group
        .aggregate(Aggregate::Sum(4))
        .aggregate(Aggregate::Sum(2))
        .aggregate(aggregate)
        .aggregate(Aggregate::Sum(3));
    Case::new(plan, uses_and_releases(), 5, 6, limit)
}

pub(crate) fn weight_cases(rt: &impl Print) -> io::Result<()> {
    weighted(Aggregate::WeightedSum(7, 4), 1, 5).run(rt, "plan A by weights with L 5")?;
    weighted(Aggregate::WeightedSum(7, 4), 1, 4).run(rt, "plan A by weights with L 4")?;
    weighted(Aggregate::WeightedCount(7, 4), 1, 5).run(
        rt,
        "plan A by weights with a weighted count of limit",
    )?;
    weighted(Aggregate::WeightedSum(7, 4), 2, 5).run(
        rt,
        "plan A by weights with 2 as the default of a weight",
    )?;
    Ok(())
}
