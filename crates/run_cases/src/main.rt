#![tactic(auto)]

// Runs the worked depot, and cases at the edges of what a run takes, and writes a line a case: the number that came back, the row
// count, and what the work area and the result area hold then. The rows of a short result stand below its line.
mod cases;
mod depot;
mod front;
mod groupings;
mod joins;
mod limits;
mod lines;
mod plans;
mod store;

use std::io;

fn main(rt: HostRuntime) -> io::Result<()> {
    depot::worked_cases(&rt)?;
    depot::cell_cases(&rt)?;
    depot::table_cases(&rt)?;
    depot::lent_run_cases(&rt)?;
    depot::room_cases(&rt)?;
    depot::byte_cases(&rt)?;
    depot::plan_cases(&rt)?;
    depot::order_cases(&rt)?;
    limits::row_cases(&rt)?;
    limits::node_cases(&rt)?;
    limits::column_cases(&rt)?;
    joins::kind_cases(&rt)?;
    joins::null_cases(&rt)?;
    joins::default_cases(&rt)?;
    joins::weight_cases(&rt)?;
    groupings::grouping_cases(&rt)?;
    Ok(())
}
