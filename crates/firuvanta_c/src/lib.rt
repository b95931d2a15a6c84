#![tactic(auto)]

// The doors that C calls: include/firuvanta.h documents them. C takes and answers numbers, so a refusal is its number here.
ghost use Rattle.meaning.specs.Check.{Checks};
ghost use Rattle.meaning.specs.Running.{Runs, lent_of, areas_of, answered};

use tables::Lent;

// The check of a plan's bytes.
#[unsafe(no_mangle)]
pub extern "C" fn firuvanta_check(plan: &[u8]) -> u32
    ensures { Checks plan.now result }
{
    match firuvanta::firuvanta_check(plan) {
        Ok(()) => 0,
        Err(refusal) => u32::from(refusal),
    }
}

// The run of a plan's bytes over lent tables.
#[unsafe(no_mangle)]
pub extern "C" fn firuvanta_run(
    plan: &[u8],
    tables: &[usize],
    cells: &[i64],
    marks: &[u8],
    limit: usize,
    work: &mut [i64],
    work_marks: &mut [u8],
    res: &mut [i64],
    result_marks: &mut [u8],
    rows: &mut usize,
) -> u32
    ensures { Runs (lent_of tables.now cells.now marks.now) limit (areas_of work.old work_marks.old res.old result_marks.old) plan.now (answered result rows.new (areas_of work.new work_marks.new res.new result_marks.new)) }
{
    let lent = Lent {
        tables,
        cells,
        marks,
    };
    match firuvanta::firuvanta_run(plan, lent, limit, work, work_marks, res, result_marks) {
        Ok(count) => {
            *rows = count;
            0
        }
        Err(refusal) => {
            *rows = 0;
            u32::from(refusal)
        }
    }
}
