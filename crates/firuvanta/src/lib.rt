#![tactic(auto)]

// The doors: the check and the run of a plan's bytes. `firuvanta_c` opens them to C under the same names.
// An area's cells and marks are two parameters, as in `regions`.
ghost use Rattle.meaning.specs.Check.{Checks};
ghost use Rattle.meaning.specs.Running.{Runs, areas_of, answered};
ghost use Rattle.refusals.specs.Numbers.{number_of, count_of};
ghost use Rattle.tables.specs.Lending.{lent_by};

use refusals::Refusal;
use tables::Lent;

// The check of a plan's bytes: whether they are a plan's that passes.
pub fn firuvanta_check(plan: &[u8]) -> Result<(), Refusal>
    ensures { Checks plan.now (number_of result) }
{
    checks::check(plan)
}

// The run of a plan's bytes over lent tables: how many rows the result has.
pub fn firuvanta_run(
    plan: &[u8],
    lent: Lent,
    limit: usize,
    work: &mut [i64],
    work_marks: &mut [u8],
    res: &mut [i64],
    result_marks: &mut [u8],
) -> Result<usize, Refusal>
    ensures { Runs (lent_by lent.entry) limit (areas_of work.old work_marks.old res.old result_marks.old) plan.now (answered (number_of result) (count_of result) (areas_of work.new work_marks.new res.new result_marks.new)) }
{
    runs::run(plan, lent, limit, work, work_marks, res, result_marks)
}
