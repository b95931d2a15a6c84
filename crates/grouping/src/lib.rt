#![tactic(auto)]

// The rows of a grouping, from its input's rows in a lent area.
// A node is named by its string and its place in it, as the definitions name it.
// An area's cells and marks are two parameters, as in `regions`.
// The definitions take the place, the count and the width of rows as three numbers.
ghost use Rattle.std.specs.Prelude.{◌≡◌, ℕ, ◌+◌, ◌<◌, ◌≤◌, length};
ghost use Rattle.meaning.specs.Running.{rows_from};
ghost use Rattle.rules.specs.Named.{named};
ghost use Rattle.node_bytes.specs.Nodes.{byte};
ghost use Rattle.arrangement.proofs.Roots.{columns_from};
ghost use Rattle.regions.specs.Reading.{CellIn, cell_of, number_or_none};
ghost use Rattle.running.specs.Rows.{Reads};
ghost use Rattle.groups.proofs.Runs.{RunEnd};
ghost use Rattle.grouping.specs.Picking.{PickRoom, PickDone};
ghost use Rattle.grouping.specs.Feeding.{FeedRoom, Fed};
ghost use Rattle.grouping.specs.Single.{needs_order, StateRoom, StateDone};
ghost use Rattle.grouping.specs.Writing.{CellRoom, CellDone, CellsRoom, CellsDone, RowRoom, RowDone};
ghost use Rattle.grouping.specs.Ending.{EndRoom};
ghost use Rattle.grouping.specs.Grouping.{GroupRoom, RunsDone, GroupDone};

use regions::{Rows, cell_at};
use rules::Name;
use running::Running;

// Writes n cells behind one another, each from its place below them.
fn pick<F: Fn(usize) -> usize>(cells: &mut [i64], marks: &mut [u8], to: usize, n: usize, place: F)
    requires callable { (i : ℕ) → i < n → F.pre place i }
    requires room { PickRoom cells.old marks.old (F.post place) to n }
    ensures { PickDone cells.old marks.old cells.new marks.new (F.post place) to n }
{
    for j in 0..n {
        let from = place(j);
        cells[to + j] = cells[from];
        marks[to + j] = marks[from];
    }
}

// The columns that the grouping at a place lists as its key.
fn key_columns(s: &[u8], at: usize) -> &[u8]
    requires { at + 3 + byte s.now (at + 1) ≤ length s.now }
    ensures { result.now ≡ columns_from s.now at }
{
    let n = s[at + 1] as usize;
    &s[at + 3..at + 3 + n]
}

// What an aggregate of this name reads of the row at a place: its cells v and c, None for one that it does not read.
// Inlined where `feed_as` is, so that a cell that the name does not read costs nothing.
#[tactic(auto, unfolding(running::specs::States::amount_of, running::specs::States::product_if, running::specs::States::distinct_of))]
#[inline(always)]
fn read(
    kind: Name,
    v: usize,
    c: usize,
    cells: &[i64],
    marks: &[u8],
    row: usize,
) -> (Option<i64>, Option<i64>)
    requires v_in { CellIn cells.now marks.now (row + v) }
    requires c_in { CellIn cells.now marks.now (row + c) }
    ensures { Reads kind (number_or_none (cell_of cells.now marks.now (row + v))) (number_or_none (cell_of cells.now marks.now (row + c))) result.0 result.1 }
{
    match kind {
        Name::Rows => (None, None),
        Name::WeightedSum | Name::WeightedCount | Name::Other(_) => (
            cell_at(cells, marks, row + v),
            cell_at(cells, marks, row + c),
        ),
        _ => (cell_at(cells, marks, row + v), None),
    }
}

// The state of an aggregate that has taken the rows, by its name, the number that says it, and its columns v and c.
// Inlined where `feed_rows` says the name, so that the choice by name is made once, and not at each row; and in `feed`, for one row.
#[inline(always)]
fn feed_as(
    kind: Name,
    name: u8,
    v: usize,
    c: usize,
    cells: &[i64],
    marks: &[u8],
    rows: Rows,
) -> Running
    requires said { kind ≡ named name }
    requires room { FeedRoom name v c cells.now marks.now rows.at rows.count rows.width }
    ensures { Fed name v c cells.now marks.now rows.at rows.count rows.width result }
{
    // only what is taken goes from turn to turn, so that it stays in registers
    let mut taken = Running::new(name).taken;
    for k in 0..rows.count {
        let row = rows.at + k * rows.width;
        let (v, c) = read(kind, v, c, cells, marks, row);
        taken = Running { name: kind, taken }.add(v, c).taken;
    }
    Running { name: kind, taken }
}

// The same by its number alone, with a loop of its own for each name; out of line, so that the nine loops stand once.
#[tactic(auto, using(rules::specs::Named::says_other))]
#[inline(never)]
fn feed_rows(name: u8, v: usize, c: usize, cells: &[i64], marks: &[u8], rows: Rows) -> Running
    requires { FeedRoom name v c cells.now marks.now rows.at rows.count rows.width }
    ensures { Fed name v c cells.now marks.now rows.at rows.count rows.width result }
{
    match Name::from(name) {
        Name::Rows => feed_as(Name::Rows, name, v, c, cells, marks, rows),
        Name::Count => feed_as(Name::Count, name, v, c, cells, marks, rows),
        Name::Sum => feed_as(Name::Sum, name, v, c, cells, marks, rows),
        Name::Least => feed_as(Name::Least, name, v, c, cells, marks, rows),
        Name::Greatest => feed_as(Name::Greatest, name, v, c, cells, marks, rows),
        Name::DistinctSum => feed_as(Name::DistinctSum, name, v, c, cells, marks, rows),
        Name::DistinctCount => feed_as(Name::DistinctCount, name, v, c, cells, marks, rows),
        Name::WeightedSum => feed_as(Name::WeightedSum, name, v, c, cells, marks, rows),
        Name::WeightedCount => feed_as(Name::WeightedCount, name, v, c, cells, marks, rows),
        // the contract asks for one of the nine
        Name::Other(_) => Running::new(name),
    }
}

// The same, by its number as `Running::new` takes it. A run of one row, as all are where the keys differ, is fed in place:
// it takes less time than the call of the loops.
#[inline(always)]
fn feed(name: u8, v: usize, c: usize, cells: &[i64], marks: &[u8], rows: Rows) -> Running
    requires { FeedRoom name v c cells.now marks.now rows.at rows.count rows.width }
    ensures { Fed name v c cells.now marks.now rows.at rows.count rows.width result }
{
    if rows.count == 1 {
        return feed_as(Name::from(name), name, v, c, cells, marks, rows);
    }
    feed_rows(name, v, c, cells, marks, rows)
}

// Whether an aggregate wants its values ascending: a distinct one, over more than one row; by its number, as `running::distinct` takes it.
#[tactic(auto, unfolding(crate::specs::Single::needs_order))]
fn needs_order(name: u8, rows: usize) -> bool
    ensures { result ≡ needs_order name rows }
{
    2 <= rows && running::distinct(name)
}

// The state of the aggregate at a place of the node over a run's rows; a distinct one reads its column alone, from a sorted copy.
fn run_state(
    s: &[u8],
    at: usize,
    cells: &mut [i64],
    marks: &mut [u8],
    rows: Rows,
    scratch: usize,
) -> Running
    requires { StateRoom s.now at cells.old marks.old rows.at rows.count rows.width scratch }
    ensures { StateDone s.now at cells.old marks.old cells.new marks.new rows.at rows.count rows.width scratch result }
{
    let name = s[at];
    let v = s[at + 1] as usize;
    if !needs_order(name, rows.count) {
        let c = s[at + 2] as usize;
        return feed(name, v, c, cells, marks, rows);
    }
    pick(
        cells,
        marks,
        scratch,
        rows.count,
        |k| rows.at + v + k * rows.width,
    );
    let column = Rows {
        at: scratch,
        count: rows.count,
        width: 1,
    };
    sorting::sort_rows(&[0], cells, marks, column, scratch + rows.count);
    feed(name, 0, 0, cells, marks, column)
}

// Writes what an aggregate answers over a run's rows.
fn write_aggregate(
    s: &[u8],
    at: usize,
    cells: &mut [i64],
    marks: &mut [u8],
    rows: Rows,
    to: usize,
    scratch: usize,
)
    requires { CellRoom s.now at cells.old marks.old rows.at rows.count rows.width to scratch }
    ensures { CellDone s.now at cells.old marks.old cells.new marks.new rows.at rows.count rows.width to scratch }
{
    let (_, answer) = run_state(s, at, cells, marks, rows, scratch).finish();
    // as in `joining::write_defaults`: a function of the two lines would ask for their room, and answer with two lists
    cells[to] = answer.unwrap_or(0);
    marks[to] = u8::from(answer.is_none());
}

// Writes what each of n aggregates answers over a run's rows.
// They go by the string and a place, as the laws of a node's bytes do; a slice of them would be the same laws at other places.
fn write_aggregates(
    s: &[u8],
    at: usize,
    n: usize,
    cells: &mut [i64],
    marks: &mut [u8],
    rows: Rows,
    to: usize,
    scratch: usize,
)
    requires { CellsRoom s.now at n cells.old marks.old rows.at rows.count rows.width to scratch }
    ensures { CellsDone s.now at n cells.old marks.old cells.new marks.new rows.at rows.count rows.width to scratch }
{
    for j in 0..n {
        write_aggregate(s, at + 3 * j, cells, marks, rows, to + j, scratch);
    }
}

// Writes a group's row: its key, then its aggregates.
fn write_group(s: &[u8], at: usize, cells: &mut [i64], marks: &mut [u8], rows: Rows, to: usize)
    requires { RowRoom s.now at cells.old marks.old rows.at rows.count rows.width to }
    ensures { RowDone s.now at cells.old marks.old cells.new marks.new rows.at rows.count rows.width to }
{
    let columns = key_columns(s, at);
    let n = columns.len();
    let aggregates = s[at + 2] as usize;
    pick(cells, marks, to, n, |j| rows.at + columns[j] as usize);
    let behind = to + n;
    write_aggregates(
        s,
        at + 3 + n,
        aggregates,
        cells,
        marks,
        rows,
        behind,
        behind + aggregates,
    );
}

// The first row behind row i whose key is another one, or the number of rows.
fn run_end(columns: &[u8], cells: &[i64], marks: &[u8], rows: Rows, i: usize) -> usize
    requires { EndRoom columns.now cells.now marks.now rows.at rows.count rows.width i }
    ensures { RunEnd columns.now (rows_from cells.now marks.now rows.width rows.at rows.count) i result }
{
    let first = rows.at + i * rows.width;
    (i + 1..rows.count)
        .find(|end| !sorting::same_key(columns, cells, marks, rows.at + *end * rows.width, first))
        .unwrap_or(rows.count)
}

// Writes a row for each run of rows with one key, and answers how many.
fn write_groups(
    s: &[u8],
    at: usize,
    cells: &mut [i64],
    marks: &mut [u8],
    input: Rows,
    out: usize,
) -> usize
    requires { GroupRoom s.now at cells.old marks.old input.at input.count input.width out }
    ensures { RunsDone s.now at cells.old marks.old cells.new marks.new input.at input.count input.width out result }
{
    let columns = key_columns(s, at);
    let width = columns.len() + s[at + 2] as usize;
    let mut count = 0;
    let mut i = 0;
    // A `for` would go from row to row, where this goes from run to run.
    while i < input.count {
        let end = run_end(columns, cells, marks, input, i);
        let run = Rows {
            at: input.at + i * input.width,
            count: end - i,
            ..input
        };
        write_group(s, at, cells, marks, run, out + count * width);
        count += 1;
        i = end;
    }
    count
}

/// Writes the rows of the grouping whose node is at a place, from its input's rows, which it sorts; answers how many.
/// The scratch is the room for the rows, none of which is written before the sort is done.
pub fn group_rows(
    s: &[u8],
    at: usize,
    cells: &mut [i64],
    marks: &mut [u8],
    input: Rows,
    out: usize,
) -> usize
    requires { GroupRoom s.now at cells.old marks.old input.at input.count input.width out }
    ensures { GroupDone s.now at cells.old marks.old cells.new marks.new input.at input.count input.width out result }
{
    sorting::sort_rows(key_columns(s, at), cells, marks, input, out);
    write_groups(s, at, cells, marks, input, out)
}
