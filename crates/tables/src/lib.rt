#![tactic(auto)]

// Tables in lent memory: whether one that a plan names is right.
ghost use Rattle.std.specs.Prelude.{◌≡◌, ◌+◌, ◌<◌, ◌≤◌, length};
ghost use Rattle.meaning.specs.Running.{cell_right, cells_right, place_right};
ghost use Rattle.tables.specs.Places.{inside_at, place_of, table_right};
ghost use Rattle.tables.specs.Lending.{lent_by};

/// What is lent to a run: the list of tables, three numbers a table, its width, rows and start, and the run of cells with a mark a cell.
#[derive(Clone, Copy)]
pub struct Lent<'a> {
    pub tables: &'a [usize],
    pub cells: &'a [i64],
    pub marks: &'a [u8],
}

// Whether a cell and its mark are a table's: present and in range, or null with number 0.
// The mark is a byte here: this is the test that it is 0 or 1.
#[tactic(auto, using(crate::proofs::Tests::cell_tests))]
fn cell_right(cell: i64, mark: u8) -> bool
    ensures { result ≡ cell_right cell mark }
{
    // a null's 0 lies in the range, so one comparison of the mark is left, 0, or 1 beside a 0: no jump hangs on which cells are null
    (-2147483647..=2147483647).contains(&cell) && mark <= u8::from(cell == 0)
}

// Whether n cells from a place on are a table's. One place and one number serve cells and marks, where two slices would be cut.
fn cells_right(cells: &[i64], marks: &[u8], from: usize, n: usize) -> bool
    requires { (from + n ≤ length cells.now) × (from + n ≤ length marks.now) }
    ensures { result ≡ cells_right cells.now marks.now from n }
{
    (0..n).all(|i| cell_right(cells[from + i], marks[from + i]))
}

// Whether n cells from a place on lie inside runs of these lengths. Each length is tested once.
#[tactic(auto, using(crate::specs::Places::ends_inside, crate::specs::Places::ends_outside))]
fn inside(start: usize, n: usize, cells: usize, marks: usize) -> bool
    ensures { result ≡ inside_at start n cells marks }
{
    start
        .checked_add(n)
        .is_some_and(|end| end <= cells && end <= marks)
}

// Whether the table whose width, rows and start are at a place has this width and is right.
#[tactic(auto, using(crate::proofs::Tests::table_tests))]
fn place_right(place: [usize; 3], lent: Lent, width: usize) -> bool
    requires { width < 256 }
    ensures { result ≡ place_right (lent_by lent.entry) width (place_of place) }
{
    let [wide, rows, start] = place;
    if wide != width || 1024 < rows {
        return false;
    }
    rows == 0
        || inside(start, width * rows, lent.cells.len(), lent.marks.len())
            && cells_right(lent.cells, lent.marks, start, width * rows)
}

// Whether the table of a number is there, has this width and is right. The definition takes the three lists, as the laws of one table do.
pub fn table_right(lent: Lent, name: usize, width: usize) -> bool
    requires { width < 256 }
    ensures { result ≡ table_right lent.entry.tables.now lent.entry.cells.now lent.entry.marks.now name width }
{
    let (places, _) = lent.tables.as_chunks::<3>();
    match places.get(name) {
        Some(place) => place_right(*place, lent, width),
        None => false,
    }
}
