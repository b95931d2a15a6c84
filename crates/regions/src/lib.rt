#![tactic(auto)]

// Rows in a lent area of cells and marks: where they stand, how a cell is read, how rows are copied, and how an area is cleared.
// Cells and marks are two parameters: a struct of two `&mut` would add to each contract that it still holds the same two.
ghost use Rattle.std.specs.Prelude.{◌≡◌, ◌≤◌, length};
ghost use Rattle.regions.specs.Reading.{CellIn, cell_of, number_or_none};
ghost use Rattle.regions.specs.Copying.{Room, CopiedWithin, RoomIn, CopiedIn};
ghost use Rattle.regions.specs.Clearing.{Cleared};

/// Rows that stand one behind the other in an area: where the first starts, how many there are, and how many cells each has.
#[derive(Clone, Copy, Debug, PartialEq, Eq)]
pub struct Rows {
    pub at: usize,
    pub count: usize,
    pub width: usize,
}

// The number of the cell at a place, None for null: the byte of its mark is read here.
#[tactic(auto, unfolding(crate::specs::Reading::cell_of, crate::specs::Reading::number_or_none, meaning::specs::Running::cell_from))]
pub fn cell_at(cells: &[i64], marks: &[u8], at: usize) -> Option<i64>
    requires { CellIn cells.now marks.now at }
    ensures { result ≡ number_or_none (cell_of cells.now marks.now at) }
{
    if marks[at] == 0 {
        Some(cells[at])
    } else {
        None
    }
}

// Copies n cells and their marks to another place of the same area; the places lie apart. A caller could not lend the area twice to `copy_into`.
pub fn copy_within(cells: &mut [i64], marks: &mut [u8], from: usize, to: usize, n: usize)
    requires { Room cells.old marks.old from to n }
    ensures { CopiedWithin cells.old marks.old cells.new marks.new from to n }
{
    // a row is a few cells, and the library's `copy_within` takes longer to find its way than this to copy them
    for i in 0..n {
        cells[to + i] = cells[from + i];
        marks[to + i] = marks[from + i];
    }
}

// Copies n cells and their marks from one area into another; a place and a number serve both, where a caller would cut two slices.
pub fn copy_into(
    source: &[i64],
    source_marks: &[u8],
    from: usize,
    cells: &mut [i64],
    marks: &mut [u8],
    to: usize,
    n: usize,
)
    requires { RoomIn source.now source_marks.now cells.old marks.old from to n }
    ensures { CopiedIn source.now source_marks.now cells.old marks.old cells.new marks.new from to n }
{
    // cell by cell as above: the library's copy calls `memmove`, and of names from outside the archive asks for `memset` alone
    for i in 0..n {
        cells[to + i] = source[from + i];
        marks[to + i] = source_marks[from + i];
    }
}

// The first n elements of an area become zero; `fill` would ask that a clone of `zero` not fail, which `Copy` does not say.
pub fn clear<T: Copy>(area: &mut [T], zero: T, n: usize)
    requires { n ≤ length area.old }
    ensures { Cleared zero area.old area.new n }
{
    for at in 0..n {
        area[at] = zero;
    }
}
