// What a case writes: its line, and the rows of a short result.
use refusals::Refusal;
use std::{fmt, io};

// What stands in the work area and the result area before a run. No run writes such a mark.
pub(crate) const FILL: i64 = 9;

pub(crate) const FILL_MARK: u8 = 7;

// The rows of a result are written where they are no more than this.
const SHORT: usize = 7;

// A cell and its mark.
#[derive(Clone, Copy)]
struct Cell(i64, u8);

impl fmt::Display for Cell {
    fn fmt<W: fmt::Write>(&self, f: &mut fmt::Formatter<W>) -> fmt::Result {
        match *self {
            Cell(number, 0) => write!(f, "{number}"),
            Cell(0, 1) => f.write_str("null"),
            _ => f.write_str("neither a number nor null"),
        }
    }
}

// A count of rows.
#[derive(Clone, Copy)]
struct Rows(usize);

impl fmt::Display for Rows {
    fn fmt<W: fmt::Write>(&self, f: &mut fmt::Formatter<W>) -> fmt::Result {
        match self.0 {
            1 => f.write_str("1 row"),
            n => write!(f, "{n} rows"),
        }
    }
}

// Whether everything from a place on is this one.
fn all_are<T: PartialEq>(items: &[T], from: usize, one: &T) -> bool {
    items.iter().skip(from).all(|item| item == one)
}

// An area as a run left it.
#[derive(Clone, Copy)]
pub struct Area<'a> {
    pub cells: &'a [i64],
    pub marks: &'a [u8],
}

impl Area<'_> {
    // Whether it is from a place on as it was lent.
    fn kept(self, from: usize) -> bool {
        all_are(self.cells, from, &FILL) && all_are(self.marks, from, &FILL_MARK)
    }

    fn cleared(self) -> bool {
        all_are(self.cells, 0, &0) && all_are(self.marks, 0, &0)
    }
}

// The line of a case: what came back, and what the areas hold then.
pub(crate) fn say_line(
    rt: &impl Print,
    label: &str,
    outcome: Result<usize, Refusal>,
    work: Area,
    res: Area,
    width: usize,
) -> io::Result<()> {
    let (number, rows) = match outcome {
        Ok(rows) => (0, rows),
        Err(refusal) => (u32::from(refusal), 0),
    };
    let count = Rows(rows);
    let of_work = if work.kept(0) {
        "kept"
    } else if work.cleared() {
        "0"
    } else {
        "neither kept nor 0"
    };
    print!(rt; "{label}: {number}, {count}, work {of_work}, ")?;
    if !res.kept(rows.saturating_mul(width)) {
        println!(rt; "result not kept")?;
    } else if rows == 0 {
        println!(rt; "result kept")?;
    } else {
        println!(rt; "result kept behind {count}")?;
    }
    say_rows(rt, res, rows, width)
}

// The rows of a short result, a line a row.
fn say_rows(rt: &impl Print, res: Area, rows: usize, width: usize) -> io::Result<()> {
    if rows > SHORT || width == 0 {
        return Ok(());
    }
    let both = res.cells.chunks(width).zip(res.marks.chunks(width));
    for (cells, marks) in both.take(rows) {
        print!(rt; "   ")?;
        for (cell, mark) in cells.iter().zip(marks) {
            let cell = Cell(*cell, *mark);
            print!(rt; " {cell}")?;
        }
        println!(rt)?;
    }
    Ok(())
}
