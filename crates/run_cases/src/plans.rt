// Plans, put together byte behind byte as docs/ARRANGEMENT.md says.
ghost use Rattle.std.specs.Prelude.{◌≡◌};
ghost use Rattle.meaning.specs.Arrangement.{zigzag};

use crate::front::Front;

// The kinds of joins, by the byte of their node. The program writes bytes as docs/ARRANGEMENT.md says, not by what the library reads them with.
#[derive(Clone, Copy)]
pub enum Join {
    Inner = 1,
    LeftOuter = 2,
    FullOuter = 3,
}

impl From<Join> for u8 {
    fn from(kind: Join) -> u8 {
        kind as u8
    }
}

// The aggregates, each with the columns that it reads: v, and the weight c.
#[derive(Clone, Copy)]
pub enum Aggregate {
    Rows,
    Count(u8),
    Sum(u8),
    Least(u8),
    Greatest(u8),
    DistinctSum(u8),
    DistinctCount(u8),
    WeightedSum(u8, u8),
    WeightedCount(u8, u8),
}

impl Aggregate {
    // Its number, v and c, with 0 for a column that it does not read.
    fn bytes(self) -> [u8; 3] {
        match self {
            Aggregate::Rows => [0, 0, 0],
            Aggregate::Count(v) => [1, v, 0],
            Aggregate::Sum(v) => [2, v, 0],
            Aggregate::Least(v) => [3, v, 0],
            Aggregate::Greatest(v) => [4, v, 0],
            Aggregate::DistinctSum(v) => [5, v, 0],
            Aggregate::DistinctCount(v) => [6, v, 0],
            Aggregate::WeightedSum(v, c) => [7, v, c],
            Aggregate::WeightedCount(v, c) => [8, v, c],
        }
    }
}

// A whole number as one that is not negative: 0, -1, 1, -2, 2 .. become 0, 1, 2, 3, 4 ..
#[tactic(auto, unfolding(meaning::specs::Arrangement::zigzag))]
fn zigzag(n: i64) -> u64
    ensures { result ≡ zigzag n }
{
    if n < 0 {
        2 * (!n as u64) + 1
    } else {
        2 * (n as u64)
    }
}

// The longest plan of a case has 115 bytes.
pub(crate) const MOST_BYTES: usize = 128;

#[derive(Drop)]
pub struct Plan {
    pub bytes: Front<u8, MOST_BYTES>,
}

impl Plan {
    pub(crate) fn new() -> Plan {
        Plan {
            bytes: Front::new(0),
        }
    }

    // These bytes more, while there is room.
    fn append(mut self, bytes: &[u8]) -> Plan {
        for byte in bytes {
            self.bytes.push(*byte);
        }
        self
    }

    pub(crate) fn table(self, number: u8, width: u8) -> Plan {
        self.append(&[0, number, width])
    }

    // A join with counts of pairs, of left and of right defaults, which follow; no slices, since cases count wrongly.
    pub(crate) fn join(self, kind: Join, pairs: u8, left: u8, right: u8) -> Plan {
        self.append(&[kind.into(), pairs, left, right])
    }

    pub(crate) fn pair(self, left: u8, right: u8) -> Plan {
        self.append(&[left, right])
    }

    // A default: its mark, and the eight bytes of its number.
    pub(crate) fn default(self, n: i64) -> Plan {
        self.append(&[0]).append(&zigzag(n).to_le_bytes())
    }

    pub(crate) fn null(self) -> Plan {
        self.append(&[1]).append(&[0; 8])
    }

    // The defaults of three columns.
    pub(crate) fn nulls(self) -> Plan {
        self.null().null().null()
    }

    // A grouping with counts of columns and of aggregates, which follow.
    pub(crate) fn group(self, columns: u8, aggregates: u8) -> Plan {
        self.append(&[4, columns, aggregates])
    }

    pub(crate) fn column(self, column: u8) -> Plan {
        self.append(&[column])
    }

    pub(crate) fn aggregate(self, aggregate: Aggregate) -> Plan {
        self.append(&aggregate.bytes())
    }
}
