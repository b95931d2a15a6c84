#![tactic(auto)]

// The rule table of the aggregates, as the code reads it, and their names.
ghost use Rattle.std.specs.Prelude.{◌≡◌};
ghost use Rattle.rules.specs.Lines.{entry_of};
ghost use Rattle.rules.specs.Named.{named, number_in};

/// An aggregate's name, in the order of its number.
#[derive(Clone, Copy, Debug, PartialEq, Eq, PartialOrd, Ord)]
pub enum Name {
    /// 0
    Rows,
    /// 1
    Count,
    /// 2
    Sum,
    /// 3
    Least,
    /// 4
    Greatest,
    /// 5
    DistinctSum,
    /// 6
    DistinctCount,
    /// 7
    WeightedSum,
    /// 8
    WeightedCount,
    /// A number from 9 on names none.
    Other(u8),
}

impl From<u8> for Name {
    ghost from_gives = { λ number name. name ≡ named number };

    #[tactic(auto, using(crate::specs::Named::named_other), unfolding(crate::specs::Named::named))]
    fn from(number: u8) -> Name {
        match number {
            0 => Name::Rows,
            1 => Name::Count,
            2 => Name::Sum,
            3 => Name::Least,
            4 => Name::Greatest,
            5 => Name::DistinctSum,
            6 => Name::DistinctCount,
            7 => Name::WeightedSum,
            8 => Name::WeightedCount,
            _ => Name::Other(number),
        }
    }
}

impl From<Name> for u8 {
    ghost from_gives = { λ name number. number ≡ number_in name };

    fn from(name: Name) -> u8 {
        match name {
            Name::Rows => 0,
            Name::Count => 1,
            Name::Sum => 2,
            Name::Least => 3,
            Name::Greatest => 4,
            Name::DistinctSum => 5,
            Name::DistinctCount => 6,
            Name::WeightedSum => 7,
            Name::WeightedCount => 8,
            Name::Other(number) => number,
        }
    }
}

/// The entry of a line that says how many columns the aggregate reads.
pub const COLUMNS: usize = 0;

/// The entry that says what the aggregate answers with no value: 0, or 1 for null.
pub const NO_VALUE: usize = 1;

/// The entry that says which kind the aggregate's answer has: its column's (0), or weight (1).
pub const KIND: usize = 2;

// A line for each aggregate, in the order of its number: the columns that it reads; its answer with no value, 0 or null (1);
// its kind, v's (0) or weight (1); its partial, its final and its other-side form, each an aggregate's number or 9 for none.
// The entries of a line say different things, so all are numbers: the scope names the form, a constant table of tables, and `entry` gives what it holds.
const RULES: [[u8; 6]; 9] = [
    [0, 0, 1, 0, 2, 9],
    [1, 0, 1, 1, 2, 8],
    [1, 1, 0, 2, 2, 7],
    [1, 1, 0, 3, 3, 3],
    [1, 1, 0, 4, 4, 4],
    [1, 1, 0, 9, 9, 5],
    [1, 0, 1, 9, 9, 6],
    [2, 1, 0, 9, 9, 9],
    [2, 0, 1, 9, 9, 9],
];

/// The entry of an aggregate's line; 9 where there is no such line or no such entry.
#[tactic(auto, unfolding(crate::specs::Lines::entry_of))]
pub fn entry(name: usize, column: usize) -> u8
    ensures { result ≡ entry_of name column }
{
    let Some(line) = RULES.get(name) else {
        return 9;
    };
    line.get(column).copied().unwrap_or(9)
}
