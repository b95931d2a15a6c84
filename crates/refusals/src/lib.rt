#![tactic(auto)]

// What a job says no with. The scope's numbers are the answers of `u32::from`, and of C.
ghost use Rattle.std.specs.Prelude.{◌≡◌};
ghost use Rattle.refusals.specs.Numbers.{refusal_number};

/// Why there is no pass and no result, in the order in which the numbers are tested.
#[derive(Clone, Copy, Debug, PartialEq, Eq, PartialOrd, Ord)]
pub enum Refusal {
    /// 1: the bytes are no plan's.
    NoPlan,
    /// 2: nodes, leaves, widths or pairs are outside the limits.
    Limits,
    /// 3: a column is not there, or a grouping column is repeated.
    Columns,
    /// 4: a weight's place or kind is wrong, or a default is outside its range.
    Weights,
    /// 5: a table that the plan names is missing or wrong.
    Tables,
    /// 6: the row limit is outside its range, or an area is too short.
    Room,
    /// 7: a node has more rows than the row limit.
    Rows,
}

impl From<Refusal> for u32 {
    ghost from_gives = { λ refusal n. n ≡ refusal_number refusal };

    fn from(refusal: Refusal) -> u32 {
        match refusal {
            Refusal::NoPlan => 1,
            Refusal::Limits => 2,
            Refusal::Columns => 3,
            Refusal::Weights => 4,
            Refusal::Tables => 5,
            Refusal::Room => 6,
            Refusal::Rows => 7,
        }
    }
}
