#![tactic(auto)]

// A running aggregate: a state that takes rows one at a time, is merged with another, and answers.
ghost use Rattle.std.specs.Prelude.{◌≡◌, ◌+◌, ◌<◌, ◌^◌, nat_abs, Some};
ghost use Rattle.rules.specs.Named.{named};
ghost use Rattle.running.specs.States.{distinct_of, repeats_of, size_if, amount_of, combine_of, empty_of, start_of, value_of, take_of, add_to, Room, merge_of, RoomForBoth, finish_of};

use rules::Name;

/// What the rows so far came to: their count, sum, least or greatest; and the v taken last, None in a count of rows where it is null.
#[derive(Clone, Copy, Debug, PartialEq, Eq)]
pub struct Taken {
    pub value: i64,
    pub last: Option<i64>,
}

/// The aggregate's name, and what it has taken, None before the first row that is taken.
#[derive(Clone, Copy, Debug, PartialEq, Eq)]
pub struct Running {
    pub name: Name,
    pub taken: Option<Taken>,
}

// Whether the name is that of a distinct aggregate.
#[tactic(auto, unfolding(crate::specs::States::distinct_of))]
fn is_distinct(name: Name) -> bool
    ensures { result ≡ distinct_of name }
{
    matches!(name, Name::DistinctSum | Name::DistinctCount)
}

/// Whether the number is that of a distinct aggregate; by its number, since a `Name` would take fewer values.
pub fn distinct(name: u8) -> bool
    ensures { result ≡ distinct_of (named name) }
{
    is_distinct(Name::from(name))
}

// By how much a row with these cells v and c counts, None where it is not taken.
#[tactic(auto, unfolding(crate::specs::States::amount_of, crate::specs::States::size_if, crate::specs::States::product_if))]
fn amount(name: Name, v: Option<i64>, c: Option<i64>) -> Option<i64>
    requires { size_if (amount_of name v c) < 2 ^ 63 }
    ensures { result ≡ amount_of name v c }
{
    match name {
        Name::Rows => Some(1),
        Name::Count | Name::DistinctCount => v.map(|_| 1),
        Name::Sum | Name::Least | Name::Greatest | Name::DistinctSum => v,
        Name::WeightedSum => Some(v? * c?),
        Name::WeightedCount => v.and(c),
        Name::Other(_) => c.and(v),
    }
}

// The value with one amount more.
#[tactic(auto, unfolding(crate::specs::States::combine_of))]
fn combine(name: Name, value: i64, x: i64) -> i64
    requires { nat_abs value + nat_abs x < 2 ^ 63 }
    ensures { result ≡ combine_of name value x }
{
    match name {
        Name::Least => value.min(x),
        Name::Greatest => value.max(x),
        _ => value + x,
    }
}

// The answer with no value, as the rule table has it: 0, or None for null.
#[tactic(auto, unfolding(crate::specs::States::empty_of))]
fn empty(name: Name) -> Option<i64>
    ensures { result ≡ empty_of name }
{
    match rules::entry(usize::from(u8::from(name)), rules::NO_VALUE) {
        0 => Some(0),
        _ => None,
    }
}

impl Running {
    /// The state of an aggregate that has taken nothing; by its number, since a `Name` would take fewer values.
    #[tactic(auto, unfolding(crate::specs::States::start_of))]
    pub fn new(name: u8) -> Running
        ensures { result ≡ start_of (named name) }
    {
        Running {
            name: Name::from(name),
            taken: None,
        }
    }

    // The value so far.
    #[tactic(auto, unfolding(crate::specs::States::value_of))]
    fn value(self) -> Option<i64>
        ensures { result ≡ value_of self }
    {
        self.taken.map(|taken| taken.value)
    }

    // Whether a distinct aggregate has taken v already: its values ascend, so v would be the last one.
    #[tactic(auto, unfolding(crate::specs::States::repeats_of, crate::specs::States::ends_with))]
    fn repeats(self, v: Option<i64>) -> bool
        ensures { result ≡ repeats_of self v }
    {
        is_distinct(self.name) && self.taken.is_some_and(|taken| taken.last == v)
    }

    // What is taken with one amount more, and the v that it is of; the first amount is the value itself.
    #[tactic(auto, unfolding(crate::specs::States::take_of, crate::specs::States::combine_if, crate::specs::States::value_of, crate::specs::States::size_if))]
    fn take(self, x: i64, last: Option<i64>) -> Taken
        requires { size_if (value_of self) + nat_abs x < 2 ^ 63 }
        ensures { record { name = self.name; taken = Some result } ≡ take_of self x last }
    {
        let value = match self.taken {
            Some(taken) => combine(self.name, taken.value, x),
            None => x,
        };
        Taken { value, last }
    }

    /// The state after one row more, by its cells v and c, None for null.
    #[tactic(auto, unfolding(crate::specs::States::add_to, crate::specs::States::add_amount, crate::specs::States::size_if))]
    pub fn add(self, v: Option<i64>, c: Option<i64>) -> Running
        requires { Room self v c }
        ensures { result ≡ add_to self v c }
    {
        // the name is not chosen with what is taken, so that it stays the same over all turns of a caller's loop
        let taken = match amount(self.name, v, c) {
            Some(x) if !self.repeats(v) => Some(self.take(x, v)),
            _ => self.taken,
        };
        Running { taken, ..self }
    }

    /// The state over the rows of both, unless distinct.
    #[tactic(auto, unfolding(crate::specs::States::merge_of, crate::specs::States::take_both, crate::specs::States::size_if, crate::specs::States::value_of))]
    pub fn merge(self, other: Running) -> Running
        requires { RoomForBoth self other }
        ensures { result ≡ merge_of self other }
    {
        match other.taken {
            Some(theirs) if !is_distinct(self.name) => Running {
                taken: Some(self.take(theirs.value, theirs.last)),
                ..self
            },
            _ => self,
        }
    }

    /// The state as it is, and the answer over the rows so far, None for null.
    #[tactic(auto, unfolding(crate::specs::States::finish_of))]
    pub fn finish(self) -> (Running, Option<i64>)
        ensures { result ≡ record { 0 = self; 1 = finish_of self } }
    {
        (self, self.value().or_else(|| empty(self.name)))
    }
}
