#![tactic(auto)]

// Refusals 2, 3 and 4 at one node of a byte string, and the kinds of its columns. Kinds are 0 for plain and 1 for weight, 16 at the most:
// numbers, since what is promised here holds of any sixteen bytes; and the left width of the join below is 0 where none is below, as in `left_width`.
// A node is named by its string and its place in it, as the definitions name it; n pairs, defaults or aggregates by the place of the first.
ghost use Rattle.std.specs.Prelude.{◌≡◌, ◌+◌, ◌*◌, ◌<◌, ◌≤◌, ltb, length, get_or};
ghost use Rattle.std.specs.List.{list_all};
ghost use Rattle.meaning.specs.Limits.{up_to};
ghost use Rattle.meaning.specs.Check.{apart};
ghost use Rattle.node_bytes.specs.Nodes.{join_size, group_size};
ghost use Rattle.node_bytes.specs.Tags.{byte_in};
ghost use Rattle.node_checks.specs.Numbers.{join_within_at, counts_right, join_columns_at, join_weights_at, group_within_at, group_columns_at, group_weights_at, JoinKinds, GroupKinds};
ghost use Rattle.node_checks.specs.Columns.{pairs_at, alone, all_alone, read_at, reads_at};
ghost use Rattle.node_checks.specs.Weights.{default_at, defaults_at, weight_at, weights_at, aggregate_kind_at};

use node_bytes::Tag;

// Whether n pairs from a place on name columns of inputs that are l and r wide.
fn pairs_there(s: &[u8], from: usize, n: usize, l: usize, r: usize) -> bool
    requires { from + 2 * n ≤ length s.now }
    ensures { result ≡ pairs_at s.now from n l r }
{
    (0..n).all(|i| (s[from + 2 * i] as usize) < l && (s[from + 2 * i + 1] as usize) < r)
}

// Whether columns are all below w.
fn columns_there(columns: &[u8], w: usize) -> bool
    ensures { result ≡ list_all (λ column. ltb column w) columns.now }
{
    columns.iter().all(|column| (*column as usize) < w)
}

// Whether the i-th of some columns is none of those behind it.
fn alone(columns: &[u8], i: usize) -> bool
    requires { i < length columns.now }
    ensures { result ≡ alone columns.now i }
{
    !columns[i + 1..].contains(&columns[i])
}

// Whether columns are all different.
fn all_different(columns: &[u8]) -> bool
    ensures { result ≡ all_alone columns.now }
{
    (0..columns.len()).all(|i| alone(columns, i))
}

// Whether the columns that one aggregate reads are below w.
#[tactic(auto, unfolding(crate::specs::Columns::read_at))]
fn read_there(s: &[u8], at: usize, w: usize) -> bool
    requires { at + 3 ≤ length s.now }
    ensures { result ≡ read_at s.now w at }
{
    let columns = rules::entry(s[at] as usize, rules::COLUMNS);
    (columns == 0 || (s[at + 1] as usize) < w) && (columns < 2 || (s[at + 2] as usize) < w)
}

// Whether the columns that n aggregates from a place on read are below w.
fn reads_there(s: &[u8], from: usize, n: usize, w: usize) -> bool
    requires { from + 3 * n ≤ length s.now }
    ensures { result ≡ reads_at s.now from n w }
{
    (0..n).all(|i| read_there(s, from + 3 * i, w))
}

// Whether a default is null, or in the range of its kind. The mark is a byte here, which was tested to be 0 or 1 before.
#[tactic(auto, unfolding(crate::specs::Weights::default_at))]
fn default_right(s: &[u8], at: usize, kind: u8) -> bool
    requires { at + 9 ≤ length s.now }
    ensures { result ≡ default_at s.now at kind }
{
    if s[at] == 1 {
        return true;
    }
    let number = node_bytes::word(s, at + 1);
    if kind == 0 {
        number <= 4294967294
    } else {
        number == 0 || number == 2
    }
}

// Whether n defaults from a place on are right for the kinds from the first on.
fn defaults_right(s: &[u8], from: usize, n: usize, kinds: &[u8; 16]) -> bool
    requires { from + 9 * n ≤ length s.now }
    ensures { result ≡ defaults_at s.now from n kinds.now 0 }
{
    (0..n).all(|i| default_right(s, from + 9 * i, kind_of(kinds, i)))
}

// Whether two columns stand in different inputs, of which the left one is l wide.
#[tactic(auto, unfolding(meaning::specs::Check::apart))]
fn apart(l: usize, v: usize, c: usize) -> bool
    ensures { result ≡ apart l v c }
{
    if v < l { l <= c } else { c < l }
}

// Whether an aggregate is not weighted, or its weight is in its place and of its kind; l is the left width of the join below, else 0.
#[tactic(auto, unfolding(crate::specs::Weights::weight_at))]
fn weight_right(s: &[u8], at: usize, l: usize, kinds: &[u8; 16]) -> bool
    requires { at + 3 ≤ length s.now }
    ensures { result ≡ weight_at s.now l kinds.now at }
{
    let columns = rules::entry(s[at] as usize, rules::COLUMNS);
    let c = s[at + 2] as usize;
    columns < 2 || (0 < l && kind_of(kinds, c) == 1 && apart(l, s[at + 1] as usize, c))
}

// Whether the weights of n aggregates from a place on are right.
fn weights_right(s: &[u8], from: usize, n: usize, l: usize, kinds: &[u8; 16]) -> bool
    requires { from + 3 * n ≤ length s.now }
    ensures { result ≡ weights_at s.now from n l kinds.now }
{
    (0..n).all(|i| weight_right(s, from + 3 * i, l, kinds))
}

// The kind of a column, plain where there is no such column.
fn kind_of(kinds: &[u8; 16], i: usize) -> u8
    ensures { result ≡ get_or kinds.now i 0 }
{
    kinds.get(i).copied().unwrap_or(0)
}

// The kind of an aggregate over columns of these kinds.
#[tactic(auto, unfolding(crate::specs::Weights::aggregate_kind_at))]
fn aggregate_kind(s: &[u8], at: usize, kinds: &[u8; 16]) -> u8
    requires { at + 3 ≤ length s.now }
    ensures { result ≡ aggregate_kind_at s.now kinds.now at }
{
    if rules::entry(s[at] as usize, rules::KIND) == 1 {
        1
    } else {
        kind_of(kinds, s[at + 1] as usize)
    }
}

/// Whether a number is at least 1 and at most `most`.
#[tactic(auto, unfolding(meaning::specs::Limits::up_to))]
pub fn up_to(most: usize, n: usize) -> bool
    ensures { result ≡ up_to most n }
{
    (1..=most).contains(&n)
}

/// Whether 2 does not hold at a join whose inputs are l and r wide.
#[tactic(auto, unfolding(node_bytes::specs::Nodes::join_size, crate::specs::Numbers::join_within_at, meaning::specs::Limits::most_columns, meaning::specs::Limits::most_pairs))]
pub fn join_within(s: &[u8], at: usize, l: usize, r: usize) -> bool
    requires { (at + join_size s.now at ≤ length s.now) × ((l < 65536) × (r < 65536)) }
    ensures { result ≡ join_within_at s.now at l r }
{
    up_to(16, l + r) && up_to(4, s[at + 1] as usize)
}

// Whether each padded side has as many defaults as columns.
#[tactic(auto, unfolding(crate::specs::Numbers::counts_right))]
fn counts_right(tag: Tag, lefts: usize, l: usize, rights: usize, r: usize) -> bool
    ensures { result ≡ counts_right (byte_in tag) lefts l rights r }
{
    match tag {
        Tag::Table | Tag::Inner => true,
        Tag::FullOuter => lefts == l && rights == r,
        _ => rights == r,
    }
}

/// Whether 3 does not hold at a join whose inputs are l and r wide.
#[tactic(auto, using(crate::specs::Numbers::counts_said), unfolding(node_bytes::specs::Nodes::join_size, crate::specs::Numbers::join_columns_at))]
pub fn join_columns(s: &[u8], at: usize, l: usize, r: usize) -> bool
    requires { at + join_size s.now at ≤ length s.now }
    ensures { result ≡ join_columns_at s.now at l r }
{
    let tag = Tag::from(s[at]);
    pairs_there(s, at + 4, s[at + 1] as usize, l, r)
        && counts_right(tag, s[at + 2] as usize, l, s[at + 3] as usize, r)
}

/// Whether 4 does not hold at a join whose inputs have these kinds.
#[tactic(auto, unfolding(node_bytes::specs::Nodes::join_size, crate::specs::Numbers::join_weights_at))]
pub fn join_weights(s: &[u8], at: usize, left: &[u8; 16], right: &[u8; 16]) -> bool
    requires { at + join_size s.now at ≤ length s.now }
    ensures { result ≡ join_weights_at s.now at left.now right.now }
{
    let lefts = s[at + 2] as usize;
    let rights = s[at + 3] as usize;
    let from = at + 4 + 2 * (s[at + 1] as usize);
    defaults_right(s, from, lefts, left) && defaults_right(s, from + 9 * lefts, rights, right)
}

/// The kinds of a join's columns over inputs of these kinds, l and r wide.
pub fn join_kinds(left: [u8; 16], l: usize, right: &[u8; 16], r: usize) -> [u8; 16]
    requires { (l < 65536) × (r < 65536) }
    ensures { JoinKinds left l right.now r result }
{
    let mut out = left;
    if l + r <= 16 {
        // kind by kind: the library's copy calls `memcpy`, and of names from outside the archive asks for `memset` alone
        for i in 0..r {
            out[l + i] = kind_of(right, i);
        }
    }
    out
}

/// Whether 2 does not hold at a grouping.
#[tactic(auto, unfolding(node_bytes::specs::Nodes::group_size, crate::specs::Numbers::group_within_at, meaning::specs::Limits::most_columns))]
pub fn group_within(s: &[u8], at: usize) -> bool
    requires { at + group_size s.now at ≤ length s.now }
    ensures { result ≡ group_within_at s.now at }
{
    up_to(16, s[at + 1] as usize + s[at + 2] as usize)
}

/// Whether 3 does not hold at a grouping over w columns.
#[tactic(auto, using(crate::specs::Steps::group_columns_parted), unfolding(node_bytes::specs::Nodes::group_size))]
pub fn group_columns(s: &[u8], at: usize, w: usize) -> bool
    requires { at + group_size s.now at ≤ length s.now }
    ensures { result ≡ group_columns_at s.now at w }
{
    let behind = at + 3 + s[at + 1] as usize;
    let columns = &s[at + 3..behind];
    columns_there(columns, w)
        && all_different(columns)
        && reads_there(s, behind, s[at + 2] as usize, w)
}

/// Whether 4 does not hold at a grouping over columns of these kinds; l is the left width of the join below, else 0.
#[tactic(auto, unfolding(node_bytes::specs::Nodes::group_size, crate::specs::Numbers::group_weights_at))]
pub fn group_weights(s: &[u8], at: usize, l: usize, kinds: &[u8; 16]) -> bool
    requires { at + group_size s.now at ≤ length s.now }
    ensures { result ≡ group_weights_at s.now at l kinds.now }
{
    let columns = s[at + 1] as usize;
    let aggregates = s[at + 2] as usize;
    weights_right(s, at + 3 + columns, aggregates, l, kinds)
}

/// The kinds of a grouping's columns over columns of these kinds.
#[tactic(auto, unfolding(node_bytes::specs::Nodes::group_size))]
pub fn group_kinds(s: &[u8], at: usize, below: &[u8; 16]) -> [u8; 16]
    requires { at + group_size s.now at ≤ length s.now }
    ensures { GroupKinds s.now at below.now result }
{
    let columns = s[at + 1] as usize;
    let aggregates = s[at + 2] as usize;
    let mut out = [0u8; 16];
    if columns + aggregates <= 16 {
        for i in 0..columns {
            out[i] = kind_of(below, s[at + 3 + i] as usize);
        }
        for k in 0..aggregates {
            out[columns + k] = aggregate_kind(s, at + 3 + columns + 3 * k, below);
        }
    }
    out
}
