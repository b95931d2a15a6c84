#![tactic(auto)]

// The shape of a byte string: its nodes, one behind the other, and whether they make one tree.
// A node is named by its string and its place in it, as the definitions name it: the rest of the string would be another string.
// n defaults or aggregates are named by the place of the first, as their laws go by it.
ghost use Rattle.std.specs.Prelude.{◌≡◌, ℕ, ◌+◌, ◌*◌, ◌<◌, ◌≤◌, length, get_or};
ghost use Rattle.node_bytes.specs.Nodes.{byte, cell_good, cells_good, aggregate_good, aggregates_good, join_size, group_size, join_good, group_good, size_if, node_size, inputs};
ghost use Rattle.node_bytes.specs.Tags.{byte_in};
ghost use Rattle.shapes.specs.Shapes.{size_of, pads, shape_of, start_of};

use node_bytes::Tag;
use rules::Name;

/// How many nodes and tables the one tree of a byte string has.
#[derive(Clone, Copy, Debug, PartialEq, Eq)]
pub struct Shape {
    pub nodes: usize,
    pub leaves: usize,
}

/// A byte string with the places where its first 12 nodes start.
#[derive(Clone, Copy)]
pub struct Nodes<'a> {
    pub bytes: &'a [u8],
    pub starts: [usize; 12],
    pub ghost placed: { (k : ℕ) → k < 12 → get_or starts k 0 ≡ start_of bytes.now k },
}

// Whether the nine bytes from a place on are a default's. The mark is a byte here: this is the test that it is 0 or 1.
#[tactic(auto, unfolding(node_bytes::specs::Nodes::cell_good))]
fn cell_good(s: &[u8], at: usize) -> bool
    requires { at + 9 ≤ length s.now }
    ensures { result ≡ cell_good s.now at }
{
    match s[at] {
        0 => true,
        1 => node_bytes::word(s, at + 1) == 0,
        _ => false,
    }
}

// Whether n defaults stand one behind the other from a place on.
fn cells_good(s: &[u8], from: usize, n: usize) -> bool
    requires { from + 9 * n ≤ length s.now }
    ensures { result ≡ cells_good s.now from n }
{
    (0..n).all(|i| cell_good(s, from + 9 * i))
}

// Whether the three bytes from a place on are an aggregate's.
#[tactic(auto, using(crate::proofs::Ways::aggregate_ways), unfolding(node_bytes::specs::Nodes::aggregate_good))]
fn aggregate_good(s: &[u8], at: usize) -> bool
    requires { at + 3 ≤ length s.now }
    ensures { result ≡ aggregate_good s.now at }
{
    if let Name::Other(_) = Name::from(s[at]) {
        return false;
    }
    match rules::entry(s[at] as usize, rules::COLUMNS) {
        0 => s[at + 1] == 0 && s[at + 2] == 0,
        1 => s[at + 2] == 0,
        _ => true,
    }
}

// Whether n aggregates stand one behind the other from a place on.
fn aggregates_good(s: &[u8], from: usize, n: usize) -> bool
    requires { from + 3 * n ≤ length s.now }
    ensures { result ≡ aggregates_good s.now from n }
{
    (0..n).all(|i| aggregate_good(s, from + 3 * i))
}

// Whether a join has defaults only on the sides that its kind pads.
#[tactic(auto, unfolding(crate::specs::Shapes::pads))]
fn pads(tag: Tag, lefts: usize, rights: usize) -> bool
    ensures { result ≡ pads tag lefts rights }
{
    match tag {
        Tag::FullOuter => true,
        Tag::LeftOuter => lefts == 0,
        _ => lefts == 0 && rights == 0,
    }
}

// The bytes of the join at a place, if a right one is there. It and `group_size` are out of line, so that `shape_of` and `Nodes::new` measure a table in line.
#[inline(never)]
#[tactic(auto, using(crate::proofs::Ways::size_ways), unfolding(node_bytes::specs::Nodes::join_size))]
fn join_size(s: &[u8], at: usize) -> Option<usize>
    requires inside { at < length s.now }
    requires from_inner { 1 ≤ byte s.now at }
    requires to_full { byte s.now at ≤ 3 }
    ensures { result ≡ size_of (size_if s.now at (join_size s.now at) (join_good s.now at)) }
{
    let node = &s[at..];
    let &[tag, pairs, lefts, rights, ..] = node else {
        return None;
    };
    let pairs = pairs as usize;
    let lefts = lefts as usize;
    let rights = rights as usize;
    let size = 4 + 2 * pairs + 9 * (lefts + rights);
    if node.len() < size {
        return None;
    }
    let good = pads(Tag::from(tag), lefts, rights)
        && cells_good(s, at + 4 + 2 * pairs, lefts + rights);
    good.then_some(size)
}

// The bytes of the grouping at a place, if a right one is there.
#[inline(never)]
#[tactic(auto, using(crate::proofs::Ways::size_ways), unfolding(node_bytes::specs::Nodes::group_size, node_bytes::specs::Nodes::group_good))]
fn group_size(s: &[u8], at: usize) -> Option<usize>
    requires { at < length s.now }
    ensures { result ≡ size_of (size_if s.now at (group_size s.now at) (group_good s.now at)) }
{
    let node = &s[at..];
    let &[_, columns, aggregates, ..] = node else {
        return None;
    };
    let columns = columns as usize;
    let aggregates = aggregates as usize;
    let size = 3 + columns + 3 * aggregates;
    if node.len() < size {
        return None;
    }
    aggregates_good(s, at + 3 + columns, aggregates).then_some(size)
}

// The bytes of the node at a place, if one is there.
#[inline]
#[tactic(auto, using(crate::proofs::Ways::kind_ways))]
fn node_size(s: &[u8], at: usize) -> Option<usize>
    ensures { result ≡ size_of (node_size s.now at) }
{
    match Tag::from(*s.get(at)?) {
        Tag::Table => (at + 3 <= s.len()).then_some(3),
        Tag::Inner | Tag::LeftOuter | Tag::FullOuter => join_size(s, at),
        Tag::Grouping => group_size(s, at),
        Tag::Other => None,
    }
}

// How many inputs a node takes.
#[tactic(auto, unfolding(node_bytes::specs::Nodes::inputs))]
fn takes(tag: Tag) -> usize
    ensures { result ≡ inputs (byte_in tag) }
{
    match tag {
        Tag::Table => 0,
        Tag::Grouping => 1,
        _ => 2,
    }
}

/// The shape of a byte string of any length, in one pass that counts the trees that no node has taken yet.
#[tactic(auto, using(crate::proofs::Ways::scan_ways), unfolding(crate::specs::Shapes::ended))]
pub fn shape_of(s: &[u8]) -> Option<Shape>
    ensures { result ≡ shape_of s.now }
{
    let mut at = 0;
    let mut trees: usize = 0;
    let mut nodes = 0;
    let mut leaves = 0;
    // a turn moves on by a node's size, so no range counts the places
    while at < s.len() {
        let size = node_size(s, at)?;
        let tag = Tag::from(s[at]);
        trees = trees.checked_sub(takes(tag))? + 1;
        nodes += 1;
        if tag == Tag::Table {
            leaves += 1;
        }
        at += size;
    }
    (trees == 1).then_some(Shape { nodes, leaves })
}

impl<'a> Nodes<'a> {
    /// A byte string of any length, with where each of its first 12 nodes starts.
    #[tactic(auto, using(crate::proofs::Ways::start_ways))]
    pub fn new(bytes: &'a [u8]) -> Nodes<'a>
        ensures { result.bytes.now ≡ bytes.now }
    {
        let mut starts = [0; 12];
        let mut at = 0;
        for k in 1..12 {
            // from the end on there is nothing to measure, and most plans end long before 12 nodes
            if at < bytes.len() {
                at += node_size(bytes, at).unwrap_or(0);
            }
            starts[k] = at;
        }
        Nodes { bytes, starts }
    }
}
