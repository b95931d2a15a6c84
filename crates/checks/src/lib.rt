#![tactic(auto)]

// The check of a plan: refusals 1 to 4, in that order over the whole plan.
// A node is named by its string and its place in it, as the definitions name it.
ghost use Rattle.std.specs.Prelude.{◌≡◌, ◌+◌, ◌<◌, ◌≤◌, length};
ghost use Rattle.meaning.specs.Check.{Checks};
ghost use Rattle.refusals.specs.Numbers.{number_if, number_of};
ghost use Rattle.node_bytes.specs.Nodes.{join_size, group_size};
ghost use Rattle.checks.specs.Verdicts.{lesser, verdict};
ghost use Rattle.checks.specs.Answering.{RootOf};
ghost use Rattle.checks.specs.Joins.{RefusesJoin};
ghost use Rattle.checks.specs.Groups.{RefusesGroup};
ghost use Rattle.checks.specs.Describing.{Standing, Describes, DescribesJoin, DescribesGroup, DescribesTable};

use node_bytes::Tag;
use refusals::Refusal;
use shapes::Nodes;

// What a node's parent needs of it: the refusal of its subtree, its width and kinds, numbers as `node_checks` takes them, the number of its
// subtree's first node, and the width of its left input where it is a join, else 0: no Option, since `group_weights` takes the 0.
// `kinds` stands before `split`, so that a table's sixteen zeros are written in one, as its parent reads them.
#[derive(Clone, Copy)]
struct Node {
    refusal: Option<Refusal>,
    width: usize,
    first: usize,
    kinds: [u8; 16],
    split: usize,
}

// Of two refusals the one that comes first.
#[tactic(auto, unfolding(crate::specs::Verdicts::lesser))]
fn lesser_of(a: Option<Refusal>, b: Option<Refusal>) -> Option<Refusal>
    ensures { number_if result ≡ lesser (number_if a) (number_if b) }
{
    match (a, b) {
        (Some(a), Some(b)) => Some(a.min(b)),
        _ => a.or(b),
    }
}

// The refusal of a node whose inputs have the refusal so far, by its own tests of 2, 3 and 4.
#[tactic(auto, unfolding(crate::specs::Verdicts::verdict))]
fn verdict_of(sofar: Option<Refusal>, within: bool, columns: bool, weights: bool) -> Option<Refusal>
    ensures { number_if result ≡ verdict (number_if sofar) within columns weights }
{
    if !within || sofar == Some(Refusal::Limits) {
        Some(Refusal::Limits)
    } else if !columns || sofar == Some(Refusal::Columns) {
        Some(Refusal::Columns)
    } else if !weights {
        Some(Refusal::Weights)
    } else {
        sofar
    }
}

// A table, the n-th node: its columns are plain.
fn table_node(n: usize, width: usize) -> Node
    ensures { DescribesTable n width result }
{
    let within = node_checks::up_to(16, width);
    Node {
        refusal: verdict_of(None, within, true, true),
        width,
        first: n,
        split: 0,
        kinds: [0u8; 16],
    }
}

// The refusal of a join above its inputs. It is out of line, so that its frame is no part of `describe`'s, which stands once for
// each level of a plan.
#[inline(never)]
fn join_refusal(s: &[u8], at: usize, l: Node, r: Node) -> Option<Refusal>
    requires { (at + join_size s.now at ≤ length s.now) × ((l.width < 65536) × (r.width < 65536)) }
    ensures { RefusesJoin s.now at l r result }
{
    let left = l.kinds;
    let right = r.kinds;
    let sofar = lesser_of(l.refusal, r.refusal);
    let within = node_checks::join_within(s, at, l.width, r.width);
    let columns = node_checks::join_columns(s, at, l.width, r.width);
    let weights = node_checks::join_weights(s, at, &left, &right);
    verdict_of(sofar, within, columns, weights)
}

// A join above its inputs. Of these only kinds are lent, and by copies, so that the nodes stay where they were made.
fn join_node(s: &[u8], at: usize, l: Node, r: Node) -> Node
    requires { (at + join_size s.now at ≤ length s.now) × ((l.width < 65536) × (r.width < 65536)) }
    ensures { DescribesJoin s.now at l r result }
{
    let right = r.kinds;
    Node {
        refusal: join_refusal(s, at, l, r),
        width: l.width + r.width,
        first: l.first,
        split: l.width,
        kinds: node_checks::join_kinds(l.kinds, l.width, &right, r.width),
    }
}

// The refusal of a grouping above its input; out of line as a join's is.
#[inline(never)]
fn group_refusal(s: &[u8], at: usize, i: Node) -> Option<Refusal>
    requires { at + group_size s.now at ≤ length s.now }
    ensures { RefusesGroup s.now at i result }
{
    let below = i.kinds;
    let within = node_checks::group_within(s, at);
    let columns = node_checks::group_columns(s, at, i.width);
    let weights = node_checks::group_weights(s, at, i.split, &below);
    verdict_of(i.refusal, within, columns, weights)
}

// A grouping above its input, of which the kinds are lent as a join's are.
#[tactic(auto, unfolding(node_bytes::specs::Nodes::group_size))]
fn group_node(s: &[u8], at: usize, i: Node) -> Node
    requires { at + group_size s.now at ≤ length s.now }
    ensures { DescribesGroup s.now at i result }
{
    let below = i.kinds;
    Node {
        refusal: group_refusal(s, at, i),
        width: s[at + 1] as usize + s[at + 2] as usize,
        first: i.first,
        split: 0,
        kinds: node_checks::group_kinds(s, at, &below),
    }
}

// The n-th node of a plan, from its inputs: the right or only one stands just before it, the left one before the right's subtree.
// A table returns first and a grouping takes what is a join's right input, so that a level's frame holds two nodes and no third.
fn describe(nodes: &Nodes, n: usize) -> Node
    requires { Standing nodes.now.bytes.now n }
    ensures { Describes nodes.now.bytes.now n result }
{
    let s = nodes.bytes;
    let at = nodes.starts[n];
    let tag = Tag::from(s[at]);
    if tag == Tag::Table {
        return table_node(n, s[at + 2] as usize);
    }
    let right = describe(nodes, n - 1);
    if tag == Tag::Grouping {
        return group_node(s, at, right);
    }
    let left = describe(nodes, right.first - 1);
    join_node(s, at, left, right)
}

/// What the plan of a byte string is to a job where it passes: its count of nodes and its root's width.
#[derive(Clone, Copy, Debug, PartialEq, Eq)]
pub struct Root {
    pub nodes: usize,
    pub width: usize,
}

/// The node count and width of the plan of a byte string that passes, else the first of 1, 2, 3, 4 that holds.
pub fn root_of(s: &[u8]) -> Result<Root, Refusal>
    ensures { RootOf s.now result }
{
    let shape = shapes::shape_of(s).ok_or(Refusal::NoPlan)?;
    if 12 < shape.nodes || 3 < shape.leaves {
        return Err(Refusal::Limits);
    }
    let root = describe(&Nodes::new(s), shape.nodes - 1);
    match root.refusal {
        Some(refusal) => Err(refusal),
        None => Ok(Root {
            nodes: shape.nodes,
            width: root.width,
        }),
    }
}

/// Whether a byte string is a plan's that passes, else the first of 1, 2, 3, 4 that holds.
#[tactic(auto, using(crate::specs::Answering::root_checks))]
pub fn check(s: &[u8]) -> Result<(), Refusal>
    ensures { Checks s.now (number_of result) }
{
    root_of(s)?;
    Ok(())
}
