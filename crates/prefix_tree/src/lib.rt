// The left pass that the words of a sheet share (document 02, request 8): a tree whose nodes are the different prefixes of the words read so far, each
// with its left state. A word follows the nodes that are there; where there is none, one entry is looked up and a node is added.
#![tactic(auto)]

ghost use Rattle.std.specs.Prelude.{◌≡◌, ◌+◌, ◌-◌, ◌*◌, ◌<◌, ◌≤◌, length};
ghost use Rattle.speech.specs.Places.{frame_size};
ghost use Rattle.tables.specs.Words.{row_size};
ghost use Rattle.tables.specs.Siblings.{seek, Falling};
ghost use Rattle.passes.specs.Passes.{max_steps, Symbols, rows_at};
ghost use Rattle.prefix_tree.specs.Tree.{node_size, Room, next_of, symbol_of, Tree, Added};
ghost use Rattle.prefix_tree.specs.Sharing.{Descended, SharedPass};

use passes::Step;

// Words of a node: its latest child, the sibling before it, the symbol that leads to it, its left state.
pub const NODE: usize = 4;

// Where the left pass of a word stands: its node, how many nodes there are, and how many entries have been looked up.
#[derive(Clone, Copy)]
struct SharedStep {
    node: usize,
    nodes: usize,
    steps: usize,
}

// How many nodes there are after a pass, and how many entries have been looked up.
#[derive(Clone, Copy)]
pub struct Counts {
    pub nodes: usize,
    pub steps: usize,
}

// The node under the symbol `c` in the chain from `s` on, or 0.
fn find(tree: &[u16], s: usize, c: u16) -> usize
    requires { (node_size * s + node_size ≤ length tree.now) × Falling (next_of tree.now) s }
    ensures { result ≡ seek (length tree.now) (next_of tree.now) (symbol_of tree.now) s c }
{
    let mut k = s;
    while 0 < k {
        let at = NODE * k;
        if tree[at + 2] == c {
            return k;
        }
        k = usize::from(tree[at + 1]);
    }
    k
}

// Node `n` becomes the latest child of `q`, under the symbol `c`.
fn attach(tree: &mut [u16], q: usize, n: usize, c: u16, state: u16)
    requires { (q < n) × Room tree.old (n + 1) }
    ensures { Added tree.old q n c state tree.new }
{
    let to = NODE * n;
    let from = NODE * q;
    let next = tree[from];
    tree[to] = 0;
    tree[to + 1] = next;
    tree[to + 2] = c;
    tree[to + 3] = state;
    tree[from] = n as u16;
}

// From a node to its child under `c`, which is made where it is not there and its state is in range.
fn descend(
    words: &[u16],
    rows: usize,
    count: usize,
    tree: &mut [u16],
    p: SharedStep,
    c: u8,
) -> Option<SharedStep>
    requires { (rows + row_size * count ≤ length words.now) × (c < row_size) × Tree tree.old p.nodes count × (p.node < p.nodes) × Room tree.old (p.nodes + 1) × (p.steps < max_steps) }
    ensures { Descended words.now rows count tree.old p c result tree.new }
{
    let q = p.node;
    let n = p.nodes;
    let first = usize::from(tree[NODE * q]);
    let child = find(tree, first, c as u16);
    if child != 0 {
        return Some(SharedStep { node: child, ..p });
    }
    let state = tree[NODE * q + 3];
    let next = passes::look_up(
        words,
        rows,
        Step {
            state,
            steps: p.steps,
        },
        c,
    );
    let entry = next.state;
    if count <= usize::from(entry) { // 16 in the left pass
        return None;
    }
    attach(tree, q, n, c as u16, entry);
    Some(SharedStep {
        node: n,
        nodes: n + 1,
        steps: next.steps,
    })
}

// The left pass over a frame reads all positions but the last; at i stands the state after position i - 1. The tree has `nodes` nodes before it,
// and the count goes on from `steps`; there are none after it where a state is out of range.
pub fn shared_pass(
    words: &[u16],
    rows: usize,
    count: usize,
    frame: &[u8],
    tree: &mut [u16],
    nodes: usize,
    steps: usize,
    left: &mut [u16],
) -> Option<Counts>
    requires { (rows + row_size * count ≤ length words.now) × (2 ≤ length frame.now) × (length frame.now ≤ frame_size) × Symbols frame.now × (length frame.now ≤ length left.old) × Tree tree.old nodes count × Room tree.old (nodes + (length frame.now - 1)) × (steps + frame_size ≤ max_steps) }
    ensures { SharedPass (rows_at words.now rows count) frame.now tree.old nodes steps left.old tree.new left.new result }
{
    let mut p = SharedStep {
        node: 0,
        nodes,
        steps,
    };
    for i in 0..frame.len() - 1 {
        p = descend(words, rows, count, &mut *tree, p, frame[i])?;
        left[i + 1] = tree[NODE * p.node + 3];
    }
    Some(Counts {
        nodes: p.nodes,
        steps: p.steps,
    })
}
