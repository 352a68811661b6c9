// How many states the patterns of one side have, counted in a small tree of its own: no lent memory is touched.
// It is a compressed trie, whose nodes are patterns and not states: node i + 1 is pattern i, and node 0 the empty string. A pattern follows
// the nodes before it as long as they have its symbols, and becomes a child of the last of them, under the depth and the symbol at which it
// leaves that one. The rest of its symbols are its new states.
#![tactic(auto)]

ghost use Rattle.std.specs.Prelude.{◌≡◌, ◌+◌, ◌*◌, ◌<◌, length, get_or, set};
ghost use Rattle.tables.specs.Words.{row_size};
ghost use Rattle.tables.specs.Siblings.{seek, Falling};
ghost use Rattle.rules.specs.Limits.{max_pattern};
ghost use Rattle.side.specs.Patterns.{pattern_at, patterns_of, Patterns, state_count};
ghost use Rattle.count.specs.Chains.{at, child_of, Room, Linked, Chains};
ghost use Rattle.count.specs.Tree.{key_of, node_at, has_symbol, next_node, Tree, Followed, Counted};

// A node for each pattern, and one for the empty string.
const NODES: usize = rules::MAX_RULES + 1;

// Where a pattern branches off from the nodes before it: the last node that it follows, and how many of its symbols it has in common with it.
#[derive(Clone, Copy)]
struct Branch {
    node: usize,
    depth: usize,
}

// ---- the children of a node, each under its key

// The key of the symbol c at a depth.
fn key_of(depth: usize, c: u8) -> u16
    requires { (depth < max_pattern) × (c < row_size) }
    ensures { result ≡ key_of depth c }
{
    (tables::ROW * depth + usize::from(c)) as u16
}

// The node under the key `c` in the chain from `s` on, or 0.
fn find(next: &[u16], key: &[u16], s: usize, c: u16) -> usize
    requires { (s < length next.now) × (s < length key.now) × Falling (at next.now) s }
    ensures { result ≡ seek (length next.now) (at next.now) (at key.now) s c }
{
    let mut k = s;
    while 0 < k {
        if key[k] == c {
            return k;
        }
        k = usize::from(next[k]);
    }
    k
}

// Node `n` becomes the latest child of `q`.
fn attach(first: &mut [u16], next: &mut [u16], key: &mut [u16], q: usize, n: usize, c: u16)
    requires { (q < n) × (n < 65536) × Room (n + 1) first.old next.old key.old }
    ensures first { first.new ≡ set first.old q n }
    ensures next { next.new ≡ set next.old n (get_or first.old q 0) }
    ensures key { key.new ≡ set key.old n c }
{
    next[n] = first[q];
    key[n] = c;
    first[q] = n as u16;
}

// ---- one pattern

// Whether node q has the symbol c at depth m.
fn has_symbol(pats: &[u8], lens: &[u8], q: usize, m: usize, c: u8) -> bool
    requires { Patterns pats.now lens.now q × (m < max_pattern) }
    ensures { result ≡ has_symbol (node_at pats.now lens.now q) m c }
{
    if q == 0 {
        return false;
    }
    let i = q - 1;
    m < usize::from(lens[i]) && c == pats[rules::MAX_PATTERN * i + m]
}

// The node that a pattern follows after node q with the symbol c at depth m: q itself, or a child of it; 0 where there is none.
fn next_node(
    first: &[u16],
    next: &[u16],
    key: &[u16],
    pats: &[u8],
    lens: &[u8],
    q: usize,
    m: usize,
    c: u8,
) -> usize
    requires { Patterns pats.now lens.now q × (m < max_pattern) × (c < row_size) × Linked first.now next.now key.now q }
    ensures { result ≡ next_node (node_at pats.now lens.now q) (child_of first.now next.now key.now) q m c }
{
    if has_symbol(pats, lens, q, m, c) {
        return q;
    }
    find(next, key, usize::from(first[q]), key_of(m, c))
}

// Where pattern i branches off from the nodes of the patterns before it.
fn follow(first: &[u16], next: &[u16], key: &[u16], pats: &[u8], lens: &[u8], i: usize) -> Branch
    requires { Patterns pats.now lens.now (i + 1) × Chains first.now next.now key.now (i + 1) × Tree (patterns_of pats.now lens.now i) (child_of first.now next.now key.now) }
    ensures { Followed (patterns_of pats.now lens.now i) (pattern_at pats.now lens.now i) result }
{
    let a = rules::MAX_PATTERN * i;
    let len = usize::from(lens[i]);
    let mut q: usize = 0;
    for (m, &c) in pats[a..a + len].iter().enumerate() {
        let r = next_node(first, next, key, pats, lens, q, m, c);
        if r == 0 {
            return Branch { node: q, depth: m };
        }
        q = r;
    }
    Branch {
        node: q,
        depth: len,
    }
}

// Pattern i goes into the tree, and its new states are counted to those of the patterns before it.
fn count_one(
    first: &mut [u16],
    next: &mut [u16],
    key: &mut [u16],
    pats: &[u8],
    lens: &[u8],
    i: usize,
    count: usize,
) -> usize
    requires { Patterns pats.now lens.now (i + 1) × Room (i + 2) first.old next.old key.old × Counted pats.now lens.now i first.old next.old key.old count first.old next.old key.old }
    ensures { Counted pats.now lens.now (i + 1) first.old next.old key.old result first.new next.new key.new }
{
    let s = follow(first, next, key, pats, lens, i);
    let m = s.depth;
    let len = usize::from(lens[i]);
    if len <= m {
        return count;
    }
    let c = pats[rules::MAX_PATTERN * i + m];
    attach(first, next, key, s.node, i + 1, key_of(m, c));
    count + (len - m)
}

// ---- all patterns

fn count_all(
    first: &mut [u16],
    next: &mut [u16],
    key: &mut [u16],
    pats: &[u8],
    lens: &[u8],
    n: usize,
) -> usize
    requires { Patterns pats.now lens.now n × Room (n + 1) first.old next.old key.old × Chains first.old next.old key.old 1 }
    ensures { result ≡ state_count pats.now lens.now n }
{
    let mut count: usize = 1;
    for i in 0..n {
        count = count_one(first, next, key, pats, lens, i, count);
    }
    count
}

// How many states the first n patterns have.
pub fn count_states(pats: &[u8], lens: &[u8], n: usize) -> usize
    requires { Patterns pats.now lens.now n }
    ensures { result ≡ state_count pats.now lens.now n }
{
    let mut first = [0u16; NODES];
    let mut next = [0u16; NODES];
    let mut key = [0u16; NODES];
    count_all(&mut first, &mut next, &mut key, pats, lens, n)
}
