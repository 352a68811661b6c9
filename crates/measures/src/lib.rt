// The number of names, in one pass over the rows: each state after its successors.
#![tactic(auto)]

ghost use Rattle.std.specs.Prelude.{◌≡◌, ◌+◌, ◌-◌, ◌<◌, min, length};
ghost use Rattle.automaton.specs.Automaton.{rows_of};
ghost use Rattle.automaton.specs.Totals.{total};
ghost use Rattle.measures.specs.Measures.{Looked, CountAsks, Depth, DeepAsks, Under};

fn count_at(counts: &[u16], x: usize) -> usize
    requires { x < length counts.now }
    ensures { Looked counts.now x result }
{
    if x == 0 {
        return 0;
    }
    usize::from(counts[x])
}

// The number of names from state q, 1,001 where it is more.
fn count_row(words: &[u32], n: usize, q: usize, counts: &[u16]) -> usize
    requires { CountAsks words.now n q counts.now }
    ensures { result ≡ min 1001 (total (rows_of words.now) q) }
{
    let c = states::row_cells(words, n, q);
    let from = c.from;
    let e = states::first(words, from, c.to, automaton::PHONES);
    let mut s = usize::from(e < c.to);
    for &x in &words[from..e] {
        s += count_at(counts, states::val(x));
    }
    s.min(1001)
}

// The number of names, 1,001 where it is more.
pub fn count_names(words: &[u32], n: usize, counts: &mut [u16]) -> usize
    requires { CountAsks words.now n 0 counts.old }
    ensures { result ≡ min 1001 (total (rows_of words.now) n) }
{
    for q in 0..n {
        counts[q] = count_row(words, n, q, counts) as u16;
    }
    count_row(words, n, n, counts)
}

// The depth that a successor x gives: one more than its own, nothing for the blank state.
fn depth_at(depths: &[u16], x: usize) -> usize
    requires { x < length depths.now }
    ensures { Under depths.now x result }
{
    if x == 0 {
        return 0;
    }
    usize::from(depths[x]) + 1
}

// The length of the longest name from state q, 65 where it is more.
fn depth_row(words: &[u32], n: usize, q: usize, depths: &[u16]) -> usize
    requires { DeepAsks words.now n q depths.now }
    ensures { Depth (rows_of words.now) q result }
{
    let c = states::row_cells(words, n, q);
    let from = c.from;
    let e = states::first(words, from, c.to, automaton::PHONES);
    let mut d: usize = 0;
    for &x in &words[from..e] {
        d = d.max(depth_at(depths, states::val(x)));
    }
    d.min(65)
}

// The length of the longest name, 65 where it is more.
pub fn depth_all(words: &[u32], n: usize, depths: &mut [u16]) -> usize
    requires { DeepAsks words.now n 0 depths.old }
    ensures { Depth (rows_of words.now) n result }
{
    for q in 0..n {
        depths[q] = depth_row(words, n, q, depths) as u16;
    }
    depth_row(words, n, n, depths)
}
