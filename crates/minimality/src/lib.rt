// Judges whether lent words are a list: where the cells lie, each row, no two alike, every state needed.
#![tactic(auto)]

ghost use Rattle.std.specs.Prelude.{◌≡◌, ℕ, ◌+◌, ◌-◌, ◌*◌, ◌<◌, ◌≤◌, length, get_or};
ghost use Rattle.automaton.specs.Automaton.{cells_of, rows_of, Needed};
ghost use Rattle.states.specs.States.{AsksState};
ghost use Rattle.compaction.specs.Compaction.{SweepAsks};
ghost use Rattle.minimality.specs.Judging.{Decides, CellGood, Good, Rising, Offsets, RowsGood, Apart, Listed, ListAsks};
ghost use Rattle.minimality.specs.Chains.{key_of, Fresh, WalkAsks, ApartAsks};

// Each state's cells begin where those before end.
fn rising(words: &[u32], n: usize) -> bool
    requires { n + 1 < length words.now }
    ensures { Decides (Rising words.now n) result }
{
    words[..n + 2].is_sorted()
}

// The cells lie in the words, one state's after another's, and the blank state has none.
fn offsets(words: &[u32], n: usize) -> bool
    requires { (n < 4180) × (4200 ≤ length words.now) }
    ensures { Decides (Offsets words.now n) result }
{
    if words[0] != automaton::FIRST_CELL {
        return false;
    }
    if words[1] != automaton::FIRST_CELL {
        return false;
    }
    if words.len() < words[n + 1] as usize {
        return false;
    }
    rising(words, n)
}

// x may stand in row q after cells of places below lo.
fn cell_good(q: usize, lo: usize, x: u32) -> bool
    ensures { Decides (CellGood q lo x) result }
{
    let k = states::key(x);
    let v = states::val(x);
    if k < lo {
        return false;
    }
    if automaton::PLACES <= k {
        return false;
    }
    if v == 0 {
        return false;
    }
    if k < automaton::PHONES {
        return v < q;
    }
    if k == automaton::PHONES {
        return true;
    }
    k == lo
}

// The cells may be those of row q.
fn row_good(q: usize, cells: &[u32]) -> bool
    ensures { Decides (Good q 1 cells.now) result }
{
    let mut lo: usize = 1;
    for &x in cells {
        if !cell_good(q, lo, x) {
            return false;
        }
        lo = states::key(x) + 1;
    }
    true
}

fn rows_good(words: &[u32], n: usize) -> bool
    requires { (n < 4180) × (4200 ≤ length words.now) × Offsets words.now n }
    ensures { Decides (RowsGood words.now n) result }
{
    for q in 0..=n {
        let a = words[q] as usize;
        let e = words[q + 1] as usize;
        if !row_good(q, &words[a..e]) {
            return false;
        }
    }
    true
}

// The key of the cells of a row.
fn key(cells: &[u32]) -> usize
    ensures { result ≡ key_of cells.now }
{
    let mut h: usize = 0;
    for &x in cells {
        h = (h * 31 + x as usize) % 4093;
    }
    h
}

// The key of row q.
fn row_key(words: &[u32], n: usize, q: usize) -> usize
    requires { AsksState words.now n q }
    ensures { result ≡ key_of (cells_of words.now q) }
{
    let s = states::row_cells(words, n, q);
    key(&words[s.from..s.to])
}

// No row of the chain that starts at `from` holds what row t does.
fn walk(words: &[u32], links: &[u16], t: usize, from: usize) -> bool
    requires { WalkAsks words.now links.now t from }
    ensures { Decides (Fresh words.now t) result }
{
    let mut i = from;
    while 0 < i {
        if states::same_rows(words, i - 1, t) {
            return false;
        }
        i = usize::from(links[i - 1]);
    }
    true
}

// No two rows to n are alike.
fn apart(words: &[u32], heads: &mut [u16], links: &mut [u16], n: usize) -> bool
    requires { ApartAsks words.now heads.old links.old n }
    ensures { Decides (Apart (rows_of words.now) n) result }
{
    compaction::clear(heads, 4093);
    for t in 0..=n {
        let h = row_key(words, n, t);
        let from = heads[h];
        if !walk(words, links, t, usize::from(from)) {
            return false;
        }
        links[t] = from;
        heads[h] = (t + 1) as u16;
    }
    true
}

// Every mark to n is set.
fn all_marked(marks: &[u16], n: usize) -> bool
    requires { n + 1 ≤ length marks.now }
    ensures { Decides ((x : ℕ) → x ≤ n → 0 < get_or marks.now x 0) result }
{
    !marks[..=n].contains(&0)
}

// Every state but the start n is a successor of one.
fn rows_needed(words: &[u32], marks: &mut [u16], n: usize) -> bool
    requires { SweepAsks words.now marks.old n }
    ensures { Decides (Needed (rows_of words.now) n) result }
{
    compaction::mark(words, marks, n);
    all_marked(marks, n)
}

// The words are a list of n states: a minimal automaton with start n.
pub fn listed(words: &[u32], heads: &mut [u16], links: &mut [u16], n: usize) -> bool
    requires { ListAsks words.now heads.old links.old n }
    ensures { Decides (Listed words.now n) result }
{
    if !offsets(words, n) {
        return false;
    }
    if !rows_good(words, n) {
        return false;
    }
    if !apart(words, heads, links, n) {
        return false;
    }
    rows_needed(words, links, n)
}
