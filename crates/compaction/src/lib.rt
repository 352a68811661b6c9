// Keeps the rows that are reached from the start, in their order.
#![tactic(auto)]

ghost use Rattle.std.specs.Prelude.{◌≡◌, ℕ, suc, ◌+◌, ◌-◌, ◌<◌, ◌≤◌, length, get_or};
ghost use Rattle.automaton.specs.Automaton.{key_of, val_of};
ghost use Rattle.states.specs.States.{Written};
ghost use Rattle.compaction.specs.Compaction.{zero_of, SweepAsks, CellsAsk, CellsMarked, RowMarked, RowSpread, Spread, marked, new_cell, moved_of, KeepAsks, Moved, RowKept, Swept};

// The first `len` marks are 0.
pub fn clear(marks: &mut [u16], len: usize)
    requires { len ≤ length marks.old }
    ensures { Written zero_of 0 len marks.old marks.new }
{
    marks[..len].fill(0);
}

// Marks what the cells a to e lead to.
fn mark_cells(words: &[u32], marks: &mut [u16], a: usize, e: usize)
    requires { CellsAsk words.now marks.old a e }
    ensures { CellsMarked words.now a e marks.old marks.new }
{
    for &cell in &words[a..e] {
        marks[states::val(cell)] = 1;
    }
}

// Marks the successors of row i.
fn mark_row(words: &[u32], marks: &mut [u16], top: usize, i: usize)
    requires { SweepAsks words.now marks.old top × (i ≤ top) }
    ensures { RowMarked words.now i marks.old marks.new }
{
    let s = states::row_cells(words, top, i);
    let from = s.from;
    let to = s.to;
    let e = states::first(words, from, to, automaton::PHONES);
    mark_cells(words, marks, from, e);
}

// Marks the successors of row i where it is marked itself.
fn spread_row(words: &[u32], marks: &mut [u16], top: usize, i: usize)
    requires { SweepAsks words.now marks.old top × (i ≤ top) }
    ensures { RowSpread words.now i marks.old marks.new }
{
    if marks[i] == 0 {
        return;
    }
    mark_row(words, marks, top, i);
}

// Marks the rows that are reached from row `top`, and row 0.
pub fn mark(words: &[u32], marks: &mut [u16], top: usize)
    requires { SweepAsks words.now marks.old top }
    ensures { Spread words.now top 0 marks.new }
{
    clear(marks, top + 1);
    marks[0] = 1;
    marks[top] = 1;
    for i in (0..top + 1).rev() {
        spread_row(words, marks, top, i);
    }
}

// How many of the rows to `top` are marked.
pub fn count_marks(marks: &[u16], top: usize) -> usize
    requires { top < length marks.now }
    ensures { result ≡ marked (λ x. get_or marks.now x 0) (suc top) }
{
    marks[..=top].iter().filter(|&&x| x != 0).count()
}

// A cell with its successor by its new number.
fn renumbered(marks: &[u16], x: u32) -> u32
    requires { key_of x < 64 → val_of x < length marks.now }
    ensures { result ≡ new_cell marks.now x }
{
    let k = states::key(x);
    if automaton::PHONES <= k {
        return x;
    }
    let v = states::val(x);
    states::cell(k, usize::from(marks[v]))
}

// The cells from a on move down to b, their successors by their new numbers.
fn move_cells(words: &mut [u32], marks: &[u16], a: usize, b: usize, len: usize)
    requires { (b ≤ a) × (a + len ≤ length words.old) × ((j : ℕ) → j < len → key_of (get_or words.old (a + j) 0) < 64 → val_of (get_or words.old (a + j) 0) < length marks.now) }
    ensures { Written (moved_of marks.now words.old a) b len words.old words.new }
{
    for j in 0..len {
        words[b + j] = renumbered(marks, words[a + j]);
    }
}

// Row i becomes row k.
fn move_row(words: &mut [u32], marks: &[u16], i: usize, k: usize)
    requires { KeepAsks words.old marks.now i k }
    ensures { Moved words.old marks.now i k words.new }
{
    let a = words[i] as usize;
    let e = words[i + 1] as usize;
    let b = words[k] as usize;
    move_cells(words, marks, a, b, e - a);
    words[k + 1] = (b + (e - a)) as u32;
}

// Row i moves down to k where it is marked, and its mark becomes k. Gives the next row to fill.
fn keep_row(words: &mut [u32], marks: &mut [u16], i: usize, k: usize) -> usize
    requires { KeepAsks words.old marks.old i k }
    ensures { RowKept words.old marks.old i k words.new marks.new result }
{
    if marks[i] == 0 {
        return k;
    }
    marks[i] = k as u16;
    move_row(words, marks, i, k);
    k + 1
}

// The marked rows move down, in their order. Gives the last row.
pub fn compact(words: &mut [u32], marks: &mut [u16], top: usize) -> usize
    requires { SweepAsks words.old marks.old top × Spread words.old top 0 marks.old }
    ensures { Swept words.old marks.old top words.new result }
{
    let mut k: usize = 0;
    for i in 0..=top {
        k = keep_row(words, marks, i, k);
    }
    k - 1
}
