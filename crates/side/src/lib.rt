// One table, filled from the patterns of its side. Pattern i has lens[i] symbols of pats, from MAX_PATTERN i on.
#![tactic(auto)]

ghost use Rattle.std.specs.Prelude.{◌≡◌, ◌+◌, ◌*◌, ◌/◌, ◌%◌, ◌^◌, ◌≤◌, ◌<◌, cond, eqb, length, get_or};
ghost use Rattle.std.specs.Int.Bits.{bit_or};
ghost use Rattle.rules.specs.Limits.{max_rules, max_pattern};
ghost use Rattle.tables.specs.Words.{row_size, set_size};
ghost use Rattle.rules.specs.Memory.{over};
ghost use Rattle.side.specs.Patterns.{patterns_of, Patterns, state_count};
ghost use Rattle.side.specs.Wrote.{Wrote, Past};
ghost use Rattle.side.specs.Steps.{cell, run, part, Inside, Symbols, Descended, Numbered, Counted, completed, united};
ghost use Rattle.tables.specs.States.{states};
ghost use Rattle.side.specs.Filled.{Level, Owned, Raised, side_rows, side_sets};

// ---- rows

// A new state's row has no child.
fn clear_row(rows: &mut [u16], at: usize)
    requires { at + row_size ≤ length rows.old }
    ensures { Wrote rows.old at row_size (λ _. 0) rows.new }
{
    rows[at..at + tables::ROW].fill(0);
}

// Where the numbering of a pattern stands: the state of its symbols so far, and how many states there are.
#[derive(Clone, Copy)]
struct Place {
    state: usize,
    count: usize,
}

// From a state to its child, which is numbered where it was not.
fn descend(rows: &mut [u16], at: Place, symbol: u8) -> Place
    requires { (symbol < row_size) × (at.state < at.count) × (at.count < 65536) × (row_size * at.count ≤ length rows.old) × (cell rows.old at.state symbol ≡ 0 → row_size * at.count + row_size ≤ length rows.old) }
    ensures { Descended rows.old at.state at.count symbol result rows.new }
{
    let q = at.state;
    let n = at.count;
    let k = tables::ROW * q + usize::from(symbol);
    let next = rows[k];
    if next != 0 {
        return Place {
            state: usize::from(next),
            count: n,
        };
    }
    rows[k] = n as u16;
    clear_row(rows, tables::ROW * n);
    Place {
        state: n,
        count: n + 1,
    }
}

// The prefixes of pattern i are numbered after those of the patterns before it.
fn number_one(rows: &mut [u16], pats: &[u8], lens: &[u8], i: usize, count: usize) -> usize
    requires { Patterns pats.now lens.now (i + 1) × (count ≡ state_count pats.now lens.now i) × (row_size * state_count pats.now lens.now (i + 1) ≤ length rows.old) × Numbered (states (patterns_of pats.now lens.now i)) rows.old }
    ensures { Counted pats.now lens.now (i + 1) rows.old result rows.new }
{
    let a = rules::MAX_PATTERN * i;
    let e = a + usize::from(lens[i]);
    let mut at = Place { state: 0, count };
    for &symbol in &pats[a..e] {
        at = descend(rows, at, symbol);
    }
    at.count
}

// The prefixes of n patterns are numbered, and each row holds its state's children.
fn number_all(rows: &mut [u16], pats: &[u8], lens: &[u8], n: usize) -> usize
    requires { Patterns pats.now lens.now n × (row_size * state_count pats.now lens.now n ≤ length rows.old) }
    ensures { Counted pats.now lens.now n rows.old result rows.new }
{
    clear_row(rows, 0);
    let mut count: usize = 1;
    for i in 0..n {
        count = number_one(rows, pats, lens, i, count);
    }
    count
}

// The state that the symbols from a to e lead to.
fn state_of(rows: &[u16], count: usize, pats: &[u8], a: usize, e: usize) -> usize
    requires { Inside rows.now count × Symbols pats.now a e }
    ensures { (result ≡ run (cell rows.now) 0 (part pats.now a e)) × (result < count) }
{
    let mut q: usize = 0;
    for &symbol in &pats[a..e] {
        q = usize::from(rows[tables::ROW * q + usize::from(symbol)]);
    }
    q
}

// The first number, or the second where the first is 0.
fn or_else(x: u16, y: u16) -> u16
    ensures { result ≡ cond (eqb x 0) y x }
{
    if x == 0 { y } else { x }
}

// Where q has no child its entry is that of f.
fn complete_row(rows: &mut [u16], q: usize, f: usize)
    requires { (row_size * q + row_size ≤ length rows.old) × (row_size * f + row_size ≤ length rows.old) × (q ≡ f → ⊥) }
    ensures { Wrote rows.old (row_size * q) row_size (completed rows.old q f) rows.new }
{
    let a = tables::ROW * q;
    let b = tables::ROW * f;
    for c in 0..tables::ROW {
        rows[a + c] = or_else(rows[a + c], rows[b + c]);
    }
}

// ---- sets

fn clear_sets(sets: &mut [u64], count: usize)
    requires { set_size * count ≤ length sets.old }
    ensures { Wrote sets.old 0 (set_size * count) (λ _. 0) sets.new }
{
    sets[..tables::SET * count].fill(0);
}

// Place i goes into the set of q.
fn put_place(sets: &mut [u64], q: usize, i: usize)
    requires { (set_size * q + set_size ≤ length sets.old) × (i < max_rules) }
    ensures { Wrote sets.old (set_size * q + i / 64) 1 (λ _. bit_or (get_or sets.old (set_size * q + i / 64) 0) (2 ^ (i % 64))) sets.new }
{
    let k = tables::SET * q + i / 64;
    sets[k] = numbers::with_bit(sets[k], (i % 64) as u64);
}

// The set of f goes into the set of q.
fn unite(sets: &mut [u64], q: usize, f: usize)
    requires { (set_size * q + set_size ≤ length sets.old) × (set_size * f + set_size ≤ length sets.old) × (q ≡ f → ⊥) }
    ensures { Wrote sets.old (set_size * q) set_size (united sets.old q f) sets.new }
{
    let a = tables::SET * q;
    let b = tables::SET * f;
    for j in 0..tables::SET {
        sets[a + j] |= sets[b + j];
    }
}

// Each place goes into the set of its pattern's own state.
fn own_sets(sets: &mut [u64], rows: &[u16], count: usize, pats: &[u8], lens: &[u8], n: usize)
    requires { Patterns pats.now lens.now n × (count ≡ state_count pats.now lens.now n) × (row_size * count ≤ length rows.now) × (set_size * count ≤ length sets.old) × Numbered (states (patterns_of pats.now lens.now n)) rows.now × Owned (patterns_of pats.now lens.now n) 0 sets.old }
    ensures { Owned (patterns_of pats.now lens.now n) n sets.new × Past (set_size * count) sets.old sets.new }
{
    for i in 0..n {
        let a = rules::MAX_PATTERN * i;
        let e = a + usize::from(lens[i]);
        let q = state_of(rows, count, pats, a, e);
        put_place(sets, q, i);
    }
}

// ---- completed from the failure states

// The row and the set of the state of the symbols from a to e, from those of its failure state, where it lies above `top`.
// Gives the higher of both.
fn complete_one(
    rows: &mut [u16],
    sets: &mut [u64],
    count: usize,
    pats: &[u8],
    a: usize,
    e: usize,
    top: usize,
) -> usize
    requires { Inside rows.old count × (set_size * count ≤ length sets.old) × Symbols pats.now a e × (a < e) × (run (cell rows.old) 0 (part pats.now a e) ≡ run (cell rows.old) 0 (part pats.now (a + 1) e) → ⊥) }
    ensures { Raised rows.old sets.old (run (cell rows.old) 0 (part pats.now a e)) (run (cell rows.old) 0 (part pats.now (a + 1) e)) top result rows.new sets.new }
{
    let q = state_of(rows, count, pats, a, e);
    if q <= top {
        return top;
    }
    let b = a + 1;
    let f = state_of(rows, count, pats, b, e);
    complete_row(rows, q, f);
    unite(sets, q, f);
    q
}

// The states of d symbols are completed, each once: a state that is no higher than one of an earlier pattern is complete.
fn complete_level(
    rows: &mut [u16],
    sets: &mut [u64],
    count: usize,
    pats: &[u8],
    lens: &[u8],
    n: usize,
    d: usize,
)
    requires { Patterns pats.now lens.now n × (count ≡ state_count pats.now lens.now n) × (row_size * count ≤ length rows.old) × (set_size * count ≤ length sets.old) × (0 < d) × (d ≤ max_pattern) × Level (patterns_of pats.now lens.now n) rows.old sets.old d 0 }
    ensures { Level (patterns_of pats.now lens.now n) rows.new sets.new (d + 1) 0 × Past (row_size * count) rows.old rows.new × Past (set_size * count) sets.old sets.new }
{
    let mut top: usize = 0;
    for i in 0..n {
        let len = usize::from(lens[i]);
        if d <= len {
            let a = rules::MAX_PATTERN * i;
            let e = a + d;
            top = complete_one(rows, sets, count, pats, a, e, top);
        }
    }
}

// The rows and the sets of one side, and how many states it has. What lies past them keeps its contents.
pub fn fill_side(rows: &mut [u16], sets: &mut [u64], pats: &[u8], lens: &[u8], n: usize) -> usize
    requires { Patterns pats.now lens.now n × (row_size * state_count pats.now lens.now n ≤ length rows.old) × (set_size * state_count pats.now lens.now n ≤ length sets.old) }
    ensures rows { rows.new ≡ over (side_rows (patterns_of pats.now lens.now n)) rows.old }
    ensures sets { sets.new ≡ over (side_sets (patterns_of pats.now lens.now n)) sets.old }
    ensures count { result ≡ state_count pats.now lens.now n }
{
    let count = number_all(rows, pats, lens, n);
    clear_sets(sets, count);
    own_sets(sets, rows, count, pats, lens, n);
    for d in 1..=rules::MAX_PATTERN {
        complete_level(rows, sets, count, pats, lens, n, d);
    }
    count
}
