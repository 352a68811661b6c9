// The exceptions list as cells in lent memory: words 0 to n + 1 give where each state's cells begin, the cells lie from word 4200 on.
#![tactic(auto)]

ghost use Rattle.std.specs.Prelude.{◌≡◌, ◌+◌, ◌-◌, ◌*◌, ◌<◌, ◌≤◌, length};
ghost use Rattle.automaton.specs.Automaton.{key_of, val_of, cell_of, part, cells_of, rows_of, end_state, Laid};
ghost use Rattle.automaton.specs.Changes.{Phones, First};
ghost use Rattle.states.specs.States.{past, Split, Valued, AsksState, Placing, Lowered, Ended, Compared, FoundOrAdded, Written, copy_of, group_of, CellPut, Skipped, AppendAsks, Appended, with_successor, with_phones, Interned, PathOf, PutAsks, PutGives, EndAsks};

// What a change gives: the last row in use, and the row that is the new start.
#[derive(Clone, Copy)]
pub struct Placed {
    pub top: usize,
    pub root: usize,
}

// Where the cells of a row lie.
#[derive(Clone, Copy)]
pub struct Span {
    pub from: usize,
    pub to: usize,
}

// Cells from `at` to `to` are left to copy, to `out`.
#[derive(Clone, Copy)]
pub struct Cut {
    pub at: usize,
    pub to: usize,
    pub out: usize,
}

// The place of a cell.
pub fn key(x: u32) -> usize
    ensures { result ≡ key_of x }
{
    (x / automaton::VALUES) as usize
}

// What stands in a cell.
pub fn val(x: u32) -> usize
    ensures { (result ≡ val_of x) × (result < 16777216) }
{
    (x % automaton::VALUES) as usize
}

pub fn cell(k: usize, v: usize) -> u32
    requires { (k < 86) × (v < 16777216) }
    ensures { result ≡ cell_of k v }
{
    (k * (automaton::VALUES as usize) + v) as u32
}

// The cells of row q.
pub fn row_cells(words: &[u32], n: usize, q: usize) -> Span
    requires { AsksState words.now n q }
    ensures { Placing words.now n q result.from result.to }
{
    let from = words[q] as usize;
    let to = words[q + 1] as usize;
    Span { from: from, to: to }
}

// The first of the cells a to e whose place is not below c.
pub fn first(words: &[u32], a: usize, e: usize, c: usize) -> usize
    requires { (a ≤ e) × (e ≤ length words.now) }
    ensures { Split words.now a e c result }
{
    for i in a..e {
        if c <= key(words[i]) {
            return i;
        }
    }
    e
}

// What cell i says of place c, 0 where it is past e or of another place.
fn value(words: &[u32], i: usize, e: usize, c: usize) -> usize
    requires { e ≤ length words.now }
    ensures { Valued words.now i e c result }
{
    if e <= i {
        return 0;
    }
    let x = words[i];
    if key(x) != c {
        return 0;
    }
    val(x)
}

// What stands at place c of row q.
pub fn at(words: &[u32], n: usize, q: usize, c: usize) -> usize
    requires { AsksState words.now n q }
    ensures { result ≡ rows_of words.now q c }
{
    let s = row_cells(words, n, q);
    let from = s.from;
    let to = s.to;
    let i = first(words, from, to, c);
    value(words, i, to, c)
}

// Rows i and t hold the same.
pub fn same_rows(words: &[u32], i: usize, t: usize) -> bool
    requires { AsksState words.now t i }
    ensures { Compared words.now i t result }
{
    let x = row_cells(words, t, i);
    let y = row_cells(words, t, t);
    words[x.from..x.to] == words[y.from..y.to]
}

// The first row that holds what row t does.
fn find(words: &[u32], t: usize) -> usize
    requires { Laid words.now t }
    ensures { First (rows_of words.now) t result }
{
    // a row like the blank one leads to no name
    for i in 0..t {
        if same_rows(words, i, t) {
            return i;
        }
    }
    t
}

// The row after n is found again or added.
fn find_or_add(words: &[u32], n: usize) -> Placed
    requires { Laid words.now (n + 1) }
    ensures { FoundOrAdded words.now n result }
{
    let i = find(words, n + 1);
    if n < i {
        Placed { top: i, root: i }
    } else {
        Placed { top: n, root: i }
    }
}

// Copies `len` words from a to b.
fn copy(words: &mut [u32], a: usize, b: usize, len: usize)
    requires { (a + len ≤ b) × (b + len ≤ length words.old) }
    ensures { Written (copy_of words.old a) b len words.old words.new }
{
    words.copy_within(a..a + len, b);
}

// A cell of place c at o, none where r is 0. Gives the place after it.
fn put_cell(words: &mut [u32], o: usize, c: usize, r: usize) -> usize
    requires { (c < 86) × (r < 16777216) × (o < length words.old) }
    ensures { CellPut words.old o c r words.new result }
{
    if r == 0 {
        return o;
    }
    words[o] = cell(c, r);
    o + 1
}

// The cell after i where i is of place c.
fn skip(words: &[u32], i: usize, e: usize, c: usize) -> usize
    requires { (i ≤ e) × (e ≤ length words.now) }
    ensures { Skipped words.now i e c result }
{
    if e <= i {
        return i;
    }
    if key(words[i]) != c {
        return i;
    }
    i + 1
}

// The cells of row q of places below c are copied behind those of row n.
fn lowered(words: &mut [u32], n: usize, q: usize, c: usize) -> Cut
    requires { AppendAsks words.old n q }
    ensures { Lowered words.old n q c words.new result }
{
    let s = row_cells(words, n, q);
    let from = s.from;
    let to = s.to;
    let i = first(words, from, to, c);
    let b = words[n + 1] as usize;
    copy(words, from, b, i - from);
    Cut {
        at: i,
        to: to,
        out: b + (i - from),
    }
}

// The cells i to e but one of place c are copied to o, where they end the row after n.
fn closed(words: &mut [u32], n: usize, i: usize, e: usize, c: usize, o: usize)
    requires { (i ≤ e) × (e ≤ o) × (4200 ≤ o) × (o + (e - i) ≤ length words.old) × (length words.old ≤ 16777216) × (n < 4190) }
    ensures { Ended words.old n o (past c (part words.old i (e - i))) words.new }
{
    let j = skip(words, i, e, c);
    copy(words, j, o, e - j);
    words[n + 2] = (o + (e - j)) as u32;
}

// The row after n becomes row q with r as the successor under c.
fn append_with_successor(words: &mut [u32], n: usize, q: usize, c: usize, r: usize)
    requires { AppendAsks words.old n q × (0 < c) × (c < 64) × (r < 5000) }
    ensures { Appended words.old n (with_successor c r (cells_of words.old q)) words.new }
{
    let s = lowered(words, n, q, c);
    let at = s.at;
    let to = s.to;
    let out = s.out;
    let o = put_cell(words, out, c, r);
    closed(words, n, at, to, c, o);
}

// The groups of phones as cells from o on.
fn write_groups(words: &mut [u32], o: usize, groups: &[u32])
    requires { (length groups.now ≤ 22) × (o + length groups.now ≤ length words.old) }
    ensures { Written (group_of groups.now) o (length groups.now) words.old words.new }
{
    for (k, &x) in groups.iter().enumerate() {
        words[o + k] = cell(automaton::PHONES + k, val(x));
    }
}

// The row after n becomes row q with these groups of phones.
fn append_with_phones(words: &mut [u32], n: usize, q: usize, groups: &[u32])
    requires { AppendAsks words.old n q × (length groups.now ≤ 22) }
    ensures { Appended words.old n (with_phones groups.now (cells_of words.old q)) words.new }
{
    let s = lowered(words, n, q, automaton::PHONES);
    let o = s.out;
    write_groups(words, o, groups);
    words[n + 2] = (o + groups.len()) as u32;
}

// The row after n becomes row q with these groups of phones; it is found again or added.
fn intern_with_phones(words: &mut [u32], n: usize, q: usize, groups: &[u32]) -> Placed
    requires { AppendAsks words.old n q × Phones groups.now }
    ensures { Interned words.old n (with_phones groups.now (cells_of words.old q)) words.new result }
{
    append_with_phones(words, n, q, groups);
    find_or_add(words, n)
}

// The row after n becomes row q with r as the successor under c; it is found again or added.
fn intern_with_successor(words: &mut [u32], n: usize, q: usize, c: usize, r: usize) -> Placed
    requires { AppendAsks words.old n q × (0 < c) × (c < 64) × (r < 5000) }
    ensures { Interned words.old n (with_successor c r (cells_of words.old q)) words.new result }
{
    append_with_successor(words, n, q, c, r);
    find_or_add(words, n)
}

// The states on a name's way, from the start on.
fn follow(words: &[u32], n: usize, name: &[u8], path: &mut [u16])
    requires { EndAsks words.now n name.now × (n ≤ 4096) × (length name.now < length path.old) }
    ensures { PathOf words.now n name.now (length name.now) path.new }
{
    path[0] = n as u16;
    let mut q = n;
    for (i, &c) in name.iter().enumerate() {
        q = at(words, n, q, usize::from(c));
        path[i + 1] = q as u16;
    }
}

// The name gets these groups of phones, by the states on its way, from the last back to the start.
fn put_along(words: &mut [u32], n: usize, name: &[u8], path: &[u16], groups: &[u32]) -> Placed
    requires { PutAsks words.old n n name.now 0 groups.now × PathOf words.old n name.now (length name.now) path.now × (length name.now < length path.now) }
    ensures { PutGives words.old n n name.now 0 groups.now words.new result }
{
    let last = usize::from(path[name.len()]);
    let mut placed = intern_with_phones(words, n, last, groups);
    for i in (0..name.len()).rev() {
        let c = usize::from(name[i]);
        let q = usize::from(path[i]);
        let top = placed.top;
        let root = placed.root;
        placed = intern_with_successor(words, top, q, c, root);
    }
    placed
}

// The name gets these groups of phones (none: it is removed), in rows after n.
pub fn put(words: &mut [u32], n: usize, name: &[u8], groups: &[u32]) -> Placed
    requires { PutAsks words.old n n name.now 0 groups.now }
    ensures { PutGives words.old n n name.now 0 groups.now words.new result }
{
    let mut path: [u16; 65] = [0; 65];
    follow(words, n, name, &mut path);
    put_along(words, n, name, &path, groups)
}

// The state in which a name ends; from 0, which is none, nothing leads on.
pub fn end_state(words: &[u32], n: usize, name: &[u8]) -> usize
    requires { EndAsks words.now n name.now }
    ensures { result ≡ end_state (rows_of words.now) n name.now }
{
    let mut q = n;
    for &c in name {
        if q == 0 {
            return 0;
        }
        q = at(words, n, q, usize::from(c));
    }
    q
}
