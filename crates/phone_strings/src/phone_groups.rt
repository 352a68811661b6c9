// The phones of a state read from its last cells, three at a time.
ghost use Rattle.std.specs.Prelude.{◌+◌, ◌*◌, ◌/◌, ◌<◌, ◌≤◌, length};
ghost use Rattle.automaton.specs.Automaton.{rows_of};
ghost use Rattle.states.specs.States.{Written};
ghost use Rattle.packing.specs.Packing.{StateAsks};
ghost use Rattle.phone_strings.specs.Packed.{Packed};
ghost use Rattle.phone_strings.specs.Groups.{PhoneCells, LastBytes, group_bytes, byte_from, HoldsPhones};

// Where phones stand: the first of their cells, and how many phones there are.
#[derive(Clone, Copy)]
pub struct Located {
    pub from: usize,
    pub count: usize,
}

// The cells that hold the phones of state q.
pub fn cells(words: &[u32], n: usize, q: usize) -> states::Span
    requires { StateAsks words.now n q }
    ensures { PhoneCells words.now q result.from result.to }
{
    let s = states::row_cells(words, n, q);
    let from = states::first(words, s.from, s.to, automaton::PHONES);
    states::Span { from, to: s.to }
}

// How many bytes of the last group are phones.
fn last_bytes(v: usize) -> usize
    requires { (0 < v) × (v < 16777216) }
    ensures { LastBytes v result }
{
    if v < 256 {
        return 1;
    }
    if v < 65536 {
        return 2;
    }
    3
}

// Where the phones of state q stand, and how many they are.
pub fn locate(words: &[u32], n: usize, q: usize) -> Located
    requires { StateAsks words.now n q × Packed (rows_of words.now) q }
    ensures { HoldsPhones words.now q result.from result.count }
{
    let s = cells(words, n, q);
    let from = s.from;
    let to = s.to;
    if from == to {
        return Located { from, count: 0 };
    }
    let last = states::val(words[to - 1]);
    let size = last_bytes(last);
    let count = 3 * (to - 1 - from) + size;
    Located { from, count }
}

// The first `size` bytes of a group.
fn put_group(v: usize, size: usize, out: &mut [u8], at: usize)
    requires { (v < 16777216) × (0 < size) × (size ≤ 3) × (at + size ≤ length out.old) }
    ensures { Written (group_bytes v) at size out.old out.new }
{
    out[at] = (v % 256) as u8;
    if size == 1 {
        return;
    }
    out[at + 1] = (v / 256 % 256) as u8;
    if size == 2 {
        return;
    }
    out[at + 2] = (v / 65536) as u8;
}

// All bytes of the first `whole` groups.
fn put_groups(words: &[u32], from: usize, whole: usize, out: &mut [u8], at: usize)
    requires { (whole ≤ 22) × (from + whole ≤ length words.now) × (at + 3 * whole ≤ length out.old) }
    ensures { Written (byte_from words.now from) at (3 * whole) out.old out.new }
{
    for (k, &x) in words[from..from + whole].iter().enumerate() {
        put_group(states::val(x), 3, out, at + 3 * k);
    }
}

// Writes the first `count` bytes of the groups from word `from` on.
pub fn write(words: &[u32], from: usize, count: usize, out: &mut [u8], at: usize)
    requires { (count ≤ 64) × (from + (count + 2) / 3 ≤ length words.now) × (at + count ≤ length out.old) }
    ensures { Written (byte_from words.now from) at count out.old out.new }
{
    let whole = count / 3;
    put_groups(words, from, whole, out, at);
    let rest = count % 3;
    if rest == 0 {
        return;
    }
    let last = states::val(words[from + whole]);
    put_group(last, rest, out, at + 3 * whole);
}
