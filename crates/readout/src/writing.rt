// The read-out written into lent bytes, by descending from each state to its successors. A text that has no room is measured all the same:
// each function gives the place after its text, so that the same descent, lent no room, tells the length.
ghost use Rattle.std.specs.Prelude.{◌≡◌, ◌+◌, ◌-◌, ◌≤◌, ◌<◌, length, take};
ghost use Rattle.automaton.specs.Automaton.{key_of, rows_of};
ghost use Rattle.automaton.specs.Listing.{each, own_text, readout};
ghost use Rattle.packing.specs.Packing.{unpack, said};
ghost use Rattle.states.specs.States.{Written, copy_of};
ghost use Rattle.readout.specs.Texts.{heading, Wrote, TextAsks, TextGives, under};

use phone_strings::phone_groups;

// Writes the first `depth` letters of the path.
fn write_letters(path: &[u8], depth: usize, out: &mut [u8], at: usize)
    requires { (depth ≤ length path.now) × (at + depth ≤ length out.old) }
    ensures { Written (copy_of path.now 0) at depth out.old out.new }
{
    out[at..at + depth].copy_from_slice(&path[..depth]);
}

// Writes what stands before the phones of an entry.
fn write_heading(path: &[u8], depth: usize, count: usize, out: &mut [u8], at: usize)
    requires { (depth ≤ 64) × (depth ≤ length path.now) × (count ≤ 64) × (at + 2 + depth ≤ length out.old) }
    ensures { Wrote (heading (take depth path.now) count) at out.old out.new (at + 2 + depth) }
{
    out[at] = depth as u8;
    write_letters(path, depth, out, at + 1);
    out[at + 1 + depth] = count as u8;
}

// Writes the entry of the name that ends in state q, where one does and has room.
fn write_own(
    words: &[u32],
    n: usize,
    q: usize,
    path: &[u8],
    depth: usize,
    out: &mut [u8],
    at: usize,
) -> usize
    requires { TextAsks words.now n q path.now depth 0 (own_text (take depth path.now) (said (rows_of words.now) q)) at }
    ensures { Wrote (own_text (take depth path.now) (said (rows_of words.now) q)) at out.old out.new result }
{
    let found = phone_groups::locate(words, n, q);
    let from = found.from;
    let count = found.count;
    if count == 0 {
        return at;
    }
    let phones = at + 2 + depth;
    let end = phones + count;
    if out.len() < end {
        return end;
    }
    write_heading(path, depth, count, out, at);
    phone_groups::write(words, from, count, out, phones);
    end
}

// The letter of a cell.
fn letter(x: u32) -> u8
    ensures { result ≡ key_of x }
{
    (x / automaton::VALUES) as u8
}

// Writes the entries of the names that begin with the first `depth` letters of the path, which lead to state q.
#[cycle(write_from_write_under)]
pub fn write_from(
    words: &[u32],
    n: usize,
    q: usize,
    path: &mut [u8],
    depth: usize,
    left: usize,
    out: &mut [u8],
    at: usize,
) -> usize
    requires { TextAsks words.now n q path.old depth left (readout unpack (rows_of words.now) left q (take depth path.old)) at }
    ensures { TextGives (readout unpack (rows_of words.now) left q (take depth path.old)) at out.old out.new result depth path.old path.new }
{
    let to = write_own(words, n, q, path, depth, out, at);
    if left == 0 {
        return to;
    }
    write_under(words, n, q, path, depth, left, out, to)
}

// The same for those of them that are longer: a letter more, and what its successor leads to.
#[cycle(write_from_write_under)]
fn write_under(
    words: &[u32],
    n: usize,
    q: usize,
    path: &mut [u8],
    depth: usize,
    left: usize,
    out: &mut [u8],
    at: usize,
) -> usize
    requires { (0 < left) × TextAsks words.now n q path.old depth left (each (under (rows_of words.now) (left - 1) q (take depth path.old)) 1 63) at }
    ensures { TextGives (each (under (rows_of words.now) (left - 1) q (take depth path.old)) 1 63) at out.old out.new result depth path.old path.new }
{
    let s = states::row_cells(words, n, q);
    let from = s.from;
    let end = states::first(words, from, s.to, automaton::PHONES);
    let mut to = at;
    for &cell in &words[from..end] {
        path[depth] = letter(cell);
        let next = states::val(cell);
        to = write_from(words, n, next, path, depth + 1, left - 1, out, to);
    }
    to
}
