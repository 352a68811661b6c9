// Whether words of a list's size are a list, clause by clause, and how many names they list.
ghost use Rattle.std.specs.Prelude.{◌≡◌, cond, [], ◌≤◌, length};
ghost use Rattle.rules.specs.Limits.{max_listed};
ghost use Rattle.automaton.specs.Automaton.{rows_of, phones_at};
ghost use Rattle.automaton.specs.Totals.{total};
ghost use Rattle.states.specs.States.{AsksState};
ghost use Rattle.minimality.specs.Judging.{Decides};
ghost use Rattle.measures.specs.Measures.{CountAsks, DeepAsks, Short};
ghost use Rattle.exceptions.specs.Layout.{list_size, start_of, names_in};
ghost use Rattle.exceptions.specs.Judging.{IsList, listed, blank, JudgeAsks, NamesAsk};

// Scratch: the heads of the chains by key in which minimality::listed looks for states alike.
const KEYS: usize = 4093;

// Scratch: a link, then a mark, a count and a depth, for each state and for 0, which is none.
const MARKS: usize = rules::MAX_STATES + 1;

// At most 1,000 names.
fn names_few(words: &[u32], n: usize, counts: &mut [u16]) -> bool
    requires { CountAsks words.now n 0 counts.old }
    ensures { Decides (total (rows_of words.now) n ≤ max_listed) result }
{
    measures::count_names(words, n, counts) <= rules::MAX_LISTED
}

// No name has more than 64 letters. The empty list has no name, and no depth.
fn names_short(words: &[u32], n: usize, depths: &mut [u16]) -> bool
    requires { DeepAsks words.now n 0 depths.old }
    ensures { Decides (Short (rows_of words.now) n) result }
{
    if n == 0 {
        return true;
    }
    measures::depth_all(words, n, depths) <= rules::MAX_NAME
}

// No name ends in the start n: the empty name is not listed.
fn names_lettered(words: &[u32], n: usize) -> bool
    requires { AsksState words.now n n }
    ensures { Decides (phones_at (rows_of words.now) n ≡ []) result }
{
    states::at(words, n, n, automaton::PHONES) == 0
}

// Whether words that are a minimal automaton are a list: its names and their phones.
fn names_listed(words: &[u32], n: usize, marks: &mut [u16]) -> bool
    requires { NamesAsk words.now n marks.old }
    ensures { Decides (IsList words.now) result }
{
    if !phone_strings::rows_packed(words, n) {
        return false;
    }
    if !names_few(words, n, marks) {
        return false;
    }
    if !names_short(words, n, marks) {
        return false;
    }
    names_lettered(words, n)
}

// Whether words are a list.
fn judge(words: &[u32], heads: &mut [u16], marks: &mut [u16]) -> bool
    requires { JudgeAsks words.now heads.old marks.old }
    ensures { Decides (IsList words.now) result }
{
    let n = crate::start_of(words);
    if rules::MAX_STATES < n {
        return false;
    }
    if !minimality::listed(words, heads, marks, n) {
        return false;
    }
    names_listed(words, n, marks)
}

// Whether the words are an empty list.
fn is_blank(words: &[u32]) -> bool
    requires { list_size ≤ length words.now }
    ensures { result ≡ blank words.now }
{
    if crate::start_of(words) != 0 {
        return false;
    }
    if words[0] != automaton::FIRST_CELL {
        return false;
    }
    words[1] == automaton::FIRST_CELL
}

// Whether words of a list's size are a list. The empty one, which is lent where a host keeps no list, needs no scratch.
pub fn words_listed(words: &[u32]) -> bool
    requires { length words.now ≡ list_size }
    ensures { result ≡ listed words.now (start_of words.now) }
{
    if is_blank(words) {
        return true;
    }
    let mut heads = [0u16; KEYS];
    let mut marks = [0u16; MARKS];
    judge(words, &mut heads, &mut marks)
}

// How many names words of a list's size list, 0 where they are no list. `judge` has one caller, so that its scratch is in no frame but that
// caller's: a change holds its own while it runs.
pub fn names_counted(words: &[u32]) -> usize
    requires { length words.now ≡ list_size }
    ensures { result ≡ cond (listed words.now (start_of words.now)) (names_in words.now) 0 }
{
    if !words_listed(words) {
        return 0;
    }
    let mut counts = [0u16; MARKS];
    measures::count_names(words, crate::start_of(words), &mut counts)
}
