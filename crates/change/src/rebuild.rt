// One change in groups of phones, made in the free words of a list and undone where the states are then too many.
ghost use Rattle.std.specs.Prelude.{◌≡◌, ◌+◌, ◌<◌, ◌≤◌, length, get_or};
ghost use Rattle.states.specs.States.{Written, copy_of};
ghost use Rattle.compaction.specs.Compaction.{SweepAsks, Spread};
ghost use Rattle.exceptions.specs.Layout.{startWord, start_of};
ghost use Rattle.change.specs.Steps.{Saved, Restored, FreeAsks, SweepReady, Swept?, Reached, GroupsAsk, Applied, Rebuilt};

// Offsets that one change of a name may write: one for each of its 64 letters, and one more.
const OFFSETS: usize = rules::MAX_NAME + 1;

// Words that it takes for a while past the last cell: one for each place of these rows.
const WORK: usize = OFFSETS * automaton::PLACES;

// Both, saved.
const SAVED: usize = OFFSETS + WORK;

// A mark for each state of a list, for 0, and for each row that a change adds.
const MARKS: usize = rules::MAX_STATES + 1 + OFFSETS;

// Copies `len` words, from a on, to b.
fn copy_words(from: &[u32], a: usize, to: &mut [u32], b: usize, len: usize)
    requires { (a + len ≤ length from.now) × (b + len ≤ length to.old) }
    ensures { Written (copy_of from.now a) b len to.old to.new }
{
    to[b..b + len].copy_from_slice(&from[a..a + len]);
}

// The free words that a change may write are saved.
fn save(words: &[u32], n: usize, end: usize, saved: &mut [u32])
    requires { FreeAsks words.now n end saved.old }
    ensures { Saved words.now n end saved.new }
{
    copy_words(words, n + 2, saved, 0, OFFSETS);
    copy_words(words, end, saved, OFFSETS, WORK);
}

// They are put back.
fn restore(words: &mut [u32], n: usize, end: usize, saved: &[u32])
    requires { FreeAsks words.old n end saved.now }
    ensures { Restored words.old n end saved.now words.new }
{
    copy_words(saved, 0, words, n + 2, OFFSETS);
    copy_words(saved, OFFSETS, words, end, WORK);
}

// The marked rows alone are kept, where they are not too many for a list.
fn keep_marked(words: &mut [u32], marks: &mut [u16], top: usize) -> bool
    requires { SweepAsks words.old marks.old top × Spread words.old top 0 marks.old × (startWord < length words.old) }
    ensures { Swept? words.old marks.old top words.new result }
{
    if rules::MAX_STATES + 1 < compaction::count_marks(marks, top) {
        return false;
    }
    let start = compaction::compact(words, marks, top);
    words[exceptions::START] = start as u32;
    true
}

// The rows that are reached from `top` alone are kept, where they are not too many for a list.
fn sweep(words: &mut [u32], top: usize) -> bool
    requires { SweepReady words.old top }
    ensures { Reached words.old top words.new result }
{
    let mut marks = [0u16; MARKS];
    compaction::mark(words, &mut marks, top);
    keep_marked(words, &mut marks, top)
}

// The name gets these groups of phones, where the states are then not too many.
fn apply(words: &mut [u32], n: usize, name: &[u8], groups: &[u32]) -> bool
    requires { GroupsAsk words.old name.now groups.now × (n ≡ start_of words.old) }
    ensures { Applied words.old n (get_or words.old (n + 1) 0) name.now groups.now words.new result }
{
    let placed = states::put(words, n, name, groups);
    let root = placed.root;
    sweep(words, root)
}

// The same; where the states are too many, every word is as before.
fn apply_or_restore(words: &mut [u32], name: &[u8], groups: &[u32], saved: &mut [u32]) -> bool
    requires { GroupsAsk words.old name.now groups.now × (5655 ≤ length saved.old) }
    ensures { Rebuilt words.old name.now groups.now words.new result }
{
    let n = exceptions::start_of(words);
    let end = words[n + 1] as usize;
    save(words, n, end, saved);
    if apply(words, n, name, groups) {
        return true;
    }
    restore(words, n, end, saved);
    false
}

// The name gets these groups of phones; where the states are then too many, every word is as before.
pub fn regroup(words: &mut [u32], name: &[u8], groups: &[u32]) -> bool
    requires { GroupsAsk words.old name.now groups.now }
    ensures { Rebuilt words.old name.now groups.now words.new result }
{
    let mut saved = [0u32; SAVED];
    apply_or_restore(words, name, groups, &mut saved)
}
