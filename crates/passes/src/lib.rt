// The two passes of each word that is not listed: over its frame, through the entries of each table, with a count of the entries looked up.
#![tactic(auto)]

ghost use Rattle.std.specs.Prelude.{◌≡◌, true, false, ◌+◌, ◌-◌, ◌*◌, ◌<◌, ◌≤◌, length};
ghost use Rattle.speech.specs.Words.{frame_of, word_at, WordOf};
ghost use Rattle.speech.specs.Places.{Unsaid, frame_size};
ghost use Rattle.tables.specs.Words.{row_size, needed_words};
ghost use Rattle.passes.specs.Passes.{max_steps, Stepped, Symbols, rows_at, left_on, right_on, Passed, Both, Rows, memory, Sized, WordPassed, AllPassed};

// A compiled ruleset: the two lent tables with their state counts.
#[derive(Clone, Copy)]
pub struct Compiled<'a> {
    pub words: &'a [u16],
    pub sets: &'a [u64],
    pub left_states: usize,
    pub right_states: usize,
}

// A state, and how many entries have been looked up.
#[derive(Clone, Copy)]
pub struct Step {
    pub state: u16,
    pub steps: usize,
}

// One entry is looked up: the next state, and the count raised by one. Nothing else in a walk reads an entry.
pub fn look_up(words: &[u16], rows: usize, s: Step, c: u8) -> Step
    requires { (rows + (row_size * s.state + c) < length words.now) × (s.steps < max_steps) }
    ensures { Stepped words.now rows s c result }
{
    let q = usize::from(s.state);
    let at = rows + (tables::ROW * q + c as usize);
    Step {
        state: words[at],
        steps: s.steps + 1,
    }
}

// The left pass reads all positions but the last; at i stands the state after position i - 1. The count of entries looked up goes on from `steps`; there
// is none where a state is not below the state count.
fn left_pass(
    words: &[u16],
    rows: usize,
    count: usize,
    frame: &[u8],
    steps: usize,
    states: &mut [u16],
) -> Option<usize>
    requires { (rows + row_size * count ≤ length words.now) × (0 < count) × (2 ≤ length frame.now) × (length frame.now ≤ frame_size) × (steps + frame_size ≤ max_steps) × Symbols frame.now × (length frame.now ≤ length states.old) }
    ensures { Passed (left_on (rows_at words.now rows count) steps frame.now) count (length frame.now - 1) (length frame.now - 1) (steps + frame_size) states.new result }
{
    let mut at = Step { state: 0, steps };
    for i in 0..frame.len() - 1 {
        at = look_up(words, rows, at, frame[i]);
        let state = at.state;
        if count <= usize::from(state) { // 16 in the left pass
            return None;
        }
        states[i + 1] = state;
    }
    Some(at.steps)
}

// The right pass reads from the last position down to 1; at i stands the state after position i. Its count goes on from `steps` in the same way.
pub fn right_pass(
    words: &[u16],
    rows: usize,
    count: usize,
    frame: &[u8],
    steps: usize,
    states: &mut [u16],
) -> Option<usize>
    requires { (rows + row_size * count ≤ length words.now) × (0 < count) × (2 ≤ length frame.now) × (length frame.now ≤ frame_size) × (steps + frame_size ≤ max_steps) × Symbols frame.now × (length frame.now ≤ length states.old) }
    ensures { Passed (right_on (rows_at words.now rows count) steps frame.now) count (length frame.now - 1) 1 (steps + frame_size) states.new result }
{
    let mut at = Step { state: 0, steps };
    for i in (1..frame.len()).rev() {
        at = look_up(words, rows, at, frame[i]);
        let state = at.state;
        if count <= usize::from(state) { // 16 in the right pass
            return None;
        }
        states[i] = state;
    }
    Some(at.steps)
}

// The left pass, whose count goes on from `steps`, then the right pass, whose count goes on from the left's.
fn run_passes(
    compiled: &Compiled<'_>,
    frame: &[u8],
    steps: usize,
    left: &mut [u16],
    right: &mut [u16],
) -> Option<usize>
    requires { (0 < compiled.now.left_states) × (0 < compiled.now.right_states) × (needed_words compiled.now.left_states compiled.now.right_states ≤ length compiled.now.words.now) × (2 ≤ length frame.now) × (length frame.now ≤ frame_size) × (steps + 2 * frame_size ≤ max_steps) × Symbols frame.now × (length frame.now ≤ length left.old) × (length frame.now ≤ length right.old) }
    ensures { Both compiled.now.words.now compiled.now.left_states compiled.now.right_states frame.now (length frame.now - 2) steps left.new right.new result }
{
    let steps = left_pass(
        compiled.words,
        tables::HEAD,
        compiled.left_states,
        frame,
        steps,
        left,
    )?;
    right_pass(
        compiled.words,
        tables::HEAD + tables::ROW * compiled.left_states,
        compiled.right_states,
        frame,
        steps,
        right,
    )
}

// The passes of one word, where the list gives no part for it; that part, or 0, goes to `found`. Where the tables are not `fit`,
// of other lengths or another edit count, no word can pass.
fn run_word(
    compiled: &Compiled<'_>,
    fit: bool,
    list: &[u32],
    name: &[u8],
    frame: &[u8],
    from: usize,
    end: usize,
    steps: usize,
    found: &mut [u16],
    left: &mut [u16],
    right: &mut [u16],
) -> Option<usize>
    requires { (fit ≡ true → Rows (length compiled.now.words.now) compiled.now.left_states compiled.now.right_states) × Unsaid list.now name.now × (frame.now ≡ frame_of name.now) × WordOf name.now from end × (steps + 2 * frame_size ≤ max_steps) × Sized (memory found.old left.old right.old) }
    ensures { WordPassed compiled.now.words.now compiled.now.left_states compiled.now.right_states fit list.now (word_at name.now from) from steps (memory found.old left.old right.old) (memory found.new left.new right.new) result }
{
    let part = reading::words::find_word(list, name, from, end);
    found[from] = part;
    if part != 0 {
        return Some(steps);
    }
    if !fit {
        return None;
    }
    run_passes(
        compiled,
        &frame[from..end + 1],
        steps,
        &mut left[from..],
        &mut right[from..],
    )
}

// The passes of the words in turn; the count of each word goes on from the one before.
pub fn run_words(
    compiled: &Compiled<'_>,
    fit: bool,
    list: &[u32],
    name: &[u8],
    frame: &[u8],
    found: &mut [u16],
    left: &mut [u16],
    right: &mut [u16],
) -> Option<usize>
    requires { (fit ≡ true → Rows (length compiled.now.words.now) compiled.now.left_states compiled.now.right_states) × Unsaid list.now name.now × (frame.now ≡ frame_of name.now) × Sized (memory found.old left.old right.old) }
    ensures { AllPassed compiled.now.words.now compiled.now.left_states compiled.now.right_states fit list.now name.now (memory found.new left.new right.new) result }
{
    let mut steps = 0;
    let mut from = 0;
    while from <= name.len() {
        let end = reading::words::word_end(name, from);
        steps = run_word(
            compiled,
            fit,
            list,
            name,
            frame,
            from,
            end,
            steps,
            &mut *found,
            &mut *left,
            &mut *right,
        )?;
        from = end;
    }
    Some(steps)
}
