// The passes of a name's words where the left pass is shared by all words of a sheet (document 02, request 8).
#![tactic(auto)]

ghost use Rattle.std.specs.Prelude.{◌≡◌, true, ◌+◌, ◌-◌, ◌*◌, ◌<◌, ◌≤◌, length};
ghost use Rattle.speech.specs.Words.{frame_of, word_at, WordOf};
ghost use Rattle.speech.specs.Places.{Unsaid, frame_size};
ghost use Rattle.tables.specs.Words.{needed_words};
ghost use Rattle.passes.specs.Passes.{max_steps, Symbols, left_rows_of, Rows, memory, Sized};
ghost use Rattle.prefix_tree.specs.Tree.{Room, Tree};
ghost use Rattle.sheet_passes.specs.Passing.{HoldsSome, FramePassed, WordShared, NameShared};

use passes::Compiled;
use prefix_tree::Counts;

// The shared left pass over a frame, then the right pass, whose count goes on from the left's.
fn pass_frame(
    compiled: &Compiled<'_>,
    frame: &[u8],
    tree: &mut [u16],
    nodes: usize,
    steps: usize,
    left: &mut [u16],
    right: &mut [u16],
) -> Option<Counts>
    requires { (0 < compiled.now.right_states) × (needed_words compiled.now.left_states compiled.now.right_states ≤ length compiled.now.words.now) × (2 ≤ length frame.now) × (length frame.now ≤ frame_size) × Symbols frame.now × (length frame.now ≤ length left.old) × (length frame.now ≤ length right.old) × Tree tree.old nodes compiled.now.left_states × Room tree.old (nodes + (length frame.now - 1)) × (steps + 2 * frame_size ≤ max_steps) }
    ensures { FramePassed compiled.now.words.now compiled.now.left_states compiled.now.right_states frame.now tree.old nodes steps left.old right.old tree.new left.new right.new result }
{
    let first = prefix_tree::shared_pass(
        compiled.words,
        tables::HEAD,
        compiled.left_states,
        frame,
        tree,
        nodes,
        steps,
        left,
    )?;
    let steps = passes::right_pass(
        compiled.words,
        tables::HEAD + tables::ROW * compiled.left_states,
        compiled.right_states,
        frame,
        first.steps,
        right,
    )?;
    Some(Counts {
        nodes: first.nodes,
        steps,
    })
}

// The passes of one word, where the list gives no part for it; that part, or 0, goes to `found`. Where the tables are not `fit`, of other lengths or
// another edit count, no word can pass.
fn pass_word(
    compiled: &Compiled<'_>,
    fit: bool,
    list: &[u32],
    name: &[u8],
    frame: &[u8],
    from: usize,
    end: usize,
    tree: &mut [u16],
    nodes: usize,
    steps: usize,
    found: &mut [u16],
    left: &mut [u16],
    right: &mut [u16],
) -> Option<Counts>
    requires { (fit ≡ true → Rows (length compiled.now.words.now) compiled.now.left_states compiled.now.right_states) × Unsaid list.now name.now × (frame.now ≡ frame_of name.now) × WordOf name.now from end × Sized (memory found.old left.old right.old) × HoldsSome fit (left_rows_of compiled.now.words.now compiled.now.left_states) tree.old nodes × Room tree.old (nodes + (length (word_at name.now from) + 1)) × (steps + 2 * frame_size ≤ max_steps) }
    ensures { WordShared compiled.now.words.now compiled.now.left_states compiled.now.right_states fit list.now (word_at name.now from) from (memory found.old left.old right.old) (memory found.new left.new right.new) tree.old nodes steps tree.new result }
{
    let part = reading::words::find_word(list, name, from, end);
    found[from] = part;
    if part != 0 {
        return Some(Counts { nodes, steps });
    }
    if !fit {
        return None;
    }
    pass_frame(
        compiled,
        &frame[from..end + 1],
        tree,
        nodes,
        steps,
        &mut left[from..],
        &mut right[from..],
    )
}

// The passes of the words of a name in turn; the count of each word goes on from the one before.
pub fn pass_words(
    compiled: &Compiled<'_>,
    fit: bool,
    list: &[u32],
    name: &[u8],
    frame: &[u8],
    tree: &mut [u16],
    nodes: usize,
    steps: usize,
    found: &mut [u16],
    left: &mut [u16],
    right: &mut [u16],
) -> Option<Counts>
    requires { (fit ≡ true → Rows (length compiled.now.words.now) compiled.now.left_states compiled.now.right_states) × Unsaid list.now name.now × (frame.now ≡ frame_of name.now) × Sized (memory found.old left.old right.old) × HoldsSome fit (left_rows_of compiled.now.words.now compiled.now.left_states) tree.old nodes × Room tree.old (nodes + (length name.now + 1)) × (steps + 4 * frame_size ≤ max_steps) }
    ensures { NameShared compiled.now.words.now compiled.now.left_states compiled.now.right_states fit list.now name.now (memory found.new left.new right.new) tree.old nodes steps tree.new result }
{
    let mut p = Counts { nodes, steps };
    let mut from = 0;
    while from <= name.len() {
        let end = reading::words::word_end(name, from);
        p = pass_word(
            compiled,
            fit,
            list,
            name,
            frame,
            from,
            end,
            &mut *tree,
            p.nodes,
            p.steps,
            &mut *found,
            &mut *left,
            &mut *right,
        )?;
        from = end;
    }
    Some(p)
}
