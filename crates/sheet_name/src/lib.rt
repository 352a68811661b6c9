// What a name of a sheet comes to, judged before anything is written (document 02, request 8).
#![tactic(auto)]

ghost use Rattle.std.specs.Prelude.{◌≡◌, true, ◌+◌, ◌*◌, ◌≤◌, length, IfSome};
ghost use Rattle.rules.specs.Names.{SoundName};
ghost use Rattle.exceptions.specs.Judging.{KnownList};
ghost use Rattle.image.specs.Image.{valid, edits_of};
ghost use Rattle.speech.specs.Words.{frame_of};
ghost use Rattle.speech.specs.Places.{Unsaid, frame_size, EndsBy};
ghost use Rattle.passes.specs.Passes.{max_steps, left_rows_of, memory, Sized};
ghost use Rattle.walk.specs.Walked.{FitsAs};
ghost use Rattle.prefix_tree.specs.Tree.{Room};
ghost use Rattle.sheet_passes.specs.Passing.{HoldsSome};
ghost use Rattle.sheet_name.specs.Judging.{FrameJudged, parts_in, room_of, settled, NameJudged};

use passes::Compiled;
use prefix_tree::Counts;
use rules::Refusal;
use speech::Unread;

// What the words of a name came to: how many nodes the tree has, how many entries have been looked up, and how reading ended.
#[derive(Clone, Copy)]
struct Judged {
    counts: Counts,
    reached: Result<usize, Unread>,
}

// All passes of a name that is not on the list, then each reached letter; the parts are remembered, and nothing is said. It comes to nothing where a state
// is out of range. `found`, `left` and `right` are the memory of the passes, whatever it held: a sheet makes it once for all its names.
fn judge_frame(
    compiled: &Compiled<'_>,
    fit: bool,
    stale: bool,
    image: &[u8],
    list: &[u32],
    name: &[u8],
    frame: &[u8],
    tree: &mut [u16],
    nodes: usize,
    steps: usize,
    parts: &mut [u32],
    found: &mut [u16],
    left: &mut [u16],
    right: &mut [u16],
) -> Option<Judged>
    requires { FitsAs compiled.now.words.now compiled.now.sets.now compiled.now.left_states compiled.now.right_states (edits_of image.now) fit stale × (valid image.now ≡ true) × Unsaid list.now name.now × (frame.now ≡ frame_of name.now) × HoldsSome fit (left_rows_of compiled.now.words.now compiled.now.left_states) tree.old nodes × Room tree.old (nodes + (length name.now + 1)) × (steps + 4 * frame_size ≤ max_steps) × (length parts.old ≡ frame_size) × Sized (memory found.old left.old right.old) }
    ensures { FrameJudged compiled.now.words.now compiled.now.sets.now compiled.now.left_states compiled.now.right_states fit stale image.now list.now name.now tree.old nodes steps tree.new parts.new result }
{
    let counts = sheet_passes::pass_words(
        compiled,
        fit,
        list,
        name,
        frame,
        tree,
        nodes,
        steps,
        &mut *found,
        &mut *left,
        &mut *right,
    )?;
    let reached = table_reading::read_words(
        compiled.sets,
        walk::right_base(fit, compiled.left_states),
        image,
        name,
        frame,
        found,
        left,
        right,
        parts,
    );
    Some(Judged { counts, reached })
}

// How reading ended, as a number: one more than the rules applied, or, from this on, the position of a letter without a rule; 0 for a name that sends no
// word through the tables.
pub const UNCOVERED: usize = reading::MAX_FRAME + 2;

// How many parts are kept with such a number.
pub fn parts_in(end: u32) -> usize
    ensures { result ≡ parts_in end }
{
    let n = end as usize;
    if UNCOVERED <= n {
        return 0;
    }
    if n == 0 {
        return 0;
    }
    n - 1
}

// What a name that does not refuse the sheet came to: the nodes and the steps; how reading ended.
#[derive(Clone, Copy)]
pub struct Judgement {
    pub nodes: usize,
    pub steps: usize,
    pub end: u32,
}

// How reading ended, settled for the sheet, which 16 and 22 refuse.
fn settle(x: Option<Judged>, stale: bool) -> Result<Judgement, Refusal>
    requires { IfSome x (λ j. EndsBy frame_size j.reached) }
    ensures { result ≡ settled x stale }
{
    let Some(judged) = x else {
        let refusal = if stale {
            Refusal::StaleTables(0)
        } else {
            Refusal::BadTables(0)
        };
        return Err(refusal);
    };
    let counts = judged.counts;
    let end = match judged.reached {
        Ok(k) => (k + 1) as u32,
        Err(Unread::Uncovered(i)) => (i + UNCOVERED) as u32,
        Err(Unread::BadTables) => return Err(Refusal::BadTables(0)),
    };
    Ok(Judgement {
        nodes: counts.nodes,
        steps: counts.steps,
        end,
    })
}

// A sound name that is not on the list.
fn judge_words(
    compiled: &Compiled<'_>,
    fit: bool,
    stale: bool,
    image: &[u8],
    list: &[u32],
    name: &[u8],
    tree: &mut [u16],
    nodes: usize,
    steps: usize,
    parts: &mut [u32],
    found: &mut [u16],
    left: &mut [u16],
    right: &mut [u16],
) -> Result<Judgement, Refusal>
    requires { FitsAs compiled.now.words.now compiled.now.sets.now compiled.now.left_states compiled.now.right_states (edits_of image.now) fit stale × (valid image.now ≡ true) × Unsaid list.now name.now × HoldsSome fit (left_rows_of compiled.now.words.now compiled.now.left_states) tree.old nodes × Room tree.old (nodes + (length name.now + 1)) × (steps + 4 * frame_size ≤ max_steps) × (length parts.old ≡ frame_size) × Sized (memory found.old left.old right.old) }
    ensures { NameJudged compiled.now.words.now compiled.now.sets.now compiled.now.left_states compiled.now.right_states fit image.now list.now name.now tree.old nodes steps tree.new parts.new result }
{
    let mut frame = [0u8; reading::MAX_FRAME];
    reading::words::lay_frame(name, &mut frame);
    let end = name.len() + 2;
    let x = judge_frame(
        compiled,
        fit,
        stale,
        image,
        list,
        name,
        &frame[..end],
        tree,
        nodes,
        steps,
        parts,
        found,
        left,
        right,
    );
    settle(x, stale)
}

// A sound name: one that is on the list sends no word through the tables.
fn judge_sound(
    compiled: &Compiled<'_>,
    fit: bool,
    stale: bool,
    image: &[u8],
    list: &[u32],
    name: &[u8],
    tree: &mut [u16],
    nodes: usize,
    steps: usize,
    parts: &mut [u32],
    found: &mut [u16],
    left: &mut [u16],
    right: &mut [u16],
) -> Result<Judgement, Refusal>
    requires { FitsAs compiled.now.words.now compiled.now.sets.now compiled.now.left_states compiled.now.right_states (edits_of image.now) fit stale × (valid image.now ≡ true) × KnownList list.now × SoundName name.now × HoldsSome fit (left_rows_of compiled.now.words.now compiled.now.left_states) tree.old nodes × Room tree.old (nodes + (length name.now + 1)) × (steps + 4 * frame_size ≤ max_steps) × (length parts.old ≡ frame_size) × Sized (memory found.old left.old right.old) }
    ensures { NameJudged compiled.now.words.now compiled.now.sets.now compiled.now.left_states compiled.now.right_states fit image.now list.now name.now tree.old nodes steps tree.new parts.new result }
{
    let ending = exceptions::end_state(list, name);
    match ending {
        Some(_) => Ok(Judgement {
            nodes,
            steps,
            end: 0,
        }),
        None => judge_words(
            compiled, fit, stale, image, list, name, tree, nodes, steps, parts, found, left, right,
        ),
    }
}

// A name of the sheet: one that is refused with 2 or 1 sends no word through the tables.
pub fn judge_name(
    compiled: &Compiled<'_>,
    fit: bool,
    stale: bool,
    image: &[u8],
    list: &[u32],
    name: &[u8],
    tree: &mut [u16],
    nodes: usize,
    steps: usize,
    parts: &mut [u32],
    found: &mut [u16],
    left: &mut [u16],
    right: &mut [u16],
) -> Result<Judgement, Refusal>
    requires { FitsAs compiled.now.words.now compiled.now.sets.now compiled.now.left_states compiled.now.right_states (edits_of image.now) fit stale × (valid image.now ≡ true) × KnownList list.now × HoldsSome fit (left_rows_of compiled.now.words.now compiled.now.left_states) tree.old nodes × Room tree.old (nodes + room_of name.now) × (steps + 4 * frame_size ≤ max_steps) × (length parts.old ≡ frame_size) × Sized (memory found.old left.old right.old) }
    ensures { NameJudged compiled.now.words.now compiled.now.sets.now compiled.now.left_states compiled.now.right_states fit image.now list.now name.now tree.old nodes steps tree.new parts.new result }
{
    let judged = rules::judge_name(name);
    match judged {
        Err(_) => Ok(Judgement {
            nodes,
            steps,
            end: 0,
        }),
        Ok(()) => judge_sound(
            compiled, fit, stale, image, list, name, tree, nodes, steps, parts, found, left, right,
        ),
    }
}
