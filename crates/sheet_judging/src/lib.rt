// All names of a walk sheet judged, before anything is written (document 02, request 8).
#![tactic(auto)]

ghost use Rattle.std.specs.Prelude.{◌≡◌, true, ◌+◌, ◌*◌, ◌<◌, ◌≤◌, length, get_or};
ghost use Rattle.rules.specs.Limits.{max_names};
ghost use Rattle.exceptions.specs.Judging.{KnownList};
ghost use Rattle.image.specs.Image.{valid, edits_of};
ghost use Rattle.speech.specs.Places.{frame_size};
ghost use Rattle.passes.specs.Passes.{max_steps, left_rows_of, memory, Sized};
ghost use Rattle.walk.specs.Walked.{FitsAs};
ghost use Rattle.prefix_tree.specs.Tree.{node_size, max_nodes, Room};
ghost use Rattle.sheet_passes.specs.Passing.{HoldsSome};
ghost use Rattle.many_names.specs.Names.{name_at};
ghost use Rattle.sheet_name.specs.Judging.{room_of};
ghost use Rattle.sheet_judging.specs.Sheet.{work_room};
ghost use Rattle.sheet_judging.specs.Kept.{Root, NextJudged, SheetJudged};

use passes::Compiled;
use rules::Refusal;

// How far the judging has come: the place in the sheet, the names judged, the parts kept, the nodes of the tree, and the entries looked up.
#[derive(Clone, Copy)]
pub struct Judging {
    pub at: usize,
    pub count: usize,
    pub kept: usize,
    pub nodes: usize,
    pub steps: usize,
}

// The next name is judged into the place after the parts of the names before, where its own are kept.
fn judge_next(
    compiled: &Compiled<'_>,
    fit: bool,
    stale: bool,
    image: &[u8],
    list: &[u32],
    sheet: &[u8],
    tree: &mut [u16],
    ends: &mut [u32],
    starts: &mut [u32],
    kept: &mut [u32],
    p: Judging,
    found: &mut [u16],
    left: &mut [u16],
    right: &mut [u16],
) -> Result<Judging, Refusal>
    requires { FitsAs compiled.now.words.now compiled.now.sets.now compiled.now.left_states compiled.now.right_states (edits_of image.now) fit stale × (valid image.now ≡ true) × KnownList list.now × (p.at + 1 + get_or sheet.now p.at 0 ≤ length sheet.now) × HoldsSome fit (left_rows_of compiled.now.words.now compiled.now.left_states) tree.old p.nodes × Room tree.old (p.nodes + room_of (name_at sheet.now p.at)) × (p.steps + 4 * frame_size ≤ max_steps) × (p.count < max_names) × (p.count < length ends.old) × (p.count < length starts.old) × (p.kept ≤ max_nodes) × (p.kept + frame_size ≤ length kept.old) × Sized (memory found.old left.old right.old) }
    ensures { NextJudged compiled.now.words.now compiled.now.sets.now compiled.now.left_states compiled.now.right_states fit image.now list.now sheet.now tree.old ends.old starts.old kept.old p tree.new ends.new starts.new kept.new result }
{
    let at = p.at;
    let start = at + 1;
    let end = start + usize::from(sheet[at]);
    let i = p.count;
    let from = p.kept;
    let to = from + reading::MAX_FRAME;
    let judged = sheet_name::judge_name(
        compiled,
        fit,
        stale,
        image,
        list,
        &sheet[start..end],
        tree,
        p.nodes,
        p.steps,
        &mut kept[from..to],
        found,
        left,
        right,
    );
    let x = judged?;
    ends[i] = x.end;
    starts[i] = from as u32;
    Ok(Judging {
        at: end,
        count: i + 1,
        kept: from + sheet_name::parts_in(x.end),
        nodes: x.nodes,
        steps: x.steps,
    })
}

// The names of the sheet are judged in turn, up to the first that refuses it. `found`, `left` and `right` are the memory of the passes, whatever it held:
// each name writes what it reads there.
pub fn judge_sheet(
    compiled: &Compiled<'_>,
    fit: bool,
    stale: bool,
    image: &[u8],
    list: &[u32],
    sheet: &[u8],
    limit: usize,
    tree: &mut [u16],
    ends: &mut [u32],
    starts: &mut [u32],
    kept: &mut [u32],
    found: &mut [u16],
    left: &mut [u16],
    right: &mut [u16],
) -> Result<Judging, Refusal>
    requires { FitsAs compiled.now.words.now compiled.now.sets.now compiled.now.left_states compiled.now.right_states (edits_of image.now) fit stale × (valid image.now ≡ true) × KnownList list.now × Root tree.old × (node_size * (work_room sheet.now + 1) ≤ length tree.old) × (work_room sheet.now + frame_size ≤ length kept.old) × (limit ≤ max_names) × (limit ≤ length ends.old) × (limit ≤ length starts.old) × Sized (memory found.old left.old right.old) }
    ensures { SheetJudged compiled.now.words.now compiled.now.sets.now compiled.now.left_states compiled.now.right_states fit image.now list.now sheet.now limit tree.old ends.old starts.old kept.old tree.new ends.new starts.new kept.new result }
{
    let mut p = Judging {
        at: 0,
        count: 0,
        kept: 0,
        nodes: 1,
        steps: 0,
    };
    while many_names::has_next(sheet, p.at, p.count, limit) {
        p = judge_next(
            compiled,
            fit,
            stale,
            image,
            list,
            sheet,
            &mut *tree,
            &mut *ends,
            &mut *starts,
            &mut *kept,
            p,
            &mut *found,
            &mut *left,
            &mut *right,
        )?;
    }
    Ok(p)
}
