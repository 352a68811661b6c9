// Where the literal rule at a place fits, and where its target then ends: what the walk asks of the place that it finds (document 02, request 5).
#![tactic(auto)]

ghost use Rattle.std.specs.Prelude.{◌≡◌, true, cond, ◌+◌, ◌<◌, ◌≤◌, length, take, drop};
ghost use Rattle.classes.specs.Expansion.{size};
ghost use Rattle.classes.specs.Masks.{masks_size, classes_in};
ghost use Rattle.classes.specs.Ordinal.{choice_at, literal_at};
ghost use Rattle.image.specs.Image.{valid, total_of};
ghost use Rattle.fitting.specs.Fitting.{ends, starts};
ghost use Rattle.literals.specs.Matching.{matched, started, rule_with, end_of};
ghost use Rattle.literals.specs.Places.{literal_entry};

use image::ruleset::Ruleset;

// What is left of `j` for the symbols before a run, where the letters of the frame from `to` on are choice `j` of it.
fn match_choice(masks: &[u8], run: &[u8], j: usize, frame: &[u8], to: usize) -> Option<usize>
    requires { (masks_size ≤ length masks.now) × ((1 ≤ size (classes_in masks.now) run.now) × (to + length run.now ≤ length frame.now)) }
    ensures { result ≡ matched (classes_in masks.now) run.now (take (length run.now) (drop to frame.now)) j }
{
    let mut q = j;
    for i in (0..run.len()).rev() {
        q = classes::symbols::step(masks, run[i], frame[to + i], q)?;
    }
    Some(q)
}

// The same, where the frame starts, from `i` on, with choice `j` of a run.
fn starts_choice(masks: &[u8], run: &[u8], j: usize, frame: &[u8], i: usize) -> Option<usize>
    requires { (masks_size ≤ length masks.now) × ((1 ≤ size (classes_in masks.now) run.now) × (i ≤ length frame.now)) }
    ensures { result ≡ started (classes_in masks.now) run.now (drop i frame.now) j }
{
    if frame.len() - i < run.len() {
        return None;
    }
    match_choice(masks, run, j, frame, i)
}

// Whether the frame before `i` ends with choice `j` of a run.
fn ends_choice(masks: &[u8], run: &[u8], j: usize, frame: &[u8], i: usize) -> bool
    requires { (masks_size ≤ length masks.now) × ((1 ≤ size (classes_in masks.now) run.now) × (i ≤ length frame.now)) }
    ensures { result ≡ ends (choice_at (classes_in masks.now) run.now j) (take i frame.now) }
{
    if i < run.len() {
        return false;
    }
    match_choice(masks, run, j, frame, i - run.len()).is_some()
}

// Where a target ends that the frame has from `i` on, 0 where the frame has other letters there. One letter is a case apart, so that a processor
// goes on at the next letter before it has the length; with `== 1` for `< 2` the compiler joins the two cases again.
fn target_end(target: &[u8], frame: &[u8], i: usize) -> usize
    requires { (1 ≤ length target.now) × (i < length frame.now) }
    ensures { result ≡ cond (starts target.now (drop i frame.now)) (i + length target.now) 0 }
{
    if target.len() < 2 {
        if target[0] != frame[i] {
            return 0;
        }
        return i + 1;
    }
    if !fitting::starts_at(target, frame, i) {
        return 0;
    }
    i + target.len()
}

// Where the target of literal rule `j` of a rule ends if it fits at `i`, else 0. The target is tested first: it decides soonest; of a rule
// without contexts, which most letters take, it decides alone. What the right context leaves of `j` is the left one's.
fn literal_end(
    masks: &[u8],
    left: &[u8],
    target: &[u8],
    right: &[u8],
    j: usize,
    frame: &[u8],
    i: usize,
) -> usize
    requires { (masks_size ≤ length masks.now) × ((1 ≤ size (classes_in masks.now) left.now) × ((1 ≤ size (classes_in masks.now) right.now) × ((1 ≤ length target.now) × (i < length frame.now)))) }
    ensures { result ≡ end_of (literal_at (classes_in masks.now) (rule_with left.now target.now right.now) j) frame.now i }
{
    let end = target_end(target, frame, i);
    if end == 0 {
        return 0;
    }
    if left.len() + right.len() == 0 {
        return end;
    }
    let Some(q) = starts_choice(masks, right, j, frame, end) else {
        return 0;
    };
    if !ends_choice(masks, left, q, frame, i) {
        return 0;
    }
    end
}

// Where the target of the literal rule at place `p` ends if it fits at `i`, else 0.
pub fn place_end(image: &[u8], p: usize, frame: &[u8], i: usize) -> usize
    requires { (valid image.now ≡ true) × ((p < total_of image.now) × (i < length frame.now)) }
    ensures { result ≡ end_of (literal_entry image.now p).rule frame.now i }
{
    let rules = Ruleset { bytes: image };
    let place = rules.owner_at(p);
    let j = rules.ordinal_at(p);
    let masks = rules.masks();
    let left = rules.left_at(place);
    let target = rules.target_at(place);
    let right = rules.right_at(place);
    literal_end(masks, left, target, right, j, frame, i)
}
