// The choice at a reached letter: where a rule fits, the first in order that does, and how many do (document 01, "Letters, rules, fitting";
// document 02, requests 4 and 5). The letter classes are handed on as the masks that the ruleset holds.
#![tactic(auto)]

ghost use Rattle.std.specs.Prelude.{◌≡◌, true, ◌+◌, ◌<◌, ◌≤◌, length, take, drop};
ghost use Rattle.rules.specs.Limits.{max_target};
ghost use Rattle.classes.specs.Masks.{masks_size, classes_in};
ghost use Rattle.image.specs.Image.{count_of, entries_of, entry_at, masks_in, classes_of, valid};
ghost use Rattle.fitting.specs.Fitting.{same, starts, same_by, starts_by, ends_by, fits_by};
ghost use Rattle.fitting.specs.Reading.{passing};
ghost use Rattle.fitting.specs.Search.{FitAt};

use image::ruleset::Ruleset;

// A rule that fits, by its place, and how many rules fit there.
#[derive(Clone, Copy)]
pub struct Fit {
    pub place: usize,
    pub fitting: usize,
}

// Whether `b` has the symbols of `a` from `at` on. By a loop: the first symbol decides soonest, and `starts_with` calls a function to compare them all,
// which took plain reading twice as long.
fn same_run(a: &[u8], b: &[u8], at: usize) -> bool
    requires { at + length a.now ≤ length b.now }
    ensures { result ≡ same a.now (take (length a.now) (drop at b.now)) }
{
    for (i, &symbol) in a.iter().enumerate() {
        if symbol != b[at + i] {
            return false;
        }
    }
    true
}

// Whether the frame starts, from `i` on, with a pattern.
pub fn starts_at(pattern: &[u8], frame: &[u8], i: usize) -> bool
    requires { i ≤ length frame.now }
    ensures { result ≡ starts pattern.now (drop i frame.now) }
{
    if frame.len() - i < pattern.len() {
        return false;
    }
    same_run(pattern, frame, i)
}

// Whether the symbols of a context stand for the letters of the frame from `at` on.
fn same_by(masks: &[u8], context: &[u8], frame: &[u8], at: usize) -> bool
    requires { (masks_size ≤ length masks.now) × (at + length context.now ≤ length frame.now) }
    ensures { result ≡ same_by (classes_in masks.now) context.now (take (length context.now) (drop at frame.now)) }
{
    for (i, &symbol) in context.iter().enumerate() {
        if !classes::symbols::stands_for(masks, symbol, frame[at + i]) {
            return false;
        }
    }
    true
}

// Whether the frame starts, from `i` on, with letters that a context stands for.
fn starts_by(masks: &[u8], context: &[u8], frame: &[u8], i: usize) -> bool
    requires { (masks_size ≤ length masks.now) × (i ≤ length frame.now) }
    ensures { result ≡ starts_by (classes_in masks.now) context.now (drop i frame.now) }
{
    if frame.len() - i < context.len() {
        return false;
    }
    same_by(masks, context, frame, i)
}

// Whether the frame before `i` ends with letters that a context stands for.
fn ends_by(masks: &[u8], context: &[u8], frame: &[u8], i: usize) -> bool
    requires { (masks_size ≤ length masks.now) × (i ≤ length frame.now) }
    ensures { result ≡ ends_by (classes_in masks.now) context.now (take i frame.now) }
{
    if i < context.len() {
        return false;
    }
    same_by(masks, context, frame, i - context.len())
}

// Whether the rule at a place fits at `i`, with the ruleset's masks in hand. The target is tested first: it decides soonest.
fn fits_by(rules: Ruleset<'_>, masks: &[u8], place: usize, frame: &[u8], i: usize) -> bool
    requires { (masks.now ≡ masks_in rules.bytes.now) × ((place < count_of rules.bytes.now) × (i ≤ length frame.now)) }
    ensures { result ≡ fits_by (classes_of rules.entry.bytes.now) (entry_at rules.entry.bytes.now place).rule frame.now i }
{
    let target = rules.target_at(place);
    if !starts_at(target, frame, i) {
        return false;
    }
    let right = rules.right_at(place);
    if !starts_by(masks, right, frame, i + target.len()) {
        return false;
    }
    let left = rules.left_at(place);
    ends_by(masks, left, frame, i)
}

// Whether the rule at a place fits at `i`.
pub fn fits_at(image: &[u8], place: usize, frame: &[u8], i: usize) -> bool
    requires { (valid image.now ≡ true) × ((place < count_of image.now) × (i ≤ length frame.now)) }
    ensures { result ≡ fits_by (classes_of image.now) (entry_at image.now place).rule frame.now i }
{
    let rules = Ruleset { bytes: image };
    fits_by(rules, rules.masks(), place, frame, i)
}

// The length of the target of the rule at a place.
pub fn target_len_at(image: &[u8], place: usize) -> usize
    requires { (valid image.now ≡ true) × (place < count_of image.now) }
    ensures { (result ≡ length (entry_at image.now place).rule.target) × ((1 ≤ result) × (result ≤ max_target)) }
{
    let rules = Ruleset { bytes: image };
    let target = rules.target_at(place);
    target.len()
}

// How many of the rules from `from` on fit at `i`.
fn count_fits(
    rules: Ruleset<'_>,
    masks: &[u8],
    count: usize,
    frame: &[u8],
    i: usize,
    from: usize,
) -> usize
    requires { (masks.now ≡ masks_in rules.bytes.now) × ((count ≡ count_of rules.bytes.now) × ((i ≤ length frame.now) × (from ≤ count))) }
    ensures { result ≡ passing (λ e. fits_by (classes_of rules.entry.bytes.now) e.rule frame.now i) (drop from (entries_of rules.entry.bytes.now)) }
{
    let mut fitting = 0;
    for p in from..count {
        if fits_by(rules, masks, p, frame, i) {
            fitting += 1;
        }
    }
    fitting
}

// The first rule in order that fits at `i`, and how many do: none before it.
pub fn first_fit(image: &[u8], count: usize, frame: &[u8], i: usize) -> Option<Fit>
    requires { (valid image.now ≡ true) × ((count ≡ count_of image.now) × (i ≤ length frame.now)) }
    ensures { FitAt image.now frame.now i result }
{
    let rules = Ruleset { bytes: image };
    let masks = rules.masks();
    for place in 0..count {
        if fits_by(rules, masks, place, frame, i) {
            let fitting = count_fits(rules, masks, count, frame, i, place);
            return Some(Fit { place, fitting });
        }
    }
    None
}
