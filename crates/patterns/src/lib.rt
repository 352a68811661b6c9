// The patterns of one side of a ruleset's tables, laid for the row filler (document 01, "The tables"): those of the literal rules, the right ones
// from their end.
#![tactic(auto)]

ghost use Rattle.std.specs.Prelude.{◌≡◌, ◌+◌, ◌/◌, ◌≤◌, ◌<◌, ◌++◌, reverse, length, get_or};
ghost use Rattle.rules.specs.Limits.{max_pattern};
ghost use Rattle.classes.specs.Expansion.{size};
ghost use Rattle.classes.specs.Masks.{masks_size, classes_in};
ghost use Rattle.classes.specs.Ordinal.{choice_at};
ghost use Rattle.image.specs.Image.{total_of};
ghost use Rattle.side.specs.Wrote.{Wrote};
ghost use Rattle.patterns.specs.Sides.{Put, pattern_in, Scratch, Laid};

use image::ruleset::Ruleset;

// The symbols of `s` are stored from `at` on, the last one first.
fn put_reversed(pats: &mut [u8], at: usize, s: &[u8])
    requires { at + length s.now ≤ length pats.old }
    ensures { Wrote pats.old at (length s.now) (λ k. get_or (reverse s.now) k 0) pats.new }
{
    for (k, &symbol) in s.iter().rev().enumerate() {
        pats[at + k] = symbol;
    }
}

// Choice `j` of a run of symbols is stored from `at` on, the last letter first.
fn put_choice_reversed(pats: &mut [u8], at: usize, masks: &[u8], run: &[u8], j: usize)
    requires { (masks_size ≤ length masks.now) × (1 ≤ size (classes_in masks.now) run.now) × (at + length run.now ≤ length pats.old) }
    ensures { Wrote pats.old at (length run.now) (λ k. get_or (reverse (choice_at (classes_in masks.now) run.now j)) k 0) pats.new }
{
    let mut q = j;
    for (k, &symbol) in run.iter().rev().enumerate() {
        pats[at + k] = classes::symbols::letter_round(masks, symbol, q);
        q = classes::symbols::rest_after(masks, symbol, q);
    }
}

// The left context of literal rule `j` of a rule with these contexts is stored from `at` on. Gives its length.
fn put_left(pats: &mut [u8], at: usize, masks: &[u8], left: &[u8], right: &[u8], j: usize) -> usize
    requires { (masks_size ≤ length masks.now) × (1 ≤ size (classes_in masks.now) left.now) × (1 ≤ size (classes_in masks.now) right.now) × (at + length left.now ≤ length pats.old) }
    ensures { Put pats.old at (choice_at (classes_in masks.now) left.now (j / size (classes_in masks.now) right.now)) result pats.new }
{
    let q = classes::ordinals::rest_of(masks, right, j);
    classes::ordinals::put_choice(masks, left, q, &mut pats[at..]);
    left.len()
}

// The target and the right context of literal rule `j` are stored from `at` on, from their end on. Gives their length.
fn put_right(
    pats: &mut [u8],
    at: usize,
    masks: &[u8],
    target: &[u8],
    right: &[u8],
    j: usize,
) -> usize
    requires { (masks_size ≤ length masks.now) × (1 ≤ size (classes_in masks.now) right.now) × (at + length right.now + length target.now ≤ length pats.old) }
    ensures { Put pats.old at (reverse (target.now ++ choice_at (classes_in masks.now) right.now j)) result pats.new }
{
    let n = right.len();
    put_choice_reversed(pats, at, masks, right, j);
    put_reversed(pats, at + n, target);
    n + target.len()
}

// The pattern of a literal rule is stored from `at` on: its left context, or its target and right context from their end on. Gives its
// length.
fn put_pattern(pats: &mut [u8], at: usize, rules: Ruleset<'_>, p: usize, right: bool) -> usize
    requires { (p < total_of rules.bytes.now) × (at + max_pattern ≤ length pats.old) }
    ensures { Put pats.old at (pattern_in rules.entry.bytes.now right p) result pats.new }
{
    let place = rules.owner_at(p);
    let j = rules.ordinal_at(p);
    let masks = rules.masks();
    let after = rules.right_at(place);
    if right {
        let target = rules.target_at(place);
        return put_right(pats, at, masks, target, after, j);
    }
    let left = rules.left_at(place);
    put_left(pats, at, masks, left, after, j)
}

// Pattern i is laid from MAX_PATTERN i on, and its length is lens[i].
pub fn lay_side(rules: Ruleset<'_>, n: usize, right: bool, pats: &mut [u8], lens: &mut [u8])
    requires { (n ≡ total_of rules.bytes.now) × Scratch pats.old lens.old }
    ensures { Laid rules.entry.bytes.now right pats.new lens.new }
{
    for i in 0..n {
        let len = put_pattern(pats, rules::MAX_PATTERN * i, rules, i, right);
        lens[i] = len as u8;
    }
}
