// Runs of symbols: how many strings of letters they stand for, and which symbols they have.
ghost use Rattle.std.specs.Prelude.{◌||◌, ◌≡◌, ◌*◌, ◌≤◌, length};
ghost use Rattle.rules.specs.Limits.{max_rules};
ghost use Rattle.classes.specs.Classes.{letters, is_in};
ghost use Rattle.classes.specs.Counting.{capped};
ghost use Rattle.classes.specs.Expansion.{size};
ghost use Rattle.classes.specs.Masks.{masks_size, classes_in};

use crate::symbols::size_of;

// A number of literal rules as it is told: 513 for all above 512.
fn cap(n: usize) -> usize
    ensures { (result ≡ capped n) × (result ≤ 513) }
{
    if n <= rules::MAX_RULES {
        return n;
    }
    rules::MAX_RULES + 1
}

// `n` times how many letters a symbol stands for, counted to 513. Most symbols are letters, which change nothing.
fn grown(masks: &[u8], symbol: u8, n: usize) -> usize
    requires { (masks_size ≤ length masks.now) × (n ≤ 513) }
    ensures { (result ≡ capped (n * length (letters (classes_in masks.now) symbol))) × (result ≤ 513) }
{
    if symbol < rules::FIRST_CLASS {
        return n;
    }
    cap(n * size_of(masks, symbol))
}

// `from` times how many choices a run has, counted to 513: 0 where a class of it is undefined.
pub fn run_size(masks: &[u8], run: &[u8], from: usize) -> usize
    requires { (masks_size ≤ length masks.now) × (from ≤ 513) }
    ensures { (result ≡ capped (from * size (classes_in masks.now) run.now)) × (result ≤ 513) }
{
    let mut n = from;
    for &symbol in run {
        n = grown(masks, symbol, n);
    }
    n
}

// How many literal rules a rule with these contexts has, counted to 513: 0 where a class that it uses is undefined.
pub fn literal_count(masks: &[u8], left: &[u8], right: &[u8]) -> usize
    requires { masks_size ≤ length masks.now }
    ensures { (result ≡ capped (size (classes_in masks.now) left.now * size (classes_in masks.now) right.now)) × (result ≤ 513) }
{
    run_size(masks, right, run_size(masks, left, 1))
}

// Whether a symbol stands in one of two contexts.
pub fn uses(left: &[u8], right: &[u8], symbol: u8) -> bool
    ensures { result ≡ (is_in symbol left.now || is_in symbol right.now) }
{
    left.contains(&symbol) || right.contains(&symbol)
}
