// The strings of letters that a run of symbols stands for, by their ordinals.
ghost use Rattle.std.specs.Prelude.{◌≡◌, ◌/◌, ◌≤◌, length};
ghost use Rattle.rules.specs.Memory.{over};
ghost use Rattle.classes.specs.Expansion.{size};
ghost use Rattle.classes.specs.Masks.{masks_size, classes_in};
ghost use Rattle.classes.specs.Ordinal.{choice_at};

use crate::symbols::{letter_round, rest_after};

// What is left of the ordinal j for the symbols before a run.
pub fn rest_of(masks: &[u8], run: &[u8], j: usize) -> usize
    requires { (masks_size ≤ length masks.now) × (1 ≤ size (classes_in masks.now) run.now) }
    ensures { result ≡ j / size (classes_in masks.now) run.now }
{
    let mut q = j;
    for &symbol in run {
        q = rest_after(masks, symbol, q);
    }
    q
}

// Choice j of a run is stored; what is left of j for the symbols before.
pub fn put_choice(masks: &[u8], run: &[u8], j: usize, out: &mut [u8]) -> usize
    requires { (masks_size ≤ length masks.now) × ((1 ≤ size (classes_in masks.now) run.now) × (length run.now ≤ length out.old)) }
    ensures { (result ≡ j / size (classes_in masks.now) run.now) × (out.new ≡ over (choice_at (classes_in masks.now) run.now j) out.old) }
{
    let mut q = j;
    for i in (0..run.len()).rev() {
        out[i] = letter_round(masks, run[i], q);
        q = rest_after(masks, run[i], q);
    }
    q
}
