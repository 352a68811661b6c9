// Classes as bytes: a mask read, a mask stored, and whether all are those of a ruleset.
ghost use Rattle.std.specs.Prelude.{◌++◌, ◌≡◌, ◌+◌, ◌≤◌, length, take, drop};
ghost use Rattle.numbers.specs.Numbers.{eight, bytes8};
ghost use Rattle.rules.specs.Limits.{first_class, max_symbol};
ghost use Rattle.classes.specs.Masks.{mask_size, masks_size, mask_start, classes_in, classes_shaped};

use crate::MASK_SIZE;
use crate::masks::mask_shaped;

// The mask of a class.
pub fn mask_at(masks: &[u8], symbol: u8) -> u64
    requires { (masks_size ≤ length masks.now) × ((first_class ≤ symbol) × (symbol ≤ max_symbol)) }
    ensures { result ≡ eight (mask_start symbol) masks.now }
{
    let at = MASK_SIZE * (symbol as usize - rules::FIRST_CLASS as usize);
    numbers::eight_at(masks, at)
}

// The mask of a class is stored.
pub fn put_mask(masks: &mut [u8], symbol: u8, mask: u64)
    requires { (masks_size ≤ length masks.old) × ((first_class ≤ symbol) × (symbol ≤ max_symbol)) }
    ensures { masks.new ≡ take (mask_start symbol) masks.old ++ (bytes8 mask ++ drop (mask_start symbol + mask_size) masks.old) }
{
    let at = MASK_SIZE * (symbol as usize - rules::FIRST_CLASS as usize);
    masks[at..at + MASK_SIZE].copy_from_slice(&mask.to_be_bytes());
}

// Whether each class has letters of a class, or none.
pub fn classes_shaped(masks: &[u8]) -> bool
    requires { masks_size ≤ length masks.now }
    ensures { result ≡ classes_shaped (classes_in masks.now) }
{
    for c in rules::FIRST_CLASS..=rules::MAX_SYMBOL {
        if !mask_shaped(mask_at(masks, c)) {
            return false;
        }
    }
    true
}
