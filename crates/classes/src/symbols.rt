// The letters that a symbol of a context stands for.
ghost use Rattle.std.specs.Prelude.{◌≡◌, ◌/◌, ◌%◌, ◌<◌, ◌≤◌, length, get_or};
ghost use Rattle.classes.specs.Classes.{letters, stands};
ghost use Rattle.classes.specs.Masks.{masks_size, letters_in, classes_in};
ghost use Rattle.classes.specs.Steps.{stepped};

use crate::masks::{is_letter_in, letter_in, size_in};
use crate::storing::mask_at;

// They, as a mask.
fn mask_of(masks: &[u8], symbol: u8) -> u64
    requires { masks_size ≤ length masks.now }
    ensures { letters_in result ≡ letters (classes_in masks.now) symbol }
{
    if symbol < rules::FIRST_CLASS {
        return numbers::with_bit(0, u64::from(symbol));
    }
    if symbol <= rules::MAX_SYMBOL {
        return mask_at(masks, symbol);
    }
    0
}

// Whether a symbol stands for a letter.
pub fn stands_for(masks: &[u8], symbol: u8, letter: u8) -> bool
    requires { masks_size ≤ length masks.now }
    ensures { result ≡ stands (classes_in masks.now) symbol letter }
{
    if symbol < rules::FIRST_CLASS {
        return symbol == letter;
    }
    if 63 < letter {
        return false;
    }
    let mask = mask_of(masks, symbol);
    numbers::has_bit(mask, u64::from(letter))
}

// How many letters a symbol stands for.
pub fn size_of(masks: &[u8], symbol: u8) -> usize
    requires { masks_size ≤ length masks.now }
    ensures { (result ≡ length (letters (classes_in masks.now) symbol)) × (result ≤ 64) }
{
    if symbol < rules::FIRST_CLASS {
        return 1;
    }
    size_in(mask_of(masks, symbol))
}

// The letter that a symbol stands for at q, counted round.
pub fn letter_round(masks: &[u8], symbol: u8, q: usize) -> u8
    requires { (masks_size ≤ length masks.now) × (1 ≤ length (letters (classes_in masks.now) symbol)) }
    ensures { result ≡ get_or (letters (classes_in masks.now) symbol) (q % length (letters (classes_in masks.now) symbol)) 0 }
{
    if symbol < rules::FIRST_CLASS {
        return symbol;
    }
    let mask = mask_of(masks, symbol);
    letter_in(mask, q % size_in(mask))
}

// What is left of q for the symbols before.
pub fn rest_after(masks: &[u8], symbol: u8, q: usize) -> usize
    requires { (masks_size ≤ length masks.now) × (1 ≤ length (letters (classes_in masks.now) symbol)) }
    ensures { result ≡ q / length (letters (classes_in masks.now) symbol) }
{
    if symbol < rules::FIRST_CLASS {
        return q;
    }
    q / size_in(mask_of(masks, symbol))
}

// What is left of q for the symbols before, where a letter is the one that a symbol stands for at q, counted round.
pub fn step(masks: &[u8], symbol: u8, letter: u8, q: usize) -> Option<usize>
    requires { (masks_size ≤ length masks.now) × (1 ≤ length (letters (classes_in masks.now) symbol)) }
    ensures { result ≡ stepped (classes_in masks.now) symbol letter q }
{
    if symbol < rules::FIRST_CLASS {
        if symbol == letter {
            return Some(q);
        }
        return None;
    }
    let mask = mask_of(masks, symbol);
    let n = size_in(mask);
    if is_letter_in(mask, q % n, letter) {
        return Some(q / n);
    }
    None
}
