// Letters as a mask: digit c is set where letter c is one of them.
ghost use Rattle.std.specs.Prelude.{◌∷◌, ◌≡◌, ◌<◌, ◌≤◌, eqb, length, get_or, drop};
ghost use Rattle.std.specs.Int.Count.{ones_in};
ghost use Rattle.classes.specs.Classes.{letter_set};
ghost use Rattle.classes.specs.Masks.{letters_in, class_mask};

// How many letters a mask has.
pub fn size_in(mask: u64) -> usize
    ensures { (result ≡ length (letters_in mask)) × (result ≤ 64) }
{
    u64::count_ones(mask) as usize
}

// How many letters of a mask are below a letter.
fn rank_in(mask: u64, letter: u64) -> usize
    requires { letter < 64 }
    ensures { result ≡ ones_in letter mask }
{
    u64::count_ones(mask & ((1u64 << letter) - 1)) as usize
}

// The lowest letter of a mask.
pub fn first_letter(mask: u64) -> u8
    requires { 1 ≤ mask }
    ensures { (letters_in mask ≡ result ∷ drop 1 (letters_in mask)) × (result < 64) }
{
    u64::trailing_zeros(mask) as u8
}

// A mask without its lowest letter.
pub fn without_first(mask: u64) -> u64
    requires { 1 ≤ mask }
    ensures { (letters_in result ≡ drop 1 (letters_in mask)) × (result < mask) }
{
    mask & (mask - 1)
}

// Letter d of a mask: the lowest, once the d lowest are taken away.
pub fn letter_in(mask: u64, d: usize) -> u8
    requires { d < length (letters_in mask) }
    ensures { result ≡ get_or (letters_in mask) d 0 }
{
    let mut x = mask;
    for _ in 0..d {
        x = x & (x - 1);
    }
    u64::trailing_zeros(x) as u8
}

// Whether letter d of a mask is the one given.
pub fn is_letter_in(mask: u64, d: usize, letter: u8) -> bool
    requires { d < length (letters_in mask) }
    ensures { result ≡ eqb (get_or (letters_in mask) d 0) letter }
{
    if 63 < letter {
        return false;
    }
    let y = u64::from(letter);
    if !numbers::has_bit(mask, y) {
        return false;
    }
    rank_in(mask, y) == d
}

// Whether the letters of a mask are a class, or none: neither 0 nor 3F is one, and they are at most 32.
pub fn mask_shaped(mask: u64) -> bool
    ensures { result ≡ letter_set (letters_in mask) }
{
    if mask % 2 == 1 {
        return false;
    }
    if 9223372036854775808 <= mask {
        return false;
    }
    size_in(mask) <= rules::MAX_CLASS
}

// The mask of letters, where they are those of a class.
pub fn class_mask(letters: &[u8]) -> Option<u64>
    ensures { result ≡ class_mask letters.now }
{
    if letters.len() < 1 {
        return None;
    }
    if rules::MAX_CLASS < letters.len() {
        return None;
    }
    let mut mask: u64 = 0;
    let mut low: u8 = 1;
    for &c in letters {
        if c < low {
            return None;
        }
        if rules::MAX_LETTER < c {
            return None;
        }
        mask = numbers::with_bit(mask, u64::from(c));
        low = c + 1;
    }
    Some(mask)
}
