// The table of an image's literal rules, which leads from a literal place to the rule that it comes from: read, tested, and laid after each edit.
ghost use Rattle.std.specs.Prelude.{◌≡◌, true, ◌&&◌, ◌∷◌, [], ◌+◌, ◌*◌, ◌/◌, ◌%◌, ◌≤◌, ◌<◌, length, get_or, drop};
ghost use Rattle.rules.specs.Limits.{max_context, max_rules};
ghost use Rattle.rule_bytes.specs.RuleBytes.{rule_size};
ghost use Rattle.rules.specs.Memory.{over_at};
ghost use Rattle.classes.specs.Counting.{capped};
ghost use Rattle.classes.specs.Expansion.{literal_count};
ghost use Rattle.classes.specs.Ordinal.{origin, origin_run};
ghost use Rattle.image.specs.State.{expandable};
ghost use Rattle.image.specs.Image.{image_size, origin_size, total_start, table_start, count_of, total_of, classes_of, entries_of, entry_at, origins_of, origins_at, origin_bytes, Slots, no_class, without_classes, tabled, sound, valid, settled};

use crate::ruleset::Ruleset;
use crate::{ORIGIN, RULES, SLOT, TABLE, TOTAL};

// ---- reading

// The number of literal rules that the memory holds.
pub fn literal_total(image: &[u8]) -> usize
    requires { image_size ≤ length image.now }
    ensures { (result ≡ total_of image.now) × (result < 65536) }
{
    usize::from(numbers::two_at(image, TOTAL))
}

// The place of the rule that a literal rule comes from.
pub fn owner_at(image: &[u8], p: usize) -> usize
    requires { (valid image.now ≡ true) × (p < total_of image.now) }
    ensures { (result ≡ (get_or (origins_of image.now) p (origin 0 0)).place) × (result < count_of image.now) }
{
    let rules = Ruleset { bytes: image };
    rules.owner_at(p)
}

// Whether none of the four bytes of a context is a class, those past its length among them: so no length is read.
fn no_class_at(s: &[u8], at: usize) -> bool
    requires { at + max_context ≤ length s.now }
    ensures { result ≡ no_class max_context at s.now }
{
    if rules::FIRST_CLASS <= s[at] {
        return false;
    }
    if rules::FIRST_CLASS <= s[at + 1] {
        return false;
    }
    if rules::FIRST_CLASS <= s[at + 2] {
        return false;
    }
    if rules::FIRST_CLASS <= s[at + 3] {
        return false;
    }
    true
}

// Whether this holds of both contexts of the rule whose bytes start at `at`.
fn without_classes(s: &[u8], at: usize) -> bool
    requires { at + rule_size ≤ length s.now }
    ensures { result ≡ without_classes at s.now }
{
    if !no_class_at(s, at + rule_bytes::LEFT) {
        return false;
    }
    no_class_at(s, at + rule_bytes::RIGHT)
}

// How many literal rules the rule at a place has, counted to 513: 0 where a class that it uses is undefined.
fn literal_count_at(image: &[u8], place: usize) -> usize
    requires { Slots image.now × (place < count_of image.now) }
    ensures { (result ≡ capped (literal_count (classes_of image.now) (entry_at image.now place).rule)) × (result ≤ 513) }
{
    let at = RULES + SLOT * place;
    if without_classes(image, at) {
        return 1; // as most rules are: the classes need not be read
    }
    let left = crate::run_at(image, at + rule_bytes::LEFT_LEN, at + rule_bytes::LEFT);
    let right = crate::run_at(image, at + rule_bytes::RIGHT_LEN, at + rule_bytes::RIGHT);
    classes::runs::literal_count(crate::class_bytes::masks(image), left, right)
}

// ---- whether it is that of the rules

// Whether the table has, from literal place `p` on, the `n` literal rules of the rule at place `q`.
fn has_run(image: &[u8], p: usize, q: usize, n: usize) -> bool
    requires { (image_size ≤ length image.now) × (p + n ≤ max_rules) }
    ensures { result ≡ origins_at (origin_run q 0 n) (drop (table_start + origin_size * p) image.now) }
{
    let from = TABLE + ORIGIN * p;
    for j in 0..n {
        let at = from + ORIGIN * j;
        if usize::from(numbers::two_at(image, at)) != q {
            return false;
        }
        if usize::from(numbers::two_at(image, at + 2)) != j {
            return false;
        }
    }
    true
}

// Whether each rule has its classes defined, there are at most 512 literal rules, and the table is theirs.
pub fn is_table(image: &[u8], count: usize) -> bool
    requires { Slots image.now × (count ≡ count_of image.now) }
    ensures { result ≡ (expandable (classes_of image.now) (entries_of image.now) && tabled image.now) }
{
    let mut p = 0;
    for q in 0..count {
        let n = literal_count_at(image, q);
        if n == 0 {
            return false;
        }
        if rules::MAX_RULES < p + n {
            return false;
        }
        if !has_run(image, p, q, n) {
            return false;
        }
        p += n;
    }
    literal_total(image) == p
}

// ---- laid

// The `n` literal rules of the rule at place `q` are laid from literal place `p` on.
fn put_run(image: &mut [u8], p: usize, q: usize, n: usize)
    requires { (image_size ≤ length image.old) × ((p + n ≤ max_rules) × (q < max_rules)) }
    ensures { image.new ≡ over_at (table_start + origin_size * p) (origin_bytes (origin_run q 0 n)) image.old }
{
    let from = TABLE + ORIGIN * p;
    let high = (q / 256) as u8;
    let low = (q % 256) as u8;
    for j in 0..n {
        let at = from + ORIGIN * j;
        image[at] = high;
        image[at + 1] = low;
        image[at + 2] = (j / 256) as u8;
        image[at + 3] = (j % 256) as u8;
    }
}

// The number of literal rules is stored.
fn put_total(image: &mut [u8], total: usize)
    requires { (image_size ≤ length image.old) × (total ≤ max_rules) }
    ensures { image.new ≡ over_at total_start (total / 256 ∷ total % 256 ∷ []) image.old }
{
    rule_bytes::put(image, TOTAL, &(total as u16).to_be_bytes());
}

// The table of the image's rules and classes.
pub fn settle(image: &mut [u8])
    requires { sound image.old ≡ true }
    ensures { image.new ≡ settled image.old }
{
    let count = crate::rule_count(image);
    let mut p = 0;
    for q in 0..count {
        let n = literal_count_at(image, q);
        put_run(image, p, q, n);
        p += n;
    }
    put_total(image, p);
}
