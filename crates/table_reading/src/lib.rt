// Reading by reached letters: the choice that the sets of two remembered states make, and what reading by it comes to.
#![tactic(auto)]

ghost use Rattle.std.specs.Prelude.{◌≡◌, true, ◌+◌, ◌-◌, ◌*◌, ◌<◌, ◌≤◌, length, get_or};
ghost use Rattle.std.specs.Int.Bits.{bit_and};
ghost use Rattle.std.specs.Int.Count.{ones_in};
ghost use Rattle.rules.specs.Limits.{max_rules};
ghost use Rattle.rules.specs.Names.{SoundName};
ghost use Rattle.image.specs.Image.{total_of, valid};
ghost use Rattle.speech.specs.Words.{frame_of};
ghost use Rattle.speech.specs.Places.{frame_size, ReadBy};
ghost use Rattle.tables.specs.Words.{set_size};
ghost use Rattle.table_reading.specs.Letters.{found_of, lowest_shared, count_shared, choice_by, Chooses, choices_by, Bounded, suffix, between, WordRead, Held, NameRead, FewParts};

use speech::Unread;

// The most literal rules for which the first word that shares a place ends the search: their places lie in at most five words. Chosen by measurement:
// real rulesets (the largest measured has 314 literal rules) lead to the same words again and again, which a processor guesses; among many rules
// drawn at random it guesses wrong, and to look at all words is faster.
const EARLY_EXIT_RULES: usize = 64 * 5;

// The lowest set bit of the eight words in which the sets from `s` and from `t` on meet, word by word up to the first that has one.
fn lowest_from(sets: &[u64], s: usize, t: usize) -> Option<usize>
    requires { (s + set_size ≤ length sets.now) × (t + set_size ≤ length sets.now) }
    ensures { result ≡ found_of (lowest_shared sets.now s t) }
{
    for j in 0..tables::SET {
        let x = sets[s + j] & sets[t + j];
        let z = u64::trailing_zeros(x) as usize;
        if z < 64 {
            return Some(64 * j + z);
        }
    }
    None
}

// The same from the last word down, all words looked at: `k` is the lowest from `j` on that has a bit set, `tables::SET` where none has.
fn lowest_of_all(sets: &[u64], s: usize, t: usize) -> Option<usize>
    requires { (s + set_size ≤ length sets.now) × (t + set_size ≤ length sets.now) }
    ensures { result ≡ found_of (lowest_shared sets.now s t) }
{
    let mut k: usize = tables::SET;
    for j in (0..tables::SET).rev() {
        let x = sets[s + j] & sets[t + j];
        if u64::trailing_zeros(x) < 64 {
            k = j;
        }
    }
    if k < tables::SET {
        let y = sets[s + k] & sets[t + k];
        let z = u64::trailing_zeros(y) as usize;
        return Some(64 * k + z);
    }
    None
}

// The lowest place that the sets from `s` and from `t` on share, of `total` literal rules.
fn lowest_place(sets: &[u64], s: usize, t: usize, total: usize) -> Option<usize>
    requires { (s + set_size ≤ length sets.now) × (t + set_size ≤ length sets.now) }
    ensures { result ≡ found_of (lowest_shared sets.now s t) }
{
    if total <= EARLY_EXIT_RULES {
        return lowest_from(sets, s, t);
    }
    lowest_of_all(sets, s, t)
}

// How many places a word of one set and a word of another share.
fn shared_in(sets: &[u64], a: usize, b: usize) -> usize
    requires { (a < length sets.now) × (b < length sets.now) }
    ensures { (result ≡ ones_in 64 (bit_and (get_or sets.now a 0) (get_or sets.now b 0))) × (result ≤ 64) }
{
    u64::count_ones(sets[a] & sets[b]) as usize
}

// How many places two sets share: those of the eight words in which the sets from `s` and from `t` on meet.
fn count_shared(sets: &[u64], s: usize, t: usize) -> usize
    requires { (s + set_size ≤ length sets.now) × (t + set_size ≤ length sets.now) }
    ensures { (result ≡ count_shared sets.now s t) × (result ≤ max_rules) }
{
    let mut count: usize = 0;
    for j in 0..tables::SET {
        count += shared_in(sets, s + j, t + j);
    }
    count
}

// What is chosen at a reached letter: the place of the numbered rule to apply, how many literal rules fit and where reading goes on; or nothing. No Option:
// document 01's last section names the form `let Chosen::Rule(..) = choice else`.
#[derive(Clone, Copy)]
enum Chosen {
    Rule(usize, usize, usize),
    Nothing,
}

// Tables whose sets tell of a literal rule that is not in the list, or does not fit.
#[derive(Clone, Copy)]
struct Unusable;

// The choice at position `i`: the literal rule of lowest place, which must be in the list and fit. It is told by the place of its numbered
// rule.
fn choose(
    sets: &[u64],
    s: usize,
    t: usize,
    image: &[u8],
    total: usize,
    frame: &[u8],
    i: usize,
) -> Result<Chosen, Unusable>
    requires { (s + set_size ≤ length sets.now) × (t + set_size ≤ length sets.now) × (valid image.now ≡ true) × (total ≡ total_of image.now) × (1 ≤ i) × (i < length frame.now) }
    ensures { Chooses image.now (choice_by image.now sets.now s t frame.now i) i result }
{
    let Some(place) = lowest_place(sets, s, t, total) else {
        return Ok(Chosen::Nothing);
    };
    if total <= place {
        return Err(Unusable);
    }
    let end = literals::place_end(image, place, frame, i);
    if end == 0 {
        return Err(Unusable);
    }
    let rule = image::table::owner_at(image, place);
    Ok(Chosen::Rule(rule, count_shared(sets, s, t), end))
}

// At each reached letter the rule chosen by its two remembered states is applied, and reading goes on after its target.
fn read_letters(
    sets: &[u64],
    right_sets: usize,
    image: &[u8],
    frame: &[u8],
    left: &[u16],
    right: &[u16],
    parts: &mut [u32],
) -> Result<usize, Unread>
    requires { (valid image.now ≡ true) × (2 ≤ length frame.now) × (length frame.now ≤ frame_size) × Bounded (length sets.now) right_sets (length frame.now - 2) left.now right.now × (length frame.now - 2 ≤ length parts.old) }
    ensures { ReadBy image.now (choices_by image.now sets.now right_sets left.now right.now frame.now) (length frame.now - 2) parts.new result }
{
    let total = image::table::literal_total(image);
    let end = frame.len() - 1;
    let mut count: usize = 0;
    let mut i: usize = 1;
    while i < end {
        let s = tables::SET * usize::from(left[i]);
        let t = right_sets + tables::SET * usize::from(right[i]);
        let Ok(choice) = choose(sets, s, t, image, total, frame, i) else {
            return Err(Unread::BadTables);
        };
        let Chosen::Rule(rule, fitting, next) = choice else {
            return Err(Unread::Uncovered(i));
        };
        parts[count] = speech::part_of(rule, fitting);
        count += 1;
        i = next;
    }
    Ok(count)
}

// One word more, after `count` parts: the part that the list gives for it, or the rules chosen for its letters.
fn read_word(
    sets: &[u64],
    right_sets: usize,
    image: &[u8],
    frame: &[u8],
    part: u16,
    from: usize,
    end: usize,
    left: &[u16],
    right: &[u16],
    parts: &mut [u32],
    count: usize,
) -> Result<usize, Unread>
    requires { (valid image.now ≡ true) × (from < end) × (end + 1 ≤ length frame.now) × (length frame.now ≤ frame_size) × (part ≡ 0 → Bounded (length sets.now) right_sets (length (between from (end + 1) frame.now) - 2) (suffix from left.now) (suffix from right.now)) × (length left.now ≡ frame_size) × (length right.now ≡ frame_size) × (length parts.old ≡ frame_size) × (count ≤ from) }
    ensures { WordRead image.now (choices_by image.now sets.now right_sets (suffix from left.now) (suffix from right.now) (between from (end + 1) frame.now)) (length (between from (end + 1) frame.now) - 2) count from part parts.old parts.new result }
{
    if part != 0 {
        parts[count] = part as u32;
        return Ok(count + 1);
    }
    let read = read_letters(
        sets,
        right_sets,
        image,
        &frame[from..end + 1],
        &left[from..],
        &right[from..],
        &mut parts[count..],
    );
    reading::words::in_name(read, count, from)
}

// The words of a name in turn.
pub fn read_words(
    sets: &[u64],
    right_sets: usize,
    image: &[u8],
    name: &[u8],
    frame: &[u8],
    found: &[u16],
    left: &[u16],
    right: &[u16],
    parts: &mut [u32],
) -> Result<usize, Unread>
    requires { (valid image.now ≡ true) × SoundName name.now × (frame.now ≡ frame_of name.now) × (length found.now ≡ frame_size) × (length left.now ≡ frame_size) × (length right.now ≡ frame_size) × Held (length sets.now) right_sets name.now found.now left.now right.now × (length parts.old ≡ frame_size) }
    ensures few { FewParts name.now result }
    ensures read { NameRead image.now sets.now right_sets name.now found.now left.now right.now parts.new result }
{
    let mut count = 0;
    let mut from = 0;
    while from <= name.len() {
        let end = reading::words::word_end(name, from);
        count = read_word(
            sets,
            right_sets,
            image,
            frame,
            found[from],
            from,
            end,
            left,
            right,
            &mut *parts,
            count,
        )?;
        from = end;
    }
    Ok(count)
}
