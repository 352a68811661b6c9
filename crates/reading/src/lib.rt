// The plain reading of a name, word by word: at each reached letter the first rule in order that fits (document 01, "Letters, rules, fitting").
#![tactic(auto)]

pub mod words;

ghost use Rattle.std.specs.Prelude.{◌≡◌, true, [], ◌-◌, ◌≤◌, length, take};
ghost use Rattle.rules.specs.Names.{SoundName};
ghost use Rattle.exceptions.specs.Layout.{words_of, phones_for};
ghost use Rattle.exceptions.specs.Judging.{is_list, listing_of, no_list, says_of};
ghost use Rattle.image.specs.Image.{entries_of, classes_of, valid};
ghost use Rattle.fitting.specs.Reading.{first_fit, plain};
ghost use Rattle.speech.specs.Words.{word, read_word, frame_of, word_at, WordOf};
ghost use Rattle.speech.specs.Speech.{told_of, saying, answered, listed_or, delivered, plain_words, plain_said};
ghost use Rattle.speech.specs.Places.{ReadBy, Unsaid, frame_size, parts_at, PartsSoFar, ReadOn};

use image::ruleset::Ruleset;
use rules::Refusal;
use speech::{Spoken, Unread};

// Symbols of the longest frame: a boundary before the name and one after it.
pub const MAX_FRAME: usize = rules::MAX_NAME + 2;

// Lent as a list where there is none: too few words for any.
pub const NO_LIST: [u32; 1] = [0];

// The parts of the rules applied to a framed word, in order, from its first letter on.
fn read_letters(rules: Ruleset<'_>, frame: &[u8], parts: &mut [u32]) -> Result<usize, Unread>
    requires { (2 ≤ length frame.now) × ((length frame.now ≤ frame_size) × (length frame.now - 2 ≤ length parts.old)) }
    ensures { ReadBy rules.entry.bytes.now (first_fit (classes_of rules.entry.bytes.now) (entries_of rules.entry.bytes.now) frame.now) (length frame.now - 2) parts.new result }
{
    let count = rules.rule_count();
    let n = frame.len() - 2;
    let mut k = 0;
    let mut i = 1;
    while i <= n {
        let Some(fit) = fitting::first_fit(rules.bytes, count, frame, i) else {
            return Err(Unread::Uncovered(i));
        };
        parts[k] = speech::part_of(fit.place, fit.fitting);
        k += 1;
        i += fitting::target_len_at(rules.bytes, fit.place);
    }
    Ok(k)
}

// One word more, after `count` parts: the part that the list gives for it, or the rules applied to its letters.
fn read_word(
    rules: Ruleset<'_>,
    list: &[u32],
    name: &[u8],
    frame: &[u8],
    from: usize,
    end: usize,
    parts: &mut [u32],
    count: usize,
) -> Result<usize, Unread>
    requires { Unsaid list.now name.now × (frame.now ≡ frame_of name.now) × WordOf name.now from end × PartsSoFar rules.bytes.now list.now parts.old count from }
    ensures { ReadOn rules.entry.bytes.now list.now (parts_at rules.entry.bytes.now list.now (take count parts.old)) (read_word (says_of list.now) (plain (classes_of rules.entry.bytes.now) (entries_of rules.entry.bytes.now)) (word from (word_at name.now from))) end parts.new result }
{
    let part = words::find_word(list, name, from, end);
    if part != 0 {
        parts[count] = part as u32;
        return Ok(count + 1);
    }
    let read = read_letters(rules, &frame[from..end + 1], &mut parts[count..]);
    words::in_name(read, count, from)
}

// The words of a name that is not on the list, in turn.
fn read_words(
    rules: Ruleset<'_>,
    list: &[u32],
    name: &[u8],
    frame: &[u8],
    parts: &mut [u32],
) -> Result<usize, Unread>
    requires { Unsaid list.now name.now × (frame.now ≡ frame_of name.now) × (length parts.old ≡ frame_size) }
    ensures { ReadOn rules.entry.bytes.now list.now [] (plain_words (classes_of rules.entry.bytes.now) (entries_of rules.entry.bytes.now) name.now (says_of list.now)) frame_size parts.new result }
{
    let mut count = 0;
    let mut from = 0;
    while from <= name.len() {
        let end = words::word_end(name, from);
        count = read_word(rules, list, name, frame, from, end, &mut *parts, count)?;
        from = end;
    }
    Ok(count)
}

// The plain reading of a sound name that is not on the list.
fn read_sound(
    rules: Ruleset<'_>,
    list: &[u32],
    name: &[u8],
    phones: &mut [u8],
    numbers: &mut [u16],
) -> Result<Spoken, Refusal>
    requires { Unsaid list.now name.now }
    ensures { saying (told_of result) phones.new numbers.new ≡ delivered (answered (plain_words (classes_of rules.entry.bytes.now) (entries_of rules.entry.bytes.now) name.now (says_of list.now)) 0) phones.old numbers.old }
{
    let mut frame = [0u8; MAX_FRAME];
    words::lay_frame(name, &mut frame);
    let end = name.len() + 2;
    let mut parts = [0u32; MAX_FRAME];
    let reached = read_words(rules, list, name, &frame[..end], &mut parts);
    speech::answer(rules.bytes, list, reached, &parts, phones, numbers)
}

// The plain reading of a name, for a caller that knows the image to be a ruleset and has no list.
pub fn read_valid(
    image: &[u8],
    name: &[u8],
    phones: &mut [u8],
    numbers: &mut [u16],
) -> Result<Spoken, Refusal>
    requires { valid image.now ≡ true }
    ensures { saying (told_of result) phones.new numbers.new ≡ plain_said image.now no_list name.now phones.old numbers.old }
{
    rules::judge_name(name)?;
    read_sound(Ruleset { bytes: image }, &NO_LIST, name, phones, numbers)
}

// The plain reading of a sound name that may be on the list.
fn read_listed(
    rules: Ruleset<'_>,
    list: &[u32],
    name: &[u8],
    phones: &mut [u8],
    numbers: &mut [u16],
) -> Result<Spoken, Refusal>
    requires { (is_list list.now ≡ true) × SoundName name.now }
    ensures { saying (told_of result) phones.new numbers.new ≡ delivered (listed_or (phones_for (words_of list.now)) name.now (answered (plain_words (classes_of rules.entry.bytes.now) (entries_of rules.entry.bytes.now) name.now (phones_for (words_of list.now))) 0)) phones.old numbers.old }
{
    let found = speech::say_listed(list, name, &mut *phones);
    match found {
        Some(said) => said,
        None => read_sound(rules, list, name, phones, numbers),
    }
}

// The plain reading of a name, for a caller that knows the list to be one.
fn read_known(
    rules: Ruleset<'_>,
    list: &[u32],
    name: &[u8],
    phones: &mut [u8],
    numbers: &mut [u16],
) -> Result<Spoken, Refusal>
    requires { is_list list.now ≡ true }
    ensures { saying (told_of result) phones.new numbers.new ≡ plain_said rules.entry.bytes.now (listing_of list.now) name.now phones.old numbers.old }
{
    rules::judge_name(name)?;
    read_listed(rules, list, name, phones, numbers)
}

// The plain reading of a name: its phones, from the list or by the rules, and the numbers of the rules applied, in lent memory.
pub fn read_name(
    image: &[u8],
    list: &[u32],
    name: &[u8],
    phones: &mut [u8],
    numbers: &mut [u16],
) -> Result<Spoken, Refusal>
    ensures { saying (told_of result) phones.new numbers.new ≡ plain_said image.now (listing_of list.now) name.now phones.old numbers.old }
{
    let Some(rules) = Ruleset::judge(image) else {
        return Err(Refusal::NotRuleset(0));
    };
    if !exceptions::is_list(list) {
        return Err(Refusal::BadList(0));
    }
    read_known(rules, list, name, phones, numbers)
}
