// What reading came to, as an answer: the phones of the rules applied and of listed words, and the numbers of the rules, written to lent memory
// where it has room for all of them; and how many letters were contested.
#![tactic(auto)]

ghost use Rattle.std.specs.Prelude.{◌≡◌, true, cond, ◌+◌, ◌≤◌, ◌<◌, leb, ltb, length};
ghost use Rattle.std.proofs.Math.Seq.{paste};
ghost use Rattle.rules.specs.Limits.{max_phones, max_listed_phones};
ghost use Rattle.rules.specs.Memory.{over};
ghost use Rattle.rules.specs.Names.{SoundName};
ghost use Rattle.exceptions.specs.Layout.{words_of, phones_for};
ghost use Rattle.exceptions.specs.Judging.{is_list};
ghost use Rattle.image.specs.Image.{valid};
ghost use Rattle.speech.specs.Speech.{speaks, answered, phones_in, phones_of, numbers_in, numbers_of, told_of, saying, delivered};
ghost use Rattle.speech.specs.Places.{part_size, part_of, place_in, fitting_in, frame_size, rules_among, part_at, parts_at, PartIn, PartsIn, PartGiven, AllGiven, parts_reading, Parted, SaysListed};

use exceptions::Lookup;
use image::ruleset::Ruleset;
use rules::Refusal;

// What a call that speaks a name gave: how many phones and rule numbers, and at how many reached letters more than one rule fits.
#[derive(Clone, Copy, PartialEq, Eq)]
pub struct Spoken {
    pub phones: usize,
    pub numbers: usize,
    pub contested: usize,
}

// Why a word was not read to its end: the letter that no rule covers, or tables that are unusable. A word that was read came to so many rules applied.
#[derive(Clone, Copy)]
pub enum Unread {
    Uncovered(usize),
    BadTables,
}

// A part has the place of a rule below this, and how many rules fit there in units of it.
const PART: usize = 65536;

// The part of a rule that is applied where so many fit.
pub fn part_of(place: usize, fitting: usize) -> u32
    requires { (place < part_size) × (fitting < part_size) }
    ensures { result ≡ part_of place fitting }
{
    (place + PART * fitting) as u32
}

// The place of a rule that a part has, or, from 512 on, the state of a list.
fn place_in(part: u32) -> usize
    ensures { result ≡ place_in part }
{
    part as usize % PART
}

// 1 where the rule of a part is one of several that fit.
fn contested_in(part: u32) -> usize
    ensures { result ≡ cond (ltb 1 (fitting_in part)) 1 0 }
{
    if 2 * PART <= part as usize { 1 } else { 0 }
}

// How many of the parts are rules.
fn rules_among(parts: &[u32]) -> usize
    requires { length parts.now ≤ frame_size }
    ensures { result ≡ rules_among parts.now }
{
    let mut count = 0;
    for &part in parts {
        if place_in(part) < rules::MAX_RULES {
            count += 1;
        }
    }
    count
}

// How many phones a part has.
fn part_phones(rules: Ruleset<'_>, list: &[u32], part: u32) -> usize
    requires { PartIn rules.bytes.now list.now part }
    ensures { (result ≡ length (phones_in (part_at rules.entry.bytes.now list.now part))) × (result ≤ max_listed_phones) }
{
    let place = place_in(part);
    if place < rules::MAX_RULES {
        let said = rules.phones_at(place);
        return said.len();
    }
    exceptions::phone_count(list, place - rules::MAX_RULES)
}

// The phones of the parts, counted.
fn phone_count(rules: Ruleset<'_>, list: &[u32], parts: &[u32]) -> usize
    requires { (length parts.now ≤ frame_size) × PartsIn rules.bytes.now list.now parts.now }
    ensures { result ≡ length (phones_of (parts_at rules.entry.bytes.now list.now parts.now)) }
{
    let mut total = 0;
    for &part in parts {
        total += part_phones(rules, list, part);
    }
    total
}

// Whether there is room for the phones of the parts. No part has more than 64, and a rule no more than four: where there is room for as many, they need
// not be counted.
fn phones_fit(rules: Ruleset<'_>, list: &[u32], parts: &[u32], room: usize) -> bool
    requires { (length parts.now ≤ frame_size) × PartsIn rules.bytes.now list.now parts.now }
    ensures { result ≡ leb (length (phones_of (parts_at rules.entry.bytes.now list.now parts.now))) room }
{
    if rules::MAX_LISTED_PHONES * parts.len() <= room {
        return true;
    }
    if rules::MAX_PHONES * parts.len() <= room && rules_among(parts) == parts.len() {
        return true;
    }
    phone_count(rules, list, parts) <= room
}

// Whether there is room for the numbers of the rules among the parts, which are no more than the parts.
fn numbers_fit(parts: &[u32], room: usize) -> bool
    requires { length parts.now ≤ frame_size }
    ensures { result ≡ leb (rules_among parts.now) room }
{
    parts.len() <= room || rules_among(parts) <= room
}

// The phones of a rule, at most four, stored from `at` on one by one: a loop over so few takes longer than all of them.
fn put_phones(phones: &mut [u8], at: usize, said: &[u8])
    requires { (length said.now ≤ max_phones) × (at + length said.now ≤ length phones.old) }
    ensures { phones.new ≡ paste phones.old at said.now (length said.now) }
{
    if said.len() == 0 {
        return;
    }
    phones[at] = said[0];
    if said.len() == 1 {
        return;
    }
    phones[at + 1] = said[1];
    if said.len() == 2 {
        return;
    }
    phones[at + 2] = said[2];
    if said.len() == 3 {
        return;
    }
    phones[at + 3] = said[3];
}

// The phones of a part, and its number where it is a rule, after those given before.
fn write_part(
    rules: Ruleset<'_>,
    list: &[u32],
    part: u32,
    phones: &mut [u8],
    numbers: &mut [u16],
    given: Spoken,
) -> Spoken
    requires { PartIn rules.bytes.now list.now part × (given.phones + length (phones_in (part_at rules.bytes.now list.now part)) ≤ length phones.old) × (given.numbers + length (numbers_in (part_at rules.bytes.now list.now part)) ≤ length numbers.old) × (given.contested ≤ frame_size) }
    ensures { PartGiven (part_at rules.entry.bytes.now list.now part) given phones.old numbers.old result phones.new numbers.new }
{
    let place = place_in(part);
    if place < rules::MAX_RULES {
        let at = given.numbers;
        numbers[at] = rules.number_at(place);
        let said = rules.phones_at(place);
        put_phones(&mut *phones, given.phones, said);
        return Spoken {
            phones: given.phones + said.len(),
            numbers: given.numbers + 1,
            contested: given.contested + contested_in(part),
        };
    }
    let count = exceptions::write_phones(list, place - rules::MAX_RULES, phones, given.phones);
    Spoken {
        phones: given.phones + count,
        numbers: given.numbers,
        contested: given.contested,
    }
}

// The phones and the numbers of the parts, in order.
fn write_parts(
    rules: Ruleset<'_>,
    list: &[u32],
    parts: &[u32],
    phones: &mut [u8],
    numbers: &mut [u16],
) -> Spoken
    requires { (length parts.now ≤ frame_size) × PartsIn rules.bytes.now list.now parts.now × (length (phones_of (parts_at rules.bytes.now list.now parts.now)) ≤ length phones.old) × (length (numbers_of (parts_at rules.bytes.now list.now parts.now)) ≤ length numbers.old) }
    ensures given { AllGiven (parts_at rules.entry.bytes.now list.now parts.now) result }
    ensures phones { phones.new ≡ over (phones_of (parts_at rules.entry.bytes.now list.now parts.now)) phones.old }
    ensures numbers { numbers.new ≡ over (numbers_of (parts_at rules.entry.bytes.now list.now parts.now)) numbers.old }
{
    let mut given = Spoken {
        phones: 0,
        numbers: 0,
        contested: 0,
    };
    for &part in parts {
        given = write_part(rules, list, part, &mut *phones, &mut *numbers, given);
    }
    given
}

// The phones and the numbers of the parts, where the lent memory has room for both (document 01's refusals 4 and 5).
pub fn deliver(
    image: &[u8],
    list: &[u32],
    parts: &[u32],
    phones: &mut [u8],
    numbers: &mut [u16],
) -> Result<Spoken, Refusal>
    requires { (valid image.now ≡ true) × ((length parts.now ≤ frame_size) × PartsIn image.now list.now parts.now) }
    ensures { saying (told_of result) phones.new numbers.new ≡ delivered (speaks (parts_at image.now list.now parts.now) 0) phones.old numbers.old }
{
    let rules = Ruleset { bytes: image };
    if !phones_fit(rules, list, parts, phones.len()) {
        return Err(Refusal::PhonesRoom(phone_count(rules, list, parts)));
    }
    if !numbers_fit(parts, numbers.len()) {
        return Err(Refusal::NumbersRoom(rules_among(parts)));
    }
    let given = write_parts(rules, list, parts, phones, numbers);
    Ok(given)
}

// The answer that follows from how reading ended.
pub fn answer(
    image: &[u8],
    list: &[u32],
    reached: Result<usize, Unread>,
    parts: &[u32],
    phones: &mut [u8],
    numbers: &mut [u16],
) -> Result<Spoken, Refusal>
    requires { (valid image.now ≡ true) × Parted image.now list.now frame_size parts.now reached }
    ensures { saying (told_of result) phones.new numbers.new ≡ delivered (answered (parts_reading image.now list.now parts.now reached) 0) phones.old numbers.old }
{
    match reached {
        Ok(k) => deliver(image, list, &parts[..k], phones, numbers),
        Err(Unread::Uncovered(i)) => Err(Refusal::NoFit(i)),
        Err(Unread::BadTables) => Err(Refusal::BadTables(0)),
    }
}

// A sound name that is on the list is said from it: its phones where they have room (refusal 4), and no numbers. None where the list says nothing of it.
pub fn say_listed(list: &[u32], name: &[u8], phones: &mut [u8]) -> Option<Result<Spoken, Refusal>>
    requires { (is_list list.now ≡ true) × SoundName name.now }
    ensures { SaysListed (phones_for (words_of list.now) name.now) phones.old phones.new result }
{
    let found = exceptions::look_up(list, name, phones);
    match found {
        Lookup::Unlisted => None,
        Lookup::Given(n) => Some(Ok(Spoken {
            phones: n,
            numbers: 0,
            contested: 0,
        })),
        Lookup::NoRoom(n) => Some(Err(Refusal::PhonesRoom(n))),
    }
}
