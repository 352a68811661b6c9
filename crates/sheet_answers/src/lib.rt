// The names of a sheet answered in turn from what was kept of them, each in the lent memory after the answers before it.
#![tactic(auto)]

ghost use Rattle.std.specs.Prelude.{◌≡◌, true, ◌+◌, ◌*◌, ◌<◌, ◌≤◌, length, get_or};
ghost use Rattle.rules.specs.Names.{SoundName};
ghost use Rattle.image.specs.Image.{valid};
ghost use Rattle.exceptions.specs.Judging.{is_list};
ghost use Rattle.many_names.specs.Names.{name_at};
ghost use Rattle.many_names.specs.Many.{reply_size};
ghost use Rattle.sheet_answers.specs.Answers.{SomeUnsent, SaysUnsent, SomeKept, SaysKept, SomeKeptAt, NextKept, SomeKeptBy, AnsweredAll};

use many_names::{Progress, codes};
use rules::Refusal;
use speech::Spoken;

// A sound name that sent no word through the tables is on the list.
fn say_from_list(list: &[u32], name: &[u8], phones: &mut [u8]) -> Result<Spoken, Refusal>
    requires { (is_list list.now ≡ true) × SoundName name.now × SomeUnsent list.now name.now }
    ensures { SaysUnsent list.now name.now phones.old phones.new result }
{
    let found = speech::say_listed(list, name, phones);
    match found {
        Some(said) => said,
        None => Err(Refusal::BadTables(0)),
    }
}

// A name that sent no word through the tables: refused with 2 or 1, or on the list.
fn answer_unsent(list: &[u32], name: &[u8], phones: &mut [u8]) -> Result<Spoken, Refusal>
    requires { (is_list list.now ≡ true) × SomeUnsent list.now name.now }
    ensures { SaysUnsent list.now name.now phones.old phones.new result }
{
    rules::judge_name(name)?;
    say_from_list(list, name, phones)
}

// The answer to a name: its kept parts are said, or the letter that no rule covers refuses it.
fn answer_name(
    image: &[u8],
    list: &[u32],
    name: &[u8],
    end: u32,
    parts: &[u32],
    phones: &mut [u8],
    numbers: &mut [u16],
) -> Result<Spoken, Refusal>
    requires { (valid image.now ≡ true) × (is_list list.now ≡ true) × SomeKept image.now list.now name.now end parts.now }
    ensures { SaysKept image.now list.now name.now end parts.now phones.old numbers.old phones.new numbers.new result }
{
    if end == 0 {
        return answer_unsent(list, name, phones);
    }
    let ended = end as usize;
    if ended < sheet_name::UNCOVERED {
        return speech::deliver(image, list, parts, phones, numbers);
    }
    Err(Refusal::NoFit(ended - sheet_name::UNCOVERED))
}

// The next name is answered, in the lent memory after the answers before it.
fn answer_next(
    image: &[u8],
    list: &[u32],
    sheet: &[u8],
    ends: &[u32],
    starts: &[u32],
    kept: &[u32],
    phones: &mut [u8],
    numbers: &mut [u16],
    replies: &mut [usize],
    p: Progress,
) -> Progress
    requires { (valid image.now ≡ true) × (is_list list.now ≡ true) × (p.at + 1 + get_or sheet.now p.at 0 ≤ length sheet.now) × (p.count < length ends.now) × (p.count < length starts.now) × SomeKeptAt image.now list.now sheet.now ends.now starts.now kept.now p.count (name_at sheet.now p.at) × (p.phones ≤ length phones.old) × (p.numbers ≤ length numbers.old) × (reply_size * p.count + reply_size ≤ length replies.old) }
    ensures { NextKept image.now list.now sheet.now ends.now starts.now kept.now phones.old numbers.old replies.old p phones.new numbers.new replies.new result }
{
    let at = p.at;
    let start = at + 1;
    let end = start + usize::from(sheet[at]);
    let i = p.count;
    let ended = ends[i];
    let first = starts[i] as usize;
    let last = first + sheet_name::parts_in(ended);
    let from = p.phones;
    let to = p.numbers;
    let speech = answer_name(
        image,
        list,
        &sheet[start..end],
        ended,
        &kept[first..last],
        &mut phones[from..],
        &mut numbers[to..],
    );
    many_names::put_reply(replies, many_names::REPLY * i, speech, 0);
    Progress {
        at: end,
        count: i + 1,
        phones: from + codes::phones_given(speech),
        numbers: to + codes::numbers_given(speech),
    }
}

// Every name of the sheet is answered.
pub fn answer_sheet(
    image: &[u8],
    list: &[u32],
    sheet: &[u8],
    limit: usize,
    ends: &[u32],
    starts: &[u32],
    kept: &[u32],
    phones: &mut [u8],
    numbers: &mut [u16],
    replies: &mut [usize],
) -> usize
    requires { (valid image.now ≡ true) × (is_list list.now ≡ true) × (limit ≤ length ends.now) × (limit ≤ length starts.now) × (reply_size * limit ≤ length replies.old) × SomeKeptBy image.now list.now sheet.now ends.now starts.now kept.now limit }
    ensures { AnsweredAll image.now list.now sheet.now ends.now starts.now kept.now limit phones.old numbers.old replies.old phones.new numbers.new replies.new result }
{
    let mut p = Progress {
        at: 0,
        count: 0,
        phones: 0,
        numbers: 0,
    };
    while many_names::has_next(sheet, p.at, p.count, limit) {
        p = answer_next(
            image, list, sheet, ends, starts, kept, phones, numbers, replies, p,
        );
    }
    p.count
}
