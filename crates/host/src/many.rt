// Many names one after the other, by a ruleset and a list that are known to be valid.
ghost use Rattle.std.specs.Prelude.{◌≡◌, true, ◌+◌, ◌*◌, ◌≤◌, length, get_or};
ghost use Rattle.rules.specs.Memory.{over};
ghost use Rattle.exceptions.specs.Judging.{is_list, listing_of};
ghost use Rattle.tables.specs.Walk.{walk_said};
ghost use Rattle.many_names.specs.Many.{reply_size, Next};
ghost use Rattle.host.specs.Many.{spoken_all};

use image::ruleset::Ruleset;
use many_names::{Progress, codes};

// The next name is answered, in the lent memory after the answers before it.
fn speak_next<'a>(
    rules: Ruleset<'_>,
    list: &[u32],
    words: &'a [u16],
    sets: &'a [u64],
    names: &[u8],
    phones: &mut [u8],
    numbers: &mut [u16],
    replies: &mut [usize],
    p: Progress,
) -> Progress
    requires { (is_list list.now ≡ true) × (p.at + 1 + get_or names.now p.at 0 ≤ length names.now) × (p.phones ≤ length phones.old) × (p.numbers ≤ length numbers.old) × (reply_size * p.count + reply_size ≤ length replies.old) }
    ensures { Next (walk_said rules.entry.bytes.now (listing_of list.now) words.now sets.now) names.now phones.old numbers.old replies.old p phones.new numbers.new replies.new result }
{
    let at = p.at;
    let start = at + 1;
    let end = start + usize::from(names[at]);
    let from = p.phones;
    let to = p.numbers;
    let answer = compiled::speak_known(
        rules.bytes,
        list,
        words,
        sets,
        &names[start..end],
        &mut phones[from..],
        &mut numbers[to..],
    );
    let speech = answer.speech;
    many_names::put_reply(replies, many_names::REPLY * p.count, speech, answer.steps);
    Progress {
        at: end,
        count: p.count + 1,
        phones: from + codes::phones_given(speech),
        numbers: to + codes::numbers_given(speech),
    }
}

// Every whole name that has room for its reply is answered.
pub fn speak_all<'a>(
    rules: Ruleset<'_>,
    list: &[u32],
    words: &'a [u16],
    sets: &'a [u64],
    names: &[u8],
    phones: &mut [u8],
    numbers: &mut [u16],
    replies: &mut [usize],
) -> usize
    requires { is_list list.now ≡ true }
    ensures count { result ≡ (spoken_all rules.entry.bytes.now (listing_of list.now) words.now sets.now names.now phones.old numbers.old replies.old).count }
    ensures replies { replies.new ≡ over (spoken_all rules.entry.bytes.now (listing_of list.now) words.now sets.now names.now phones.old numbers.old replies.old).replies replies.old }
    ensures phones { phones.new ≡ (spoken_all rules.entry.bytes.now (listing_of list.now) words.now sets.now names.now phones.old numbers.old replies.old).phones }
    ensures numbers { numbers.new ≡ (spoken_all rules.entry.bytes.now (listing_of list.now) words.now sets.now names.now phones.old numbers.old replies.old).numbers }
{
    let limit = replies.len() / many_names::REPLY;
    let mut p = Progress {
        at: 0,
        count: 0,
        phones: 0,
        numbers: 0,
    };
    while many_names::has_next(names, p.at, p.count, limit) {
        p = speak_next(rules, list, words, sets, names, phones, numbers, replies, p);
    }
    p.count
}
