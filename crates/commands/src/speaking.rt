// The commands that build tables and speak names, over the first so many of what the monitor holds.
ghost use Rattle.std.specs.Prelude.{◌≡◌, ◌≤◌, length, take, drop};
ghost use Rattle.numbers.specs.Numbers.{two};
ghost use Rattle.rules.specs.Memory.{over};
ghost use Rattle.rules.specs.Refusals.{reply_of};
ghost use Rattle.speech.specs.Speech.{told_of, saying};
ghost use Rattle.tables.specs.Words.{building};
ghost use Rattle.walk.specs.Walked.{walked_of};
ghost use Rattle.answer_lines.specs.Answers.{longest_line, ToldWithin};
ghost use Rattle.command_parts.specs.Answers.{contested_after, BothAnswered, SpeechAnswered};
ghost use Rattle.command_parts.specs.Fields.{four, lent_of};
ghost use Rattle.commands.specs.Lent.{built_in, plain_in, walk_in, built_by, plain_line, plain_by, walk_line, walked_by};

use command_parts::{answers, fields};
use rules::Refusal;
use speech::Spoken;
use walk::WalkAnswer;

// Tables built into the first so many words and set words.
fn build_in(
    image: &[u8],
    words: &mut [u16],
    n: usize,
    sets: &mut [u64],
    m: usize,
) -> Result<(), Refusal>
    requires { (n ≤ length words.old) × (m ≤ length sets.old) }
    ensures { building (reply_of result) words.new sets.new ≡ built_in n m image.now words.old sets.old }
{
    build::build(image, &mut words[..n], &mut sets[..m])
}

// 15, lent words (4), lent set words (4).
pub fn build_lent(
    f: &[u8],
    image: &[u8],
    words: &mut [u16],
    sets: &mut [u64],
) -> Result<(), Refusal>
    requires { length f.now ≡ 9 }
    ensures { building (reply_of result) words.new sets.new ≡ built_in (lent_of (four 1 f.now) (length words.old)) (lent_of (four 5 f.now) (length sets.old)) image.now words.old sets.old }
{
    let n = fields::lent(fields::four_at(f, 1), words.len());
    let m = fields::lent(fields::four_at(f, 5), sets.len());
    build_in(image, words, n, sets, m)
}

// 15: build.
pub fn build_command(
    f: &[u8],
    image: &[u8],
    words: &mut [u16],
    sets: &mut [u64],
    out: &mut [u8],
) -> usize
    requires { 15 ≤ length out.old }
    ensures { BothAnswered (built_by f.now image.now words.old sets.old) words.new sets.new result out.old out.new }
{
    if f.len() != 9 {
        return answers::malformed(out);
    }
    let answer = build_lent(f, image, &mut *words, sets);
    match answer {
        Ok(()) => {
            let l = compiled::state_count(words, tables::LEFT_COUNT);
            let r = compiled::state_count(words, tables::RIGHT_COUNT);
            answers::states_line(l, r, out)
        },
        Err(x) => lines::refusal_line(x, out),
    }
}

// A name read plainly, with the first so many phones and numbers lent.
fn plain_in(
    image: &[u8],
    list: &[u32],
    name: &[u8],
    phones: &mut [u8],
    n: usize,
    numbers: &mut [u16],
    m: usize,
) -> Result<Spoken, Refusal>
    requires { (n ≤ length phones.old) × (m ≤ length numbers.old) }
    ensures { saying (told_of result) phones.new numbers.new ≡ plain_in n m image.now list.now name.now phones.old numbers.old }
{
    reading::read_name(image, list, name, &mut phones[..n], &mut numbers[..m])
}

// 17, lent phones (2), lent numbers (2), letters.
pub fn plain_lent(
    f: &[u8],
    image: &[u8],
    list: &[u32],
    phones: &mut [u8],
    numbers: &mut [u16],
) -> Result<Spoken, Refusal>
    requires { 5 ≤ length f.now }
    ensures said { saying (told_of result) phones.new numbers.new ≡ plain_in (lent_of (two 1 f.now) (length phones.old)) (lent_of (two 3 f.now) (length numbers.old)) image.now list.now (drop 5 f.now) phones.old numbers.old }
    ensures within { ToldWithin (told_of result) (length phones.old) (length numbers.old) }
{
    let n = fields::lent(fields::two_at(f, 1), phones.len());
    let m = fields::lent(fields::two_at(f, 3), numbers.len());
    plain_in(image, list, &f[5..], phones, n, numbers, m)
}

// A name walked through the first so many words and set words, with the first so many phones and numbers lent.
fn walk_in<'a>(
    image: &[u8],
    list: &[u32],
    words: &'a [u16],
    sets: &'a [u64],
    name: &[u8],
    phones: &mut [u8],
    n: usize,
    numbers: &mut [u16],
    m: usize,
) -> WalkAnswer
    requires { (n ≤ length phones.old) × (m ≤ length numbers.old) }
    ensures { walked_of result phones.new numbers.new ≡ walk_in n m image.now list.now words.now sets.now name.now phones.old numbers.old }
{
    compiled::speak_compiled(
        image,
        list,
        words,
        sets,
        name,
        &mut phones[..n],
        &mut numbers[..m],
    )
}

// 16, lent words (4), lent set words (4), lent phones (2), lent numbers (2), letters.
pub fn walk_lent<'a>(
    f: &[u8],
    image: &[u8],
    list: &[u32],
    words: &'a [u16],
    sets: &'a [u64],
    phones: &mut [u8],
    numbers: &mut [u16],
) -> WalkAnswer
    requires { 13 ≤ length f.now }
    ensures walked { walked_of result phones.new numbers.new ≡ walk_in (lent_of (two 9 f.now) (length phones.old)) (lent_of (two 11 f.now) (length numbers.old)) image.now list.now (take (lent_of (four 1 f.now) (length words.now)) words.now) (take (lent_of (four 5 f.now) (length sets.now)) sets.now) (drop 13 f.now) phones.old numbers.old }
    ensures within { ToldWithin (told_of result.speech) (length phones.old) (length numbers.old) }
{
    let a = fields::lent(fields::four_at(f, 1), words.len());
    let b = fields::lent(fields::four_at(f, 5), sets.len());
    let n = fields::lent(fields::two_at(f, 9), phones.len());
    let m = fields::lent(fields::two_at(f, 11), numbers.len());
    walk_in(
        image,
        list,
        &words[..a],
        &sets[..b],
        &f[13..],
        phones,
        n,
        numbers,
        m,
    )
}

// The contested letters of the last name spoken, after a speech: no more than the numbers given, so that a byte holds them.
fn contested_after(speech: Result<Spoken, Refusal>, before: u8) -> u8
    requires { ToldWithin (told_of speech) 256 64 }
    ensures { result ≡ contested_after (told_of speech) before }
{
    match speech {
        Ok(said) => said.contested as u8,
        Err(_) => before,
    }
}

// The answer of a plain reading: 04 with no steps, or 05.
fn plain_line(
    speech: Result<Spoken, Refusal>,
    phones: &[u8],
    numbers: &[u16],
    out: &mut [u8],
) -> usize
    requires { (length phones.now ≤ 256) × ((length numbers.now ≤ 64) × ((longest_line ≤ length out.old) × ToldWithin (told_of speech) (length phones.now) (length numbers.now))) }
    ensures len { result ≡ length (plain_line (told_of speech) phones.now numbers.now) }
    ensures bytes { out.new ≡ over (plain_line (told_of speech) phones.now numbers.now) out.old }
{
    let answer = WalkAnswer { steps: 0, speech };
    answer_lines::answer_line(answer, phones, numbers, out)
}

// 17: plain reading.
pub fn plain_command(
    f: &[u8],
    image: &[u8],
    list: &[u32],
    phones: &mut [u8],
    numbers: &mut [u16],
    contested: &mut u8,
    out: &mut [u8],
) -> usize
    requires { (length phones.old ≤ 256) × ((length numbers.old ≤ 64) × (longest_line ≤ length out.old)) }
    ensures { SpeechAnswered (plain_by f.now image.now list.now phones.old numbers.old contested.old) phones.new numbers.new contested.new result out.old out.new }
{
    if f.len() < 5 {
        return answers::malformed(out);
    }
    let speech = plain_lent(f, image, list, &mut *phones, &mut *numbers);
    *contested = contested_after(speech, *contested);
    plain_line(speech, phones, numbers, out)
}

// The answer of a walk: 04, or 08 with the steps.
fn walk_line(answer: WalkAnswer, phones: &[u8], numbers: &[u16], out: &mut [u8]) -> usize
    requires { (length phones.now ≤ 256) × ((length numbers.now ≤ 64) × ((longest_line ≤ length out.old) × ToldWithin (told_of answer.speech) (length phones.now) (length numbers.now))) }
    ensures len { result ≡ length (walk_line (told_of answer.speech) answer.steps phones.now numbers.now) }
    ensures bytes { out.new ≡ over (walk_line (told_of answer.speech) answer.steps phones.now numbers.now) out.old }
{
    if let Err(x) = answer.speech {
        return answers::walk_refusal(answer.steps, x, out);
    }
    answer_lines::answer_line(answer, phones, numbers, out)
}

// 16: walk.
pub fn walk_command<'a>(
    f: &[u8],
    image: &[u8],
    list: &[u32],
    words: &'a [u16],
    sets: &'a [u64],
    phones: &mut [u8],
    numbers: &mut [u16],
    contested: &mut u8,
    out: &mut [u8],
) -> usize
    requires { (length phones.old ≤ 256) × ((length numbers.old ≤ 64) × (longest_line ≤ length out.old)) }
    ensures { SpeechAnswered (walked_by f.now image.now list.now words.now sets.now phones.old numbers.old contested.old) phones.new numbers.new contested.new result out.old out.new }
{
    if f.len() < 13 {
        return answers::malformed(out);
    }
    let answer = walk_lent(f, image, list, words, sets, &mut *phones, &mut *numbers);
    let speech = answer.speech;
    *contested = contested_after(speech, *contested);
    walk_line(answer, phones, numbers, out)
}
