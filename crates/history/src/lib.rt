// A list of edits from the empty ruleset, replayed in lent memory: the claim over every such list is a contract (document 01, demand 3).
#![tactic(auto)]

ghost use Rattle.std.specs.Prelude.{◌≡◌, ◌<◌, ◌≤◌, length, get_or, take, drop};
ghost use Rattle.rules.specs.Refusals.{reply_of, accepted};
ghost use Rattle.image.specs.Image.{outcome};
ghost use Rattle.edits.specs.Ledger.{Edit};
ghost use Rattle.edits.specs.Edits.{edited};
ghost use Rattle.history.specs.Code.{rule_word, byte_at, first_bytes, coded_rule, coded_letters, coded_edit, coded_edits};
ghost use Rattle.history.specs.Replay.{turns, replaying, through, Replayed};

use rules::{Refusal, Rule};

// Words of a coded edit; specs/Code.antt has the layout.
const RULE_WORD: usize = 3;

const EDIT_WORDS: usize = RULE_WORD + rule_bytes::SIZE;

// The word at `i`, or 0 past the end.
fn word_at(code: &[usize], i: usize) -> usize
    ensures { result ≡ get_or code.now i 0 }
{
    code.get(i).copied().unwrap_or(0)
}

fn byte_at(code: &[usize], i: usize) -> u8
    ensures { result ≡ byte_at code.now i }
{
    (word_at(code, i) % 256) as u8
}

// The bytes of the rule that the words say, as many as `room` has places.
fn put_bytes(room: &mut [u8], code: &[usize])
    ensures { room.new ≡ first_bytes (length room.old) (drop rule_word code.now) }
{
    for (i, byte) in room.iter_mut().enumerate() {
        *byte = byte_at(code, RULE_WORD + i);
    }
}

fn coded_rule(code: &[usize]) -> Rule
    ensures { result ≡ coded_rule code.now }
{
    let mut bytes = [0u8; rule_bytes::SIZE];
    put_bytes(&mut bytes, code);
    rule_bytes::rule_of(&bytes)
}

// At most `n` letters of the pool from `at` on.
fn letters_at(letters: &[u8], at: usize, n: usize) -> &[u8]
    ensures { result.now ≡ take n (drop at letters.now) }
{
    let start = at.min(letters.len());
    let end = start + n.min(letters.len() - start);
    &letters[start..end]
}

// The class that the words say, set.
fn class_edit(image: &mut [u8], code: &[usize], letters: &[u8]) -> Result<(), Refusal>
    ensures { outcome (reply_of result) image.new ≡ edited image.old (Edit.SetClass (byte_at code.now 1) (coded_letters letters.now code.now)) }
{
    let symbol = byte_at(code, 1);
    let at = word_at(code, 2);
    let n = word_at(code, 3);
    edits::set_class(image, symbol, letters_at(letters, at, n))
}

// The edit that the words say, applied.
fn edit(image: &mut [u8], code: &[usize], letters: &[u8]) -> Result<(), Refusal>
    ensures { outcome (reply_of result) image.new ≡ edited image.old (coded_edit letters.now code.now) }
{
    let kind = word_at(code, 0);
    let number = (word_at(code, 1) % 65536) as u16;
    let place = word_at(code, 2);
    match kind {
        0 => edits::add_rule(image, coded_rule(code), place),
        1 => edits::drop_rule(image, number),
        2 => edits::move_rule(image, number, place),
        _ => class_edit(image, code, letters),
    }
}

// The first `n` edits of `code`, from the image as it is lent; a code and a place for each answer.
fn replay_all(
    image: &mut [u8],
    code: &[usize],
    letters: &[u8],
    answers: &mut [u8],
    places: &mut [usize],
    n: usize,
)
    requires { n ≤ turns (length code.now) (length answers.old) (length places.old) }
    ensures { replaying accepted image.new answers.new places.new ≡ through (coded_edits n letters.now code.now) image.old answers.old places.old }
{
    for i in 0..n {
        let a = edit(image, &code[EDIT_WORDS * i..], letters);
        answers[i] = rules::answer_code(a);
        places[i] = rules::answer_place(a);
    }
}

// The coded edits from the empty ruleset, as many as have room for their answer: its code in `answers`, its place in `places`. `letters` is the
// pool of the classes' letters.
pub fn replay(
    image: &mut [u8],
    code: &[usize],
    letters: &[u8],
    answers: &mut [u8],
    places: &mut [usize],
) -> Result<(), Refusal>
    ensures { Replayed image.old code.now letters.now answers.old places.old (replaying (reply_of result) image.new answers.new places.new) }
{
    image::clear(image)?;
    let room = answers.len().min(places.len());
    let n = (code.len() / EDIT_WORDS).min(room);
    replay_all(image, code, letters, answers, places, n);
    Ok(())
}
