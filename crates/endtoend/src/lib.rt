// Demand 3 of document 01 as the contract of a function that calls the real ones: a list of edits from the empty ruleset, the tables built
// after it, and a name read plainly and walked through those tables, with a lent exceptions list.
#![tactic(auto)]

ghost use Rattle.rules.specs.Refusals.{reply_of};
ghost use Rattle.history.specs.Replay.{replaying};
ghost use Rattle.speech.specs.Speech.{told_of, saying};
ghost use Rattle.tables.specs.Words.{building};
ghost use Rattle.walk.specs.Walked.{walked_of};
ghost use Rattle.endtoend.specs.EndToEnd.{EndToEnd, lent, given};

use rules::Refusal;
use speech::Spoken;
use walk::WalkAnswer;

// The answers of the four calls.
#[derive(Clone, Copy)]
pub struct Answers {
    pub replay: Result<(), Refusal>,
    pub build: Result<(), Refusal>,
    pub plain: Result<Spoken, Refusal>,
    pub walk: WalkAnswer,
}

// The four calls, one after the other, each on the memory that the ones before left.
pub fn run<'a>(
    image: &mut [u8],
    list: &[u32],
    code: &[usize],
    letters: &[u8],
    answers: &mut [u8],
    places: &mut [usize],
    words: &'a mut [u16],
    sets: &'a mut [u64],
    name: &[u8],
    plain_phones: &mut [u8],
    plain_numbers: &mut [u16],
    walk_phones: &mut [u8],
    walk_numbers: &mut [u16],
) -> Answers
    ensures { EndToEnd (lent image.old list.now code.now letters.now answers.old places.old words.old sets.old name.now plain_phones.old plain_numbers.old walk_phones.old walk_numbers.old) (given (replaying (reply_of result.replay) image.new answers.new places.new) (building (reply_of result.build) words.new sets.new) (saying (told_of result.plain) plain_phones.new plain_numbers.new) (walked_of result.walk walk_phones.new walk_numbers.new)) }
{
    let replay = history::replay(image, code, letters, answers, places);
    let build = build::build(image, words, sets);
    let plain = reading::read_name(image, list, name, plain_phones, plain_numbers);
    let walk = compiled::speak_compiled(image, list, words, sets, name, walk_phones, walk_numbers);
    Answers {
        replay,
        build,
        plain,
        walk,
    }
}
