// A compiled ruleset: the lent tables with their state counts as read from the words. It is what each name is sent through
// (document 01, "The walk").
#![tactic(auto)]

ghost use Rattle.std.specs.Prelude.{◌≡◌, true, get_or};
ghost use Rattle.rules.specs.Names.{SoundName};
ghost use Rattle.exceptions.specs.Layout.{words_of, phones_for};
ghost use Rattle.exceptions.specs.Judging.{is_list, listing_of, no_list, says_of};
ghost use Rattle.image.specs.Image.{valid, edits_of, literals_of};
ghost use Rattle.speech.specs.Places.{Unsaid};
ghost use Rattle.speech.specs.Speech.{listed_or};
ghost use Rattle.tables.specs.Words.{compiled_from};
ghost use Rattle.tables.specs.Walk.{walk_through, walkedAs, walk_said};
ghost use Rattle.walk.specs.Walked.{walked_of};
ghost use Rattle.compiled.specs.Compiling.{compiled_of};

use passes::Compiled;
use rules::Refusal;
use walk::WalkAnswer;

// The state count that stands at a place of the words; 0 where they are too short.
pub fn state_count(words: &[u16], at: usize) -> usize
    ensures { result ≡ get_or words.now at 0 }
{
    if words.len() <= at {
        return 0;
    }
    usize::from(words[at])
}

// The lent tables with their state counts as read from the words. Whether they are usable is the walk's to say, with 16 and 22.
pub fn compile<'a>(words: &'a [u16], sets: &'a [u64]) -> Compiled<'a>
    ensures { result ≡ compiled_of words.entry sets.entry }
{
    let left_states = state_count(words, tables::LEFT_COUNT);
    let right_states = state_count(words, tables::RIGHT_COUNT);
    Compiled {
        words,
        sets,
        left_states,
        right_states,
    }
}

// A sound name that is not on the list is sent through the compiled ruleset of lent words. The image is known valid, and the list one, or too few words for any.
fn speak_words<'a>(
    words: &'a [u16],
    sets: &'a [u64],
    image: &[u8],
    list: &[u32],
    name: &[u8],
    phones: &mut [u8],
    numbers: &mut [u16],
) -> WalkAnswer
    requires { (valid image.now ≡ true) × Unsaid list.now name.now }
    ensures { walked_of result phones.new numbers.new ≡ walkedAs (walk_through (compiled_from words.now sets.now) (edits_of image.now) (literals_of image.now) name.now (says_of list.now)) phones.old numbers.old }
{
    let compiled = compile(words, sets);
    walk::walk_tables(&compiled, image, list, name, phones, numbers)
}

// The walk of a name, for a caller that knows the image valid and has no list.
pub fn speak_valid<'a>(
    image: &[u8],
    words: &'a [u16],
    sets: &'a [u64],
    name: &[u8],
    phones: &mut [u8],
    numbers: &mut [u16],
) -> WalkAnswer
    requires { valid image.now ≡ true }
    ensures { walked_of result phones.new numbers.new ≡ walk_said image.now no_list words.now sets.now name.now phones.old numbers.old }
{
    let judged = rules::judge_name(name);
    match judged {
        Err(x) => walk::at_once(x),
        Ok(()) => speak_words(words, sets, image, &reading::NO_LIST, name, phones, numbers),
    }
}

// The walk of a sound name that may be on the list: what is said from it takes no step.
fn speak_listed<'a>(
    image: &[u8],
    list: &[u32],
    words: &'a [u16],
    sets: &'a [u64],
    name: &[u8],
    phones: &mut [u8],
    numbers: &mut [u16],
) -> WalkAnswer
    requires { (valid image.now ≡ true) × ((is_list list.now ≡ true) × SoundName name.now) }
    ensures { walked_of result phones.new numbers.new ≡ walkedAs (listed_or (phones_for (words_of list.now)) name.now (walk_through (compiled_from words.now sets.now) (edits_of image.now) (literals_of image.now) name.now (phones_for (words_of list.now)))) phones.old numbers.old }
{
    let found = speech::say_listed(list, name, &mut *phones);
    match found {
        Some(speech) => WalkAnswer { steps: 0, speech },
        None => speak_words(words, sets, image, list, name, phones, numbers),
    }
}

// The walk of a name, for a caller that knows the image and the list valid.
pub fn speak_known<'a>(
    image: &[u8],
    list: &[u32],
    words: &'a [u16],
    sets: &'a [u64],
    name: &[u8],
    phones: &mut [u8],
    numbers: &mut [u16],
) -> WalkAnswer
    requires { (valid image.now ≡ true) × (is_list list.now ≡ true) }
    ensures { walked_of result phones.new numbers.new ≡ walk_said image.now (listing_of list.now) words.now sets.now name.now phones.old numbers.old }
{
    let judged = rules::judge_name(name);
    match judged {
        Err(x) => walk::at_once(x),
        Ok(()) => speak_listed(image, list, words, sets, name, phones, numbers),
    }
}

// The walk of a name through the compiled ruleset of lent words, built or not, with an image and a list that may be none.
pub fn speak_compiled<'a>(
    image: &[u8],
    list: &[u32],
    words: &'a [u16],
    sets: &'a [u64],
    name: &[u8],
    phones: &mut [u8],
    numbers: &mut [u16],
) -> WalkAnswer
    ensures { walked_of result phones.new numbers.new ≡ walk_said image.now (listing_of list.now) words.now sets.now name.now phones.old numbers.old }
{
    if !image::is_ruleset(image) {
        return walk::at_once(Refusal::NotRuleset(0));
    }
    if !exceptions::is_list(list) {
        return walk::at_once(Refusal::BadList(0));
    }
    speak_known(image, list, words, sets, name, phones, numbers)
}
