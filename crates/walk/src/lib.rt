// The walk of a name through a compiled ruleset, the lent tables (document 01, "The walk", and refusal 16; document 02, refusal 22).
#![tactic(auto)]

ghost use Rattle.std.specs.Prelude.{◌≡◌, true, cond, not, ◌&&◌, ◌<◌, ◌≤◌, eqb, length};
ghost use Rattle.exceptions.specs.Judging.{says_of};
ghost use Rattle.image.specs.Image.{valid, edits_of, literals_of};
ghost use Rattle.speech.specs.Words.{frame_of};
ghost use Rattle.speech.specs.Places.{Unsaid};
ghost use Rattle.tables.specs.Words.{head_words, edits_in, right_sets};
ghost use Rattle.tables.specs.Walk.{lengths_fit, walk_through, walkedAs};
ghost use Rattle.walk.specs.Walked.{walked_of, compiled_in, steps_with, FitsAs};

use passes::Compiled;
use rules::Refusal;
use speech::{Spoken, Unread};

// The answer of a walk: the entries looked up, and what was said.
#[derive(Clone, Copy)]
pub struct WalkAnswer {
    pub steps: usize,
    pub speech: Result<Spoken, Refusal>,
}

// An answer before the tables are stepped through.
pub fn at_once(x: Refusal) -> WalkAnswer
    ensures { result ≡ record { steps = 0; speech = Err x } }
{
    WalkAnswer {
        steps: 0,
        speech: Err(x),
    }
}

// The steps that go with how reading ended: none where the tables proved unusable.
fn steps_with(reached: Result<usize, Unread>, steps: usize) -> usize
    ensures { result ≡ steps_with reached steps }
{
    match reached {
        Ok(_) => steps,
        Err(Unread::Uncovered(_)) => steps,
        Err(Unread::BadTables) => 0,
    }
}

// The set word with which the right sets begin; where lengths or edit count do not fit, no set is looked at.
pub fn right_base(fit: bool, left_states: usize) -> usize
    requires { fit ≡ true → right_sets left_states < 18446744073709551616 }
    ensures { result ≡ cond fit (right_sets left_states) 0 }
{
    if !fit {
        return 0;
    }
    tables::SET * left_states
}

// The walk over the frame of a name that is not on the list: all passes first, then each reached letter. A word that needs the tables is refused with 22
// where they are stale, and else with 16.
fn walk_frame(
    compiled: &Compiled<'_>,
    fit: bool,
    stale: bool,
    image: &[u8],
    list: &[u32],
    name: &[u8],
    frame: &[u8],
    phones: &mut [u8],
    numbers: &mut [u16],
) -> WalkAnswer
    requires { FitsAs compiled.now.words.now compiled.now.sets.now compiled.now.left_states compiled.now.right_states (edits_of image.now) fit stale × (valid image.now ≡ true) × Unsaid list.now name.now × (frame.now ≡ frame_of name.now) }
    ensures { walked_of result phones.new numbers.new ≡ walkedAs (walk_through (compiled_in compiled.now) (edits_of image.now) (literals_of image.now) name.now (says_of list.now)) phones.old numbers.old }
{
    let mut found = [0u16; reading::MAX_FRAME];
    let mut left = [0u16; reading::MAX_FRAME];
    let mut right = [0u16; reading::MAX_FRAME];
    let Some(looked_up) = passes::run_words(
        compiled, fit, list, name, frame, &mut found, &mut left, &mut right,
    ) else {
        if stale {
            return at_once(Refusal::StaleTables(0));
        }
        return at_once(Refusal::BadTables(0));
    };
    let mut parts = [0u32; reading::MAX_FRAME];
    let reached = table_reading::read_words(
        compiled.sets,
        right_base(fit, compiled.left_states),
        image,
        name,
        frame,
        &found,
        &left,
        &right,
        &mut parts,
    );
    let steps = steps_with(reached, looked_up);
    let speech = speech::answer(image, list, reached, &parts, phones, numbers);
    // Made anew from its numbers: copied whole, with its unused bytes, it took 5 ns more a name.
    match speech {
        Ok(said) => WalkAnswer {
            steps,
            speech: Ok(Spoken {
                phones: said.phones,
                numbers: said.numbers,
                contested: said.contested,
            }),
        },
        Err(x) => WalkAnswer {
            steps,
            speech: Err(x),
        },
    }
}

// The walk of a sound name that is not on the list.
fn walk_sound(
    compiled: &Compiled<'_>,
    fit: bool,
    stale: bool,
    image: &[u8],
    list: &[u32],
    name: &[u8],
    phones: &mut [u8],
    numbers: &mut [u16],
) -> WalkAnswer
    requires { FitsAs compiled.now.words.now compiled.now.sets.now compiled.now.left_states compiled.now.right_states (edits_of image.now) fit stale × (valid image.now ≡ true) × Unsaid list.now name.now }
    ensures { walked_of result phones.new numbers.new ≡ walkedAs (walk_through (compiled_in compiled.now) (edits_of image.now) (literals_of image.now) name.now (says_of list.now)) phones.old numbers.old }
{
    let mut frame = [0u8; reading::MAX_FRAME];
    reading::words::lay_frame(name, &mut frame);
    let end = name.len() + 2;
    walk_frame(
        compiled,
        fit,
        stale,
        image,
        list,
        name,
        &frame[..end],
        phones,
        numbers,
    )
}

// 16 for lengths: whether words and set words are long enough for the state counts, of which none may be 0.
pub fn lengths_fit(compiled: &Compiled<'_>) -> bool
    ensures { result ≡ lengths_fit (compiled_in compiled.now) }
{
    if compiled.words.len() < tables::HEAD {
        return false;
    }
    if compiled.left_states < 1 {
        return false;
    }
    if compiled.right_states < 1 {
        return false;
    }
    let rows = (compiled.words.len() - tables::HEAD) / tables::ROW;
    if rows < compiled.left_states {
        return false;
    }
    if rows - compiled.left_states < compiled.right_states {
        return false;
    }
    let states = compiled.sets.len() / tables::SET;
    if states < compiled.left_states {
        return false;
    }
    if states - compiled.left_states < compiled.right_states {
        return false;
    }
    true
}

// 22, where the lengths fit: whether the words hold another edit count than the ruleset's.
pub fn other_count(words: &[u16], long: bool, edits: u32) -> bool
    requires { long ≡ true → head_words ≤ length words.now }
    ensures { result ≡ (long && not (eqb (edits_in words.now) edits)) }
{
    if !long {
        return false;
    }
    let high = usize::from(words[tables::EDITS_HIGH]);
    let low = usize::from(words[tables::EDITS_LOW]);
    65536 * high + low != edits as usize
}

// Whether names can be sent through tables of these lengths with this count.
pub fn can_pass(long: bool, stale: bool) -> bool
    ensures { result ≡ (long && not stale) }
{
    long && !stale
}

// The walk of a sound name, which is not on the list, through a compiled ruleset, for a caller that knows the image valid and
// the list one, or lends too few words for any; nothing in it grows with the number of rules.
pub fn walk_tables(
    compiled: &Compiled<'_>,
    image: &[u8],
    list: &[u32],
    name: &[u8],
    phones: &mut [u8],
    numbers: &mut [u16],
) -> WalkAnswer
    requires { (valid image.now ≡ true) × Unsaid list.now name.now }
    ensures { walked_of result phones.new numbers.new ≡ walkedAs (walk_through (compiled_in compiled.now) (edits_of image.now) (literals_of image.now) name.now (says_of list.now)) phones.old numbers.old }
{
    let long = lengths_fit(compiled);
    let stale = other_count(compiled.words, long, image::edit_count(image));
    let fit = can_pass(long, stale);
    walk_sound(compiled, fit, stale, image, list, name, phones, numbers)
}
