// Many names lent one after another, each after a byte that says its length, and the replies to them in turn.
#![tactic(auto)]

pub mod codes;

ghost use Rattle.std.specs.Prelude.{◌≡◌, true, ◌∷◌, ◌++◌, ◌+◌, ◌≤◌, length, take, drop};
ghost use Rattle.rules.specs.Limits.{max_names};
ghost use Rattle.speech.specs.Speech.{told_of};
ghost use Rattle.many_names.specs.Names.{names_in, has_next, sound_sheet, max_sheet};
ghost use Rattle.many_names.specs.Codes.{spoken_code, phones_or_place, numbers_given, contested_given};
ghost use Rattle.many_names.specs.Many.{reply_size};

use rules::Refusal;
use speech::Spoken;

// ---- the names

// Whether fewer than `limit` names have been taken and a whole name, after its length, lies from `at` on.
pub fn has_next(names: &[u8], at: usize, count: usize, limit: usize) -> bool
    requires { at ≤ length names.now }
    ensures { result ≡ has_next names.now at count limit }
{
    if limit <= count {
        return false;
    }
    if names.len() <= at {
        return false;
    }
    let left = names.len() - at - 1;
    if left < usize::from(names[at]) {
        return false;
    }
    true
}

// Whether a sheet is sound, and how many whole names it begins with.
#[derive(Clone, Copy)]
pub struct SheetSize {
    pub sound: bool,
    pub count: usize,
}

// 24 refuses a sheet of which a name is cut short, or which has more than 256.
pub fn size_of(sheet: &[u8]) -> SheetSize
    ensures sound { result.sound ≡ sound_sheet max_names sheet.now }
    ensures count { result.count ≡ length (names_in max_names sheet.now) }
    ensures few { result.sound ≡ true → length sheet.now ≤ max_sheet }
{
    let mut at: usize = 0;
    let mut count: usize = 0;
    while has_next(sheet, at, count, rules::MAX_NAMES) {
        at = at + 1 + usize::from(sheet[at]);
        count += 1;
    }
    let sound = at == sheet.len();
    SheetSize { sound, count }
}

// ---- the replies

// How many numbers a reply has.
pub const REPLY: usize = 5;

// How far the answering has come: the place in the names, the names answered, the phones and the numbers given.
#[derive(Clone, Copy)]
pub struct Progress {
    pub at: usize,
    pub count: usize,
    pub phones: usize,
    pub numbers: usize,
}

// A reply, from `at` on.
pub fn put_reply(replies: &mut [usize], at: usize, speech: Result<Spoken, Refusal>, steps: usize)
    requires { at + reply_size ≤ length replies.old }
    ensures { replies.new ≡ take at replies.old ++ (spoken_code (told_of speech) ∷ phones_or_place (told_of speech) ∷ numbers_given (told_of speech) ∷ steps ∷ contested_given (told_of speech) ∷ drop (at + reply_size) replies.old) }
{
    replies[at] = usize::from(codes::spoken_code(speech));
    replies[at + 1] = codes::phones_or_place(speech);
    replies[at + 2] = codes::numbers_given(speech);
    replies[at + 3] = steps;
    replies[at + 4] = codes::contested_given(speech);
}
