// Lists of changes from the empty list, replayed in lent memory: the claim over every such list is a contract (document 02, request 1).
#![tactic(auto)]

ghost use Rattle.std.specs.Prelude.{◌≡◌, true, ◌+◌, ◌-◌, ◌≤◌, min, length};
ghost use Rattle.rules.specs.Refusals.{reply_of};
ghost use Rattle.exceptions.specs.Judging.{is_list, Says};
ghost use Rattle.change.specs.Change.{Changed};
ghost use Rattle.change_history.specs.Code.{change_of, coded_changes};
ghost use Rattle.change_history.specs.Replay.{turns, nothing, Replayed, ReplayedAll};

use rules::Refusal;

// Words of a coded change; specs/Code.antt has the layout.
const CHANGE_WORDS: usize = 3;

// Where the `n` bytes from `from` on end, in a text of `len` bytes that may have fewer.
fn end_of(from: usize, n: usize, len: usize) -> usize
    requires { from ≤ len }
    ensures { result ≡ from + min n (len - from) }
{
    from + n.min(len - from)
}

// The change of this kind.
fn apply(list: &mut [u32], kind: usize, name: &[u8], phones: &[u8]) -> Result<(), Refusal>
    ensures { Changed (change_of kind name.now phones.now) list.old list.new (reply_of result) }
{
    if kind == 0 {
        return change::add_name(list, name, phones);
    }
    change::remove_name(list, name)
}

// The first `n` changes of `code`, from the list as it is lent; a code and a place for each answer.
fn replay_all(
    list: &mut [u32],
    code: &[usize],
    text: &[u8],
    answers: &mut [u8],
    places: &mut [usize],
    n: usize,
)
    requires { (n ≤ turns (length code.now) (length answers.old) (length places.old)) × (is_list list.old ≡ true) × Says list.old nothing }
    ensures { ReplayedAll (coded_changes n code.now text.now) list.old answers.old places.old list.new answers.new places.new }
{
    let mut at = 0;
    let mut from = 0;
    for i in 0..n {
        let middle = end_of(from, code[at + 1], text.len());
        let end = end_of(middle, code[at + 2], text.len());
        let a = apply(list, code[at], &text[from..middle], &text[middle..end]);
        answers[i] = rules::answer_code(a);
        places[i] = rules::answer_place(a);
        at += CHANGE_WORDS;
        from = end;
    }
}

// The coded changes from the empty list, as many as have room for their answer: its code in `answers`, its place in `places`.
pub fn replay(
    list: &mut [u32],
    code: &[usize],
    text: &[u8],
    answers: &mut [u8],
    places: &mut [usize],
) -> Result<(), Refusal>
    ensures { Replayed list.old code.now text.now answers.old places.old (reply_of result) list.new answers.new places.new }
{
    exceptions::clear(&mut *list)?;
    let room = answers.len().min(places.len());
    let n = (code.len() / CHANGE_WORDS).min(room);
    replay_all(list, code, text, answers, places, n);
    Ok(())
}
