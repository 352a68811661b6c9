// What `say` answers: a name's line in and its answer's line out (document 01, "The six rules").
#![tactic(auto)]

ghost use Rattle.std.specs.Prelude.{◌≡◌, true, ◌≤◌, IfSome, length, drop};
ghost use Rattle.rules.specs.Memory.{over};
ghost use Rattle.image.specs.Image.{valid};
ghost use Rattle.frames.specs.Lines.{sound_line, line_after};
ghost use Rattle.lines.specs.Printed.{printed};
ghost use Rattle.answer_lines.specs.Answers.{longest_line};
ghost use Rattle.transcript.specs.Names.{asked, name_line, name_answer, cut, name_in};

use image::ruleset::Ruleset;
use rules::Refusal;

// ---- names

// A name is walked, with no list, and its answer's line printed.
fn speak<'a>(
    rules: Ruleset<'_>,
    words: &'a [u16],
    sets: &'a [u64],
    name: &[u8],
    out: &mut [u8],
) -> usize
    requires { longest_line ≤ length out.old }
    ensures len { result ≡ length (name_line rules.entry.bytes.now words.now sets.now name.now) }
    ensures bytes { out.new ≡ over (name_line rules.entry.bytes.now words.now sets.now name.now) out.old }
{
    let mut phones = [0u8; 256];
    let mut numbers = [0u16; 64];
    let answer = compiled::speak_valid(rules.bytes, words, sets, name, &mut phones, &mut numbers);
    answer_lines::answer_line(answer, &phones, &numbers, out)
}

// The frame of the line at a place: where its letters end, which start at 1; none if it is unsound or does not start with 03. Of a longer
// frame, whose name is over 64 letters, 65 letters are kept.
fn name_in(text: &[u8], at: usize, frame: &mut [u8]) -> Option<usize>
    requires { length frame.old ≡ 67 }
    ensures end { IfSome result (λ end. (1 ≤ end) × (end ≤ 66)) }
    ensures name { name_in result frame.new ≡ cut (asked (sound_line (drop at text.now))) }
{
    let line = frames::read_line(text, at, &mut *frame)?;
    if frame[0] != 3 {
        return None;
    }
    Some(line.len.min(67) - 1)
}

// The answer to a line: where the next line starts, and the length of what is to be printed.
#[derive(Clone, Copy)]
pub struct Answered {
    pub next: usize,
    pub len: usize,
}

// The answer to the line that starts at `at`, at the front of lent bytes.
pub fn answer_name<'a>(
    image: &[u8],
    words: &'a [u16],
    sets: &'a [u64],
    text: &[u8],
    at: usize,
    out: &mut [u8],
) -> Answered
    requires { (valid image.now ≡ true) × (longest_line ≤ length out.old) }
    ensures next { result.next ≡ line_after text.now at }
    ensures len { result.len ≡ length (name_answer image.now words.now sets.now (drop at text.now)) }
    ensures bytes { out.new ≡ over (name_answer image.now words.now sets.now (drop at text.now)) out.old }
{
    let next = frames::next_line(text, at);
    let mut frame = [0u8; 67];
    let Some(end) = name_in(text, at, &mut frame) else {
        let len = lines::refusal_line(Refusal::BadLine(0), out);
        return Answered { next, len };
    };
    let len = speak(Ruleset { bytes: image }, words, sets, &frame[1..end], out);
    Answered { next, len }
}
