// The lines that answer a name, of `say` and of the monitor (document 01, "The six rules").
#![tactic(auto)]

ghost use Rattle.std.specs.Prelude.{◌≡◌, ◌+◌, ◌*◌, ◌≤◌, length};
ghost use Rattle.rules.specs.Memory.{over};
ghost use Rattle.frames.specs.Output.{output, Sent};
ghost use Rattle.speech.specs.Speech.{told_of};
ghost use Rattle.lines.specs.Printed.{printed};
ghost use Rattle.answer_lines.specs.Answers.{longest_line, spoken_front, spoken_body, told_body, ToldWithin};

use frames::writer;
use frames::writer::Writer;
use walk::WalkAnswer;

// No line that is printed for a name has more bytes, its 0A included.
pub const LONGEST_LINE: usize = 783;

// 04, the steps and the phone count.
fn put_front(out: &mut [u8], w: Writer, steps: usize, count: usize) -> Writer
    requires { w.at + 10 ≤ length out.old }
    ensures next { result.at ≡ w.at + 10 }
    ensures sent { Sent (spoken_front steps count) (output w out.old) (output result out.new) }
{
    let kind = writer::put(&mut *out, w, 4);
    let stepped = writer::put_two(&mut *out, kind, steps);
    writer::put_two(out, stepped, count)
}

// What was spoken.
fn put_spoken(out: &mut [u8], w: Writer, steps: usize, phones: &[u8], numbers: &[u16]) -> Writer
    requires { w.at + 2 * (6 + length phones.now + 2 * length numbers.now) ≤ length out.old }
    ensures next { result.at ≡ w.at + 2 * (6 + length phones.now + 2 * length numbers.now) }
    ensures sent { Sent (spoken_body steps phones.now numbers.now) (output w out.old) (output result out.new) }
{
    let front = put_front(&mut *out, w, steps, phones.len());
    let said = writer::put_all(&mut *out, front, phones);
    let count = writer::put(&mut *out, said, (numbers.len() % 256) as u8);
    lines::put_numbers(out, count, numbers)
}

// The line of what was spoken, and its length.
pub fn spoken_line(steps: usize, phones: &[u8], numbers: &[u16], out: &mut [u8]) -> usize
    requires { (length phones.now ≤ 256) × ((length numbers.now ≤ 64) × (longest_line ≤ length out.old)) }
    ensures len { result ≡ length (printed (spoken_body steps phones.now numbers.now)) }
    ensures bytes { out.new ≡ over (printed (spoken_body steps phones.now numbers.now)) out.old }
{
    let start = writer::begin(0);
    let body = put_spoken(&mut *out, start, steps, phones, numbers);
    writer::end(out, body)
}

// The line of a walk's answer, and its length.
pub fn answer_line(answer: WalkAnswer, phones: &[u8], numbers: &[u16], out: &mut [u8]) -> usize
    requires { (length phones.now ≤ 256) × ((length numbers.now ≤ 64) × ((longest_line ≤ length out.old) × ToldWithin (told_of answer.speech) (length phones.now) (length numbers.now))) }
    ensures len { result ≡ length (printed (told_body (told_of answer.speech) answer.steps phones.now numbers.now)) }
    ensures bytes { out.new ≡ over (printed (told_body (told_of answer.speech) answer.steps phones.now numbers.now)) out.old }
{
    match answer.speech {
        Ok(said) => {
            spoken_line(
                answer.steps,
                &phones[..said.phones],
                &numbers[..said.numbers],
                out,
            )
        }
        Err(x) => lines::refusal_line(x, out),
    }
}
