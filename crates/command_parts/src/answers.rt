// The lines that a command answers.
ghost use Rattle.std.specs.Prelude.{◌≡◌, ◌≤◌, length};
ghost use Rattle.image.specs.Image.{image_size, last_of};
ghost use Rattle.rules.specs.Memory.{over};
ghost use Rattle.rules.specs.Refusals.{refusal_number, refusal_place, reply_of};
ghost use Rattle.command_parts.specs.Answers.{done_line, last_line, states_line, walk_refusal, malformed_line, reply_line};

use frames::writer;
use rules::Refusal;

// 06 alone.
pub fn done_line(out: &mut [u8]) -> usize
    requires { 15 ≤ length out.old }
    ensures len { result ≡ 5 }
    ensures bytes { out.new ≡ over done_line out.old }
{
    let start = writer::begin(0);
    let body = writer::put(&mut *out, start, 6);
    writer::end(out, body)
}

// 06, `last` (2).
pub fn last_line(last: usize, out: &mut [u8]) -> usize
    requires { 15 ≤ length out.old }
    ensures len { result ≡ 9 }
    ensures bytes { out.new ≡ over (last_line last) out.old }
{
    let start = writer::begin(0);
    let kind = writer::put(&mut *out, start, 6);
    let body = writer::put_two(&mut *out, kind, last);
    writer::end(out, body)
}

// 06, L (2), R (2).
pub fn states_line(l: usize, r: usize, out: &mut [u8]) -> usize
    requires { 15 ≤ length out.old }
    ensures len { result ≡ 13 }
    ensures bytes { out.new ≡ over (states_line l r) out.old }
{
    let start = writer::begin(0);
    let kind = writer::put(&mut *out, start, 6);
    let left = writer::put_two(&mut *out, kind, l);
    let body = writer::put_two(&mut *out, left, r);
    writer::end(out, body)
}

// 08, steps (2), number, place (4).
pub fn walk_refusal(steps: usize, x: Refusal, out: &mut [u8]) -> usize
    requires { 19 ≤ length out.old }
    ensures len { result ≡ 19 }
    ensures bytes { out.new ≡ over (walk_refusal steps (refusal_number x) (refusal_place x)) out.old }
{
    let start = writer::begin(0);
    let kind = writer::put(&mut *out, start, 8);
    let stepped = writer::put_two(&mut *out, kind, steps);
    let number = writer::put(&mut *out, stepped, rules::refusal_number(x));
    let body = writer::put_four(&mut *out, number, rules::refusal_place(x));
    writer::end(out, body)
}

// A line that is no command: 05 with 13, place 0.
pub fn malformed(out: &mut [u8]) -> usize
    requires { 15 ≤ length out.old }
    ensures len { result ≡ 15 }
    ensures bytes { out.new ≡ over malformed_line out.old }
{
    lines::refusal_line(Refusal::BadLine(0), out)
}

// The answer of a call that changes the ruleset.
pub fn reply_line(answer: Result<(), Refusal>, image: &[u8], out: &mut [u8]) -> usize
    requires { (image_size ≤ length image.now) × (15 ≤ length out.old) }
    ensures len { result ≡ length (reply_line (reply_of answer) (last_of image.now)) }
    ensures bytes { out.new ≡ over (reply_line (reply_of answer) (last_of image.now)) out.old }
{
    match answer {
        Ok(()) => last_line(usize::from(image::last_issued(image)), out),
        Err(x) => lines::refusal_line(x, out),
    }
}
