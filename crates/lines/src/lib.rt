// Lines that are printed for answers: what those of `say` and of the monitor have in common.
#![tactic(auto)]

ghost use Rattle.std.specs.Prelude.{◌≡◌, ◌+◌, ◌*◌, ◌≤◌, length};
ghost use Rattle.rules.specs.Memory.{over};
ghost use Rattle.frames.specs.Output.{output, Sent};
ghost use Rattle.lines.specs.Printed.{twos, refused_body, printed, refusal_line};

use frames::writer;
use frames::writer::Writer;
use rules::Refusal;

// The line of a refusal's number and place, and its length.
pub fn refused_line(number: u8, place: usize, out: &mut [u8]) -> usize
    requires { 15 ≤ length out.old }
    ensures len { result ≡ 15 }
    ensures bytes { out.new ≡ over (printed (refused_body number place)) out.old }
{
    let start = writer::begin(0);
    let kind = writer::put(&mut *out, start, 5);
    let numbered = writer::put(&mut *out, kind, number);
    let body = writer::put_four(&mut *out, numbered, place);
    writer::end(out, body)
}

// The line of a refusal, and its length.
pub fn refusal_line(x: Refusal, out: &mut [u8]) -> usize
    requires { 15 ≤ length out.old }
    ensures len { result ≡ 15 }
    ensures bytes { out.new ≡ over (refusal_line x) out.old }
{
    refused_line(rules::refusal_number(x), rules::refusal_place(x), out)
}

// Rule numbers, two bytes each.
pub fn put_numbers(out: &mut [u8], w: Writer, numbers: &[u16]) -> Writer
    requires { w.at + 4 * length numbers.now ≤ length out.old }
    ensures next { result.at ≡ w.at + 4 * length numbers.now }
    ensures sent { Sent (twos numbers.now) (output w out.old) (output result out.new) }
{
    let mut next = w;
    for &n in numbers {
        next = writer::put_two(&mut *out, next, usize::from(n));
    }
    next
}
