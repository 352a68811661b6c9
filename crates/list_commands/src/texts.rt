// The commands on the read-out bytes.
ghost use Rattle.std.specs.Prelude.{◌≡◌, ◌∷◌, ◌≤◌, length};
ghost use Rattle.rules.specs.Memory.{over};
ghost use Rattle.rules.specs.Refusals.{report_of};
ghost use Rattle.numbers.specs.Numbers.{bytes4};
ghost use Rattle.lines.specs.Printed.{printed};
ghost use Rattle.command_parts.specs.Answers.{Answered, leaving};
ghost use Rattle.list_commands.specs.ListCommands.{longest_answer, read_out_line, read_out_in, read_out_by, shown_text};

use command_parts::{answers, fields, memory};
use frames::writer;
use rules::Refusal;

// 06 and a number of four bytes.
fn count_line(n: usize, out: &mut [u8]) -> usize
    requires { 15 ≤ length out.old }
    ensures len { result ≡ 13 }
    ensures bytes { out.new ≡ over (printed (6 ∷ bytes4 n)) out.old }
{
    let start = writer::begin(0);
    let kind = writer::put(&mut *out, start, 6);
    let body = writer::put_four(&mut *out, kind, n);
    writer::end(out, body)
}

// The answer of a read-out.
fn read_out_line(written: Result<usize, Refusal>, out: &mut [u8]) -> usize
    requires { 15 ≤ length out.old }
    ensures len { result ≡ length (read_out_line (report_of written)) }
    ensures bytes { out.new ≡ over (read_out_line (report_of written)) out.old }
{
    match written {
        Ok(n) => count_line(n, out),
        Err(x) => lines::refusal_line(x, out),
    }
}

// The list into the first so many bytes.
fn read_out_in(list: &[u32], text: &mut [u8], n: usize) -> Result<usize, Refusal>
    requires { n ≤ length text.old }
    ensures { leaving (read_out_line (report_of result)) text.new ≡ read_out_in n list.now text.old }
{
    readout::read_out(list, &mut text[..n])
}

// 22, lent bytes (4): read-out.
pub fn read_out_command(f: &[u8], list: &[u32], text: &mut [u8], out: &mut [u8]) -> usize
    requires { 15 ≤ length out.old }
    ensures { Answered (read_out_by f.now list.now text.old) text.new result out.old out.new }
{
    if f.len() != 5 {
        return answers::malformed(out);
    }
    let n = fields::lent(fields::four_at(f, 1), text.len());
    let written = read_out_in(list, text, n);
    read_out_line(written, out)
}

// 23, index (4), count (1): so many read-out bytes are shown.
pub fn show_command(f: &[u8], text: &[u8], out: &mut [u8]) -> usize
    requires { longest_answer ≤ length out.old }
    ensures len { result ≡ length (shown_text f.now text.now) }
    ensures bytes { out.new ≡ over (shown_text f.now text.now) out.old }
{
    if !memory::is_inside(f, text.len()) {
        return answers::malformed(out);
    }
    let i = fields::four_at(f, 1);
    let end = i + usize::from(f[5]);
    memory::bytes_line(&text[i..end], out)
}
