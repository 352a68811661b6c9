// The lines that answer a walk sheet, from the replies to its names (docs/MONITOR.md, 2B).
#![tactic(auto)]

ghost use Rattle.std.specs.Prelude.{◌≡◌, ◌+◌, ◌*◌, ◌≤◌, length};
ghost use Rattle.rules.specs.Memory.{over};
ghost use Rattle.answer_lines.specs.Answers.{longest_line};
ghost use Rattle.many_names.specs.Many.{reply_size};
ghost use Rattle.sheet_lines.specs.SheetLines.{sheet_line, Printable, AllPrintable, longest_lines, PutName, PutNames};

use frames::writer;

// 06, steps (4), names (2).
pub fn sheet_line(steps: usize, names: usize, out: &mut [u8]) -> usize
    requires { 17 ≤ length out.old }
    ensures len { result ≡ 17 }
    ensures bytes { out.new ≡ over (sheet_line steps names) out.old }
{
    let start = writer::begin(0);
    let kind = writer::put(&mut *out, start, 6);
    let stepped = writer::put_four(&mut *out, kind, steps);
    let body = writer::put_two(&mut *out, stepped, names);
    writer::end(out, body)
}

// A name's line: its length, the phones and numbers in it, and the contested letters of the last name spoken, after it.
#[derive(Clone, Copy)]
pub struct NamePrinted {
    pub len: usize,
    pub phones: usize,
    pub numbers: usize,
    pub contested: u8,
}

// The line of the name whose reply is at the front.
fn name_line(
    replies: &[usize],
    phones: &[u8],
    numbers: &[u16],
    contested: u8,
    out: &mut [u8],
) -> NamePrinted
    requires { (reply_size ≤ length replies.now) × (length phones.now ≤ 256) × (length numbers.now ≤ 64) × (longest_line ≤ length out.old) × Printable replies.now (length phones.now) (length numbers.now) }
    ensures { PutName replies.now phones.now numbers.now contested result out.old out.new }
{
    let code = replies[0];
    if code == usize::from(rules::ACCEPTED) {
        let p = replies[1];
        let n = replies[2];
        let c = replies[4];
        let len = answer_lines::spoken_line(0, &phones[..p], &numbers[..n], out);
        return NamePrinted {
            len,
            phones: p,
            numbers: n,
            contested: (c % 256) as u8,
        };
    }
    let len = lines::refused_line((code % 256) as u8, replies[1], out);
    NamePrinted {
        len,
        phones: 0,
        numbers: 0,
        contested,
    }
}

// The lines of names: their length, and the contested letters of the last name spoken, after them.
#[derive(Clone, Copy)]
pub struct NamesPrinted {
    pub len: usize,
    pub contested: u8,
}

// The lines of the names whose replies are at the front; the phones and numbers of each name begin after those of the names before it.
pub fn name_lines(
    replies: &[usize],
    names: usize,
    phones: &[u8],
    numbers: &[u16],
    contested: u8,
    out: &mut [u8],
) -> NamesPrinted
    requires { (reply_size * names ≤ length replies.now) × (length phones.now ≤ 256) × (length numbers.now ≤ 64) × (longest_lines names (length phones.now) (length numbers.now) + longest_line ≤ length out.old) × AllPrintable names replies.now (length phones.now) (length numbers.now) }
    ensures { PutNames names replies.now phones.now numbers.now contested result out.old out.new }
{
    let mut said: usize = 0;
    let mut numbered: usize = 0;
    let mut last = contested;
    let mut at: usize = 0;
    for k in 0..names {
        let line = name_line(
            &replies[many_names::REPLY * k..],
            &phones[said..],
            &numbers[numbered..],
            last,
            &mut out[at..],
        );
        at += line.len;
        said += line.phones;
        numbered += line.numbers;
        last = line.contested;
    }
    NamesPrinted {
        len: at,
        contested: last,
    }
}
