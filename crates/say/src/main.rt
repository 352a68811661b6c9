// The program `say`: the names on standard input, spoken by the rules of rules.hex (document 01, "The six rules"). All that it prints is
// made by `transcript`; here bytes are read and written.
#![tactic(auto)]

ghost use Rattle.std.specs.Prelude.{◌≡◌, true, ◌<◌, ◌≤◌, length, IfOk};
ghost use Rattle.image.specs.Image.{valid};

use file_format::MAX_INPUT;
use image::ruleset::Ruleset;
use rules::Refusal;
use std::io;
use std::rt::Files;

// A refusal's line. One that cannot be written is lost: there is nowhere else to say so.
fn print_refusal(rt: &impl Print, x: Refusal) {
    let mut out = [0u8; 15];
    lines::refusal_line(x, &mut out);
    let _ = rt.write_all(&out);
}

// The answer to the line at a place is printed. Where the next line starts.
fn say_line<'a>(
    rt: &impl Print,
    rules: Ruleset<'_>,
    words: &'a [u16],
    sets: &'a [u64],
    text: &[u8],
    at: usize,
) -> io::Result<usize>
    requires { at < length text.now }
    ensures { IfOk result (λ next. at < next) }
{
    let mut out = [0u8; answer_lines::LONGEST_LINE];
    let answered = transcript::answer_name(rules.bytes, words, sets, text, at, &mut out);
    rt.write_all(&out[..answered.len])?;
    Ok(answered.next)
}

// Each line in turn, until no more can be printed.
fn say_lines<'a>(
    rt: &impl Print,
    rules: Ruleset<'_>,
    words: &'a [u16],
    sets: &'a [u64],
    text: &[u8],
) -> io::Result<()> {
    let mut at = 0;
    while at < text.len() {
        at = say_line(rt, rules, words, sets, text, at)?;
    }
    Ok(())
}

// The bytes of one of the two inputs, of which so many were read.
fn whole(buf: &[u8], n: usize) -> Result<&[u8], Refusal>
    requires { n ≤ length buf.now }
{
    if MAX_INPUT < n {
        return Err(Refusal::BadLine(MAX_INPUT));
    }
    Ok(&buf[..n])
}

// The rule file is read, then its tables are built.
fn load(
    rt: &impl Files,
    buf: &mut [u8],
    image: &mut [u8],
    words: &mut [u16],
    sets: &mut [u64],
) -> Result<(), Refusal>
    ensures { IfOk result (λ _. valid image.new ≡ true) }
{
    let n = rules_hex::read(rt, &mut *buf);
    file::read_file(whole(buf, n)?, &mut *image)?;
    build::build(image, words, sets)
}

// The names on standard input.
fn say_all<'a>(
    rt: &(impl Input + Print),
    buf: &mut [u8],
    rules: Ruleset<'_>,
    words: &'a [u16],
    sets: &'a [u64],
) -> Result<(), Refusal> {
    let n = rules_hex::read_full(&mut rt.reader(), &mut *buf);
    // What cannot be printed is lost.
    let _ = say_lines(rt, rules, words, sets, whole(buf, n)?);
    Ok(())
}

// Both inputs go through one buffer, of a byte more than either may have.
fn run<'a>(
    rt: &(impl Files + Input + Print),
    buf: &mut [u8],
    image: &mut [u8],
    words: &'a mut [u16],
    sets: &'a mut [u64],
) -> Result<(), Refusal> {
    load(rt, &mut *buf, &mut *image, &mut *words, &mut *sets)?;
    say_all(rt, buf, Ruleset { bytes: image }, words, sets)
}

fn main(rt: HostRuntime) {
    let mut buf = [0u8; MAX_INPUT + 1];
    let mut image = [0u8; image::SIZE];
    let mut words = [0u16; 32768];
    let mut sets = [0u64; 4096];
    if let Err(x) = run(&rt, &mut buf, &mut image, &mut words, &mut sets) {
        print_refusal(&rt, x);
    }
}
