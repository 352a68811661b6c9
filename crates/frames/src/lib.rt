// A frame as a line: upper-case hexadecimal with a checksum, ended by 0A (document 01, "The rule file").
#![tactic(auto)]

pub mod writer;

ghost use Rattle.std.specs.Prelude.{◌≡◌, ◌+◌, ◌-◌, ◌*◌, ◌/◌, ◌%◌, ◌<◌, ◌≤◌, Some, None, eqb, leb, length, take, drop, if◌then◌else◌, nat_lt, slice_index, slice_set};
ghost use Rattle.rules.specs.Memory.{over};
ghost use Rattle.frames.specs.Lines.{digit, value, complement, sound_line, pair_of, decoded, report, line_after};

// A sound line that was read: where the next one starts and how many bytes its frame has, the checksum among them.
#[derive(Clone, Copy)]
pub struct Line {
    pub next: usize,
    pub len: usize,
}

// What the digit of a number has above it: one of two constants, so that no test is mispredicted.
fn digit_base(d: u8) -> u8
    ensures { result ≡ (if nat_lt d 10 then 48 else 55) }
{
    if d < 10 { 48 } else { 55 }
}

// The digit of a number below 16.
fn hex_digit(d: u8) -> u8
    requires { d < 16 }
    ensures { result ≡ digit d }
{
    digit_base(d) + d
}

// The number of a letter from A to F, 16 for what is none.
fn letter_value(a: u8) -> u8
    ensures { result ≡ (if leb 65 a then (if leb a 70 then a - 55 else 16) else 16) }
{
    let e = std::num::wrapping_sub_u8(a, 65);
    if e < 6 { 10 + e } else { 16 }
}

// The number of a digit, 16 for what is none. Both tests choose between two numbers, so that none is mispredicted.
fn hex_value(a: u8) -> u8
    ensures { result ≡ value a }
{
    let d = std::num::wrapping_sub_u8(a, 48);
    let e = letter_value(a);
    if d < 10 { d } else { e }
}

// ---- reading

// The byte of two digits at a place of a slice.
fn pair_at(s: &[u8], i: usize) -> Option<u8>
    ensures { result ≡ pair_of (drop i s.now) }
{
    if s.len() <= i {
        return None;
    }
    if s.len() - i < 2 {
        return None;
    }
    let h = hex_value(s[i]);
    if 16 <= h {
        return None;
    }
    let l = hex_value(s[i + 1]);
    if 16 <= l {
        return None;
    }
    Some(16 * h + l)
}

// A byte is stored where there is room for it.
fn store(out: &mut [u8], at: usize, x: u8)
    ensures { out.new ≡ slice_set out.old at x }
{
    if at < out.len() {
        out[at] = x;
    }
}

// A line that ended: a frame of 2 bytes or more, the last of which is the checksum that the sum of those before it asks for.
fn ended(sum: u8, last: u8, len: usize, next: usize) -> Option<Line>
    ensures { result ≡ (if leb 2 len then (if eqb last (complement sum) then Some (record { next = next; len = len }) else None) else None) }
{
    if len < 2 {
        return None;
    }
    if last == std::num::wrapping_sub_u8(0, sum) {
        return Some(Line { next, len });
    }
    None
}

// The line that starts at a place. Of its bytes, or of those before the first fault, `frame` gets as many as it holds; what lies past them
// keeps its contents.
pub fn read_line(text: &[u8], at: usize, frame: &mut [u8]) -> Option<Line>
    ensures line { result ≡ report (length text.now) (sound_line (drop at text.now)) }
    ensures bytes { frame.new ≡ over (take (length frame.old) (decoded (drop at text.now))) frame.old }
{
    let mut sum: u8 = 0; // of the bytes before the last
    let mut last: u8 = 0;
    let mut len: usize = 0;
    let mut i = at;
    while i < text.len() {
        if text[i] == 10 {
            return ended(sum, last, len, i + 1);
        }
        let byte = pair_at(text, i)?;
        sum = std::num::wrapping_add_u8(sum, last);
        last = byte;
        store(&mut *frame, len, byte);
        len += 1;
        i += 2;
    }
    None
}

// ---- a line whose digits were tested before

// The number of a digit.
fn digit_value(a: u8) -> u8
    requires { value a < 16 }
    ensures { result ≡ value a }
{
    a % 16 + 9 * (a / 64)
}

// Byte `k` of the line that starts at a place and has more.
pub fn byte_at(text: &[u8], at: usize, k: usize) -> u8
    requires { k < length (decoded (drop at text.now)) }
    ensures { result ≡ slice_index (decoded (drop at text.now)) k }
{
    let i = at + 2 * k;
    16 * digit_value(text[i]) + digit_value(text[i + 1])
}

// The first `n` bytes of the line that starts at a place and has as many, at the front of `frame`.
pub fn decode(text: &[u8], at: usize, n: usize, frame: &mut [u8])
    requires { (n ≤ length (decoded (drop at text.now))) × (n ≤ length frame.old) }
    ensures { frame.new ≡ over (take n (decoded (drop at text.now))) frame.old }
{
    for i in 0..n {
        frame[i] = byte_at(text, at, i);
    }
}

// ---- the next line

// Where the next line starts: after the first 0A from `at` on, or at the end.
pub fn next_line(text: &[u8], at: usize) -> usize
    ensures { result ≡ line_after text.now at }
{
    for i in at..text.len() {
        if text[i] == 10 {
            return i + 1;
        }
    }
    text.len()
}
