// Standard input, cut into lines: a line is given as soon as its 0A has arrived, and no more is read before that one is asked for.
ghost use Rattle.std.specs.Prelude.{◌≡◌, ◌≢◌, ℕ, false, ◌<◌, ◌≤◌, length, slice_index, IfSome, MatchOption, EachIndex};
ghost use Rattle.monitor.specs.Lines.{text_of};

use std::io::Read;

// The digits of the longest line, without its 0A.
pub const MAX_LINE: usize = 4096;

const PIECE: usize = 4096;

// The bytes of a line that have arrived. A line that fills the memory is too long: its 0A has no room.
#[derive(Clone, Copy)]
struct Line {
    bytes: [u8; MAX_LINE + 1],
    len: usize,
    ghost room: { len ≤ 4097 },
}

impl Line {
    // A part more.
    fn extend(&mut self, part: &[u8]) {
        if self.bytes.len() - self.len <= part.len() {
            self.len = self.bytes.len();
            return;
        }
        let end = self.len + part.len();
        self.bytes[self.len..end].copy_from_slice(part);
        self.len = end;
    }

    // The line has ended: how many bytes are the text to answer, with its 0A. None for a line that is too long, so that it is as unsound as an
    // empty one.
    fn end(&mut self) -> usize
        ensures text { result ≡ text_of self.old.len }
        ensures begun { self.new.len ≡ 0 }
    {
        let n = self.len;
        self.len = 0;
        if self.bytes.len() <= n {
            return 0;
        }
        self.bytes[n] = b'\n';
        n + 1
    }
}

// The input: the piece that was read last, whose bytes before `end` have arrived, and those before `at` are in lines already; and the line that
// has not ended. Once the input is over, nothing is read any more.
#[derive(Clone, Copy)]
pub struct Input {
    piece: [u8; PIECE],
    at: usize,
    end: usize,
    line: Line,
    over: bool,
    ghost ordered: { at ≤ end },
    ghost arrived: { end ≤ 4096 },
}

// Where the first 0A is. Inlined, the loop counted three numbers at each byte, and the reading of a long line took a third longer.
#[inline(never)]
fn line_end(arrived: &[u8]) -> Option<usize>
    ensures { MatchOption result (EachIndex arrived.now (λ k. slice_index arrived.now k ≢ 10)) (λ n. (n < length arrived.now) × ((slice_index arrived.now n ≡ 10) × ((k : ℕ) → k < n → slice_index arrived.now k ≢ 10))) }
{
    arrived.iter().position(|&x| x == b'\n')
}

// What the input ends in: a line that has not ended, which has no text, or nothing more where no byte of one is held.
fn at_end(held: usize) -> Option<usize>
    ensures { MatchOption result (held ≡ 0) (λ n. (n ≡ 0) × (held ≢ 0)) }
{
    (held != 0).then_some(0)
}

impl Input {
    // The input before anything is read.
    pub fn new() -> Input
        ensures read { (result.at ≡ 0) × ((result.end ≡ 0) × (result.over ≡ false)) }
        ensures held { result.line.len ≡ 0 }
    {
        Input {
            piece: [0; PIECE],
            at: 0,
            end: 0,
            line: Line {
                bytes: [0; MAX_LINE + 1],
                len: 0,
            },
            over: false,
        }
    }

    // The text of the next line; none once the input has ended. A line that the input ends in has as little text as one that is too long.
    pub fn next_line(&mut self, from: &mut impl Read) -> Option<&[u8]> {
        let n = self.read_line(from)?;
        Some(&self.line.bytes[..n])
    }

    // How many bytes of the line's memory are the text. Nothing says that the input ends, and a proved loop has to: it counts its
    // turns, up to a number that no run reaches.
    fn read_line(&mut self, from: &mut impl Read) -> Option<usize>
        ensures { IfSome result (λ n. n ≤ 4097) }
    {
        let Input {
            piece,
            at,
            end,
            line,
            over,
        } = self;
        if *over {
            return None;
        }
        for _ in 0..u64::MAX {
            let arrived = &piece[*at..*end];
            if let Some(n) = line_end(arrived) {
                line.extend(&arrived[..n]);
                *at += n + 1;
                return Some(line.end());
            }
            line.extend(arrived);
            *at = 0;
            *end = from.read(piece).unwrap_or(0);
            if *end == 0 {
                break;
            }
        }
        *over = true;
        at_end(line.len)
    }
}
