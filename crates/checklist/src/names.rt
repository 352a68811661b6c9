// Names made of the rules' own letters.
ghost use Rattle.std.specs.Prelude.{◌≤◌, length};

use rules::{MAX_NAME, Rule};
use std::fmt;

// The longest name between two boundaries.
pub const MAX_FRAME: usize = MAX_NAME + 2;

// A name: the first `len` of its letters.
#[derive(Clone, Copy)]
pub struct Name {
    len: usize,
    letters: [u8; MAX_NAME],
    ghost room: { len ≤ 64 },
}

impl Name {
    pub fn new() -> Name {
        Name {
            len: 0,
            letters: [0; MAX_NAME],
        }
    }

    pub fn as_slice(&self) -> &[u8]
        ensures { length result.now ≤ 64 }
    {
        &self.letters[..self.len]
    }

    // A symbol more, where it is a letter and has room.
    pub fn push(&mut self, x: u8) {
        if x != 0 && self.len < MAX_NAME {
            self.letters[self.len] = x;
            self.len += 1;
        }
    }

    // The first `n` of the symbols more.
    fn with(mut self, symbols: &[u8], n: u8) -> Name {
        for &x in symbols.iter().take(usize::from(n)) {
            self.push(x);
        }
        self
    }

    pub fn with_left(self, rule: &Rule) -> Name {
        self.with(&rule.left, rule.left_len)
    }

    pub fn with_target(self, rule: &Rule) -> Name {
        self.with(&rule.target, rule.target_len)
    }

    pub fn with_right(self, rule: &Rule) -> Name {
        self.with(&rule.right, rule.right_len)
    }

    // The name between two boundaries, in lent memory.
    pub fn framed<'m>(&self, memory: &'m mut [u8; MAX_FRAME]) -> &'m [u8] {
        let name = self.as_slice();
        reading::words::lay_frame(name, memory);
        &memory[..name.len() + 2]
    }
}

// A letter from a to z as such, any other as two hexadecimal digits.
impl fmt::Display for Name {
    fn fmt<W: fmt::Write>(&self, f: &mut fmt::Formatter<W>) -> fmt::Result {
        for &x in self.as_slice() {
            if 26 < x {
                write!(f, "{x:02X}")?;
            } else {
                let letter = char::from(96 + x);
                write!(f, "{letter}")?;
            }
        }
        Ok(())
    }
}

// Whether a name can end with a rule's target: nothing but the name's end stands in its right context.
pub fn can_end(rule: &Rule) -> bool {
    rule.right_len == 0 || rule.right_len == 1 && rule.right[0] == 0
}

// How many symbols a target and its right context have.
fn width(rule: &Rule) -> u16
    ensures { result ≤ 510 }
{
    u16::from(rule.target_len) + u16::from(rule.right_len)
}

// How many symbols a rule has.
fn size(rule: &Rule) -> u16 {
    u16::from(rule.left_len) + width(rule)
}

// Whether a rule has more symbols than another.
pub fn is_longer(rule: &Rule, other: &Rule) -> bool {
    size(other) < size(rule)
}

// A name, and a position in it: the one after its first `before` letters.
#[derive(Clone, Copy)]
pub struct Overlaid {
    pub name: Name,
    pub before: usize,
}

// The shortest name in which two rules could both fit at one position: their contexts and targets, laid over each other.
pub fn overlay(p: &Rule, q: &Rule) -> Overlaid
    ensures { result.before ≤ 64 }
{
    let further = if p.left_len < q.left_len { q } else { p };
    let left = Name::new().with_left(further);
    let wider = if width(p) < width(q) { q } else { p };
    Overlaid {
        name: left.with_target(wider).with_right(wider),
        before: left.as_slice().len(),
    }
}
