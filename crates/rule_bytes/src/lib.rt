// A rule as bytes, four lengths and then its fields with all their places, and as a struct: the one made of the other. No other crate below the
// programs makes the arrays of a rule.
#![tactic(auto)]

ghost use Rattle.std.specs.Prelude.{◌≡◌, ◌++◌, ◌+◌, ◌≤◌, length, take};
ghost use Rattle.std.proofs.Math.Seq.{paste};
ghost use Rattle.rules.specs.Memory.{over, over_at};
ghost use Rattle.rules.specs.Shape.{view, shape};
ghost use Rattle.rule_bytes.specs.RuleBytes.{left_start, rule_size, rule_of, ruleBytes, rule_with, rule_from, blank_rule};

use rules::Rule;

// The layout of specs/RuleBytes.antt in numbers.
pub const LEFT_LEN: usize = 0;

pub const TARGET_LEN: usize = 1;

pub const RIGHT_LEN: usize = 2;

pub const PHONES_LEN: usize = 3;

pub const LEFT: usize = 4;

pub const TARGET: usize = LEFT + rules::MAX_CONTEXT;

pub const RIGHT: usize = TARGET + rules::MAX_TARGET;

pub const PHONES: usize = RIGHT + rules::MAX_CONTEXT;

pub const SIZE: usize = LEFT + rules::FIELDS;

// The bytes of `b` are stored from `at` on.
pub fn put(s: &mut [u8], at: usize, b: &[u8])
    requires { at + length b.now ≤ length s.old }
    ensures { s.new ≡ paste s.old at b.now (length b.now) }
{
    s[at..at + b.len()].copy_from_slice(b);
}

// As many bytes of `s` as `room` has places, at its front.
fn fill(room: &mut [u8], s: &[u8])
    ensures { room.new ≡ over (take (length room.old) s.now) room.old }
{
    let n = room.len().min(s.len());
    put(room, 0, &s[..n]);
}

// The rule with these lengths and fields: of a field as many bytes as its array has places, 0 past them.
fn rule_with(
    left_len: u8,
    target_len: u8,
    right_len: u8,
    phone_len: u8,
    left: &[u8],
    target: &[u8],
    right: &[u8],
    phones: &[u8],
) -> Rule
    ensures { result ≡ rule_with left_len target_len right_len phone_len left.now target.now right.now phones.now }
{
    let mut a = [0u8; rules::MAX_CONTEXT];
    let mut b = [0u8; rules::MAX_TARGET];
    let mut c = [0u8; rules::MAX_CONTEXT];
    let mut d = [0u8; rules::MAX_PHONES];
    fill(&mut a, left);
    fill(&mut b, target);
    fill(&mut c, right);
    fill(&mut d, phones);
    Rule {
        left_len,
        target_len,
        right_len,
        phone_len,
        left: a,
        target: b,
        right: c,
        phones: d,
    }
}

// A rule with no target, which breaks the shape.
pub fn blank() -> Rule
    ensures { result ≡ blank_rule }
{
    Rule {
        left_len: 0,
        target_len: 0,
        right_len: 0,
        phone_len: 0,
        left: [0; rules::MAX_CONTEXT],
        target: [0; rules::MAX_TARGET],
        right: [0; rules::MAX_CONTEXT],
        phones: [0; rules::MAX_PHONES],
    }
}

// The rule whose lengths stand from `lens` on, and whose fields lie one after the other from `left` on, each up to the next.
pub fn rule_from(
    s: &[u8],
    lens: usize,
    left: usize,
    target: usize,
    right: usize,
    phones: usize,
    end: usize,
) -> Rule
    requires { (lens + left_start ≤ length s.now) × ((left ≤ target) × ((target ≤ right) × ((right ≤ phones) × ((phones ≤ end) × (end ≤ length s.now))))) }
    ensures { result ≡ rule_from s.now lens left target right phones end }
{
    rule_with(
        s[lens],
        s[lens + 1],
        s[lens + 2],
        s[lens + 3],
        &s[left..target],
        &s[target..right],
        &s[right..phones],
        &s[phones..end],
    )
}

// The rule that `s` starts with.
pub fn rule_of(s: &[u8]) -> Rule
    requires { rule_size ≤ length s.now }
    ensures { result ≡ rule_of s.now }
{
    rule_from(s, LEFT_LEN, LEFT, TARGET, RIGHT, PHONES, SIZE)
}

// Four runs of bytes are stored from `at` on, one after the other.
fn put_four(s: &mut [u8], at: usize, a: &[u8], b: &[u8], c: &[u8], d: &[u8])
    requires { at + (length a.now + (length b.now + (length c.now + length d.now))) ≤ length s.old }
    ensures { s.new ≡ over_at at (a.now ++ (b.now ++ (c.now ++ d.now))) s.old }
{
    put(s, at, a);
    let after_a = at + a.len();
    put(s, after_a, b);
    let after_b = after_a + b.len();
    put(s, after_b, c);
    put(s, after_b + c.len(), d);
}

// The bytes of a rule are stored from `at` on.
pub fn put_rule(s: &mut [u8], at: usize, rule: Rule)
    requires { at + rule_size ≤ length s.old }
    ensures { s.new ≡ over_at at (ruleBytes rule) s.old }
{
    let lengths = [
        rule.left_len,
        rule.target_len,
        rule.right_len,
        rule.phone_len,
    ];
    let left = rule.left;
    let target = rule.target;
    let right = rule.right;
    let phones = rule.phones;
    put(s, at, &lengths);
    put_four(s, at + LEFT, &left, &target, &right, &phones);
}

// Whether the rule that `s` starts with has the shape, told by its bytes where they lie.
pub fn well_shaped(s: &[u8]) -> bool
    requires { rule_size ≤ length s.now }
    ensures { result ≡ shape (view (rule_of s.now)) }
{
    if !rules::left_shaped(&s[LEFT..TARGET], s[LEFT_LEN]) {
        return false;
    }
    if !rules::length_shaped(
        &s[TARGET..RIGHT],
        s[TARGET_LEN],
        1,
        rules::MAX_TARGET,
        rules::MAX_LETTER,
    ) {
        return false;
    }
    if !rules::right_shaped(&s[RIGHT..PHONES], s[RIGHT_LEN]) {
        return false;
    }
    rules::length_shaped(
        &s[PHONES..SIZE],
        s[PHONES_LEN],
        0,
        rules::MAX_PHONES,
        rules::MAX_PHONE,
    )
}
