// The three frames of the rule file: where their parts lie, and the rule that a frame holds. Its bytes may also be those of another frame
// that has four lengths and four fields at the same places.
#![tactic(auto)]

ghost use Rattle.std.specs.Prelude.{◌≡◌, ◌≤◌, length};
ghost use Rattle.rule_bytes.specs.RuleBytes.{rule_struct};
ghost use Rattle.file_format.specs.Layout.{front_size, body_size, rule_in};

use rules::Rule;

pub const TYPE: usize = 0;

// A head: type, edition, rule count (2), last (2), checksum.
pub const HEAD_TYPE: u8 = 1;

pub const FIRST_EDITION: u8 = 1;

pub const EDITION: usize = 1;

pub const COUNT: usize = 2;

pub const LAST: usize = 4;

pub const HEAD: usize = 7;

// A class: type, symbol, letter count, letters, checksum.
pub const CLASS_TYPE: u8 = 7;

pub const SYMBOL: usize = 1;

pub const LETTER_COUNT: usize = 2;

pub const LETTERS: usize = 3;

pub const LONGEST_CLASS: usize = LETTERS + rules::MAX_CLASS + 1;

// A rule: type, number (2), four lengths (1 each: left, target, right, phones), their bytes, checksum.
pub const RULE_TYPE: u8 = 2;

pub const NUMBER: usize = 1;

pub const LEFT_LEN: usize = 3;

pub const TARGET_LEN: usize = 4;

pub const RIGHT_LEN: usize = 5;

pub const PHONES_LEN: usize = 6;

pub const FRONT: usize = 7;

pub const LONGEST: usize = FRONT + rules::FIELDS + 1;

// The longest file: a head, all classes and 512 rules, each line as long as it can be.
pub const LONGEST_FILE: usize = 2 * HEAD
    + 1
    + (2 * LONGEST_CLASS + 1) * rules::CLASSES
    + (2 * LONGEST + 1) * rules::MAX_RULES;

// The programs read no more bytes of a file, or of their input.
pub const MAX_INPUT: usize = 32768;

// The bytes of a rule's frame without its checksum, by its lengths.
pub fn body_size(f: &[u8]) -> usize
    requires { front_size ≤ length f.now }
    ensures { result ≡ body_size f.now }
{
    let l = usize::from(f[LEFT_LEN]);
    let t = usize::from(f[TARGET_LEN]);
    let r = usize::from(f[RIGHT_LEN]);
    let p = usize::from(f[PHONES_LEN]);
    FRONT + (l + (t + (r + p)))
}

// The rule of a frame. A length above what a field can hold is kept as the length; the bytes that have no room are skipped.
pub fn rule_in(f: &[u8]) -> Rule
    requires { body_size f.now ≤ length f.now }
    ensures { result ≡ rule_struct (rule_in f.now) }
{
    let target_at = FRONT + usize::from(f[LEFT_LEN]);
    let right_at = target_at + usize::from(f[TARGET_LEN]);
    let phones_at = right_at + usize::from(f[RIGHT_LEN]);
    let end = phones_at + usize::from(f[PHONES_LEN]);
    rule_bytes::rule_from(f, LEFT_LEN, FRONT, target_at, right_at, phones_at, end)
}
