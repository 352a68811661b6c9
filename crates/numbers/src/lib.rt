// Numbers of more than one byte, high byte first (document 01: "Two-byte fields are high byte first").
#![tactic(auto)]

ghost use Rattle.std.specs.Prelude.{◌≡◌, ◌+◌, ◌^◌, ◌<◌, ◌≤◌, length};
ghost use Rattle.std.specs.Int.Bits.{bit_or};
ghost use Rattle.numbers.specs.Bits.{bit};
ghost use Rattle.numbers.specs.Numbers.{two, four, eight};

// Two bytes.
pub fn two_at(s: &[u8], at: usize) -> u16
    requires { at + 1 < length s.now }
    ensures { result ≡ two at s.now }
{
    u16::from_be_bytes([s[at], s[at + 1]])
}

// Four bytes.
pub fn four_at(s: &[u8], at: usize) -> u64
    requires { at + 4 ≤ length s.now }
    ensures { (result ≡ four at s.now) × (result < 4294967296) }
{
    u32::from_be_bytes([s[at], s[at + 1], s[at + 2], s[at + 3]]) as u64
}

// Eight bytes.
pub fn eight_at(s: &[u8], at: usize) -> u64
    requires { at + 8 ≤ length s.now }
    ensures { result ≡ eight at s.now }
{
    4294967296 * four_at(s, at) + four_at(s, at + 4)
}

// ---- sets of numbers below 64, a bit for each

pub fn has_bit(word: u64, k: u64) -> bool
    requires { k < 64 }
    ensures { result ≡ bit word k }
{
    (word >> k) % 2 == 1
}

pub fn with_bit(word: u64, k: u64) -> u64
    requires { k < 64 }
    ensures { result ≡ bit_or word (2 ^ k) }
{
    word | (1u64 << k)
}
