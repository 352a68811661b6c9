// The fields of a command's bytes.
ghost use Rattle.std.specs.Prelude.{◌≡◌, ◌+◌, ◌<◌, ◌≤◌, length};
ghost use Rattle.numbers.specs.Numbers.{two};
ghost use Rattle.command_parts.specs.Fields.{four, eight, add_sized, lent_of};

// Two bytes, as a place or a count.
pub fn two_at(f: &[u8], at: usize) -> usize
    requires { at + 1 < length f.now }
    ensures { (result ≡ two at f.now) × (result < 65536) }
{
    usize::from(numbers::two_at(f, at))
}

// Four bytes.
pub fn four_at(f: &[u8], at: usize) -> usize
    requires { at + 3 < length f.now }
    ensures { (result ≡ four at f.now) × (result < 4294967296) }
{
    65536 * two_at(f, at) + two_at(f, at + 2)
}

// Eight bytes.
pub fn eight_at(f: &[u8], at: usize) -> u64
    requires { at + 7 < length f.now }
    ensures { result ≡ eight at f.now }
{
    (4294967296 * four_at(f, at) + four_at(f, at + 4)) as u64
}

// Whether the bytes of an add are as many as its lengths say.
pub fn add_sized(f: &[u8]) -> bool
    ensures { result ≡ add_sized f.now }
{
    if f.len() < file_format::FRONT {
        return false;
    }
    f.len() == file_format::body_size(f)
}

// So many as are asked for; more than there are counts as all.
pub fn lent(asked: usize, there: usize) -> usize
    ensures { (result ≡ lent_of asked there) × ((result ≤ asked) × (result ≤ there)) }
{
    asked.min(there)
}
