// The words of a name (document 02, request 3): where each ends, all of them in one frame, and what the exceptions list says of each.
ghost use Rattle.std.specs.Prelude.{◌≡◌, ◌+◌, ◌≤◌, length};
ghost use Rattle.rules.specs.Memory.{over};
ghost use Rattle.speech.specs.Words.{boundary_or, frame_of, word_at, end_at};
ghost use Rattle.speech.specs.Places.{Unsaid, FoundFor, EndsBy, ended_in};

use speech::Unread;

// # in place of a separator.
fn boundary_or(c: u8) -> u8
    ensures { result ≡ boundary_or c }
{
    if c == rules::SEPARATOR { 0 } else { c }
}

// The words of a name are laid at the start of `f`, with # before the first, after the last, and between two.
pub fn lay_frame(name: &[u8], f: &mut [u8])
    requires { length name.now + 2 ≤ length f.old }
    ensures { f.new ≡ over (frame_of name.now) f.old }
{
    f[0] = 0;
    for (i, &c) in name.iter().enumerate() {
        f[i + 1] = boundary_or(c);
    }
    f[name.len() + 1] = 0;
}

// The position of the # after the word that follows the first `from` bytes.
pub fn word_end(name: &[u8], from: usize) -> usize
    requires { from ≤ length name.now }
    ensures { result ≡ end_at name.now from }
{
    for i in from..name.len() {
        if name[i] == rules::SEPARATOR {
            return i + 1;
        }
    }
    name.len() + 1
}

// The part that the list gives for a word of a name that is not on it, 0 where it gives none. The only word of a name is the name.
pub fn find_word(list: &[u32], name: &[u8], from: usize, end: usize) -> u16
    requires { Unsaid list.now name.now × (from ≤ length name.now) × (end ≡ end_at name.now from) }
    ensures { FoundFor list.now (word_at name.now from) result }
{
    let to = end - 1;
    if to - from == name.len() {
        return 0;
    }
    let found = exceptions::end_state(list, &name[from..to]);
    let Some(q) = found else {
        return 0;
    };
    (rules::MAX_RULES + q) as u16
}

// How reading ended in a word that follows the first `from` bytes, as it ended in the name, of which `count` parts were known before.
pub fn in_name(reached: Result<usize, Unread>, count: usize, from: usize) -> Result<usize, Unread>
    requires { (count ≤ 1000) × (from ≤ 1000) × EndsBy 1000 reached }
    ensures { result ≡ ended_in count from reached }
{
    match reached {
        Ok(k) => Ok(count + k),
        Err(Unread::Uncovered(i)) => Err(Unread::Uncovered(from + i)),
        Err(Unread::BadTables) => Err(Unread::BadTables),
    }
}
