// Whether the phones of every state are packed as they are written: bytes, none after a 0, at most 64. phone_groups reads them.
#![tactic(auto)]

pub mod phone_groups;

ghost use Rattle.std.specs.Prelude.{◌+◌, ◌<◌, ◌≤◌, length};
ghost use Rattle.automaton.specs.Automaton.{rows_of};
ghost use Rattle.minimality.specs.Judging.{Decides};
ghost use Rattle.packing.specs.Packing.{StateAsks};
ghost use Rattle.phone_strings.specs.Packed.{Packed, AllPacked};
ghost use Rattle.phone_strings.specs.Groups.{GroupGood, GroupsGood};

// v may be group k of n.
fn group_good(n: usize, k: usize, v: usize) -> bool
    requires { k < n }
    ensures { Decides (GroupGood n k v) result }
{
    if v % 256 == 0 {
        return false;
    }
    if v < 256 {
        return k + 1 == n;
    }
    if v / 256 % 256 == 0 {
        return false;
    }
    if k == 21 {
        return false;
    }
    if v < 65536 {
        return k + 1 == n;
    }
    true
}

// The n cells from a on are groups of packed phones.
fn groups_good(words: &[u32], a: usize, n: usize) -> bool
    requires { a + n ≤ length words.now }
    ensures { Decides (GroupsGood words.now a n) result }
{
    for (k, &x) in words[a..a + n].iter().enumerate() {
        if !group_good(n, k, states::val(x)) {
            return false;
        }
    }
    true
}

// The phones of state q are packed.
fn row_packed(words: &[u32], n: usize, q: usize) -> bool
    requires { StateAsks words.now n q }
    ensures { Decides (Packed (rows_of words.now) q) result }
{
    let s = phone_groups::cells(words, n, q);
    groups_good(words, s.from, s.to - s.from)
}

// The phones of every state are packed.
pub fn rows_packed(words: &[u32], n: usize) -> bool
    requires { StateAsks words.now n n }
    ensures { Decides (AllPacked (rows_of words.now) n) result }
{
    for q in 0..=n {
        if !row_packed(words, n, q) {
            return false;
        }
    }
    true
}
