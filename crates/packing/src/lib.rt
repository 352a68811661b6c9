// Phones are packed, three to a cell.
#![tactic(auto)]

ghost use Rattle.std.specs.Prelude.{◌≡◌, ◌<◌, ◌≤◌, length, get_or};
ghost use Rattle.states.specs.States.{Written};
ghost use Rattle.packing.specs.Packing.{group_at, count};

// Phone k, and 0 past the last.
fn phone_at(phones: &[u8], k: usize) -> usize
    ensures { (result ≡ get_or phones.now k 0) × (result < 256) }
{
    phones.get(k).map_or(0, |&x| usize::from(x))
}

// Three phones from 3 k on.
fn group(phones: &[u8], k: usize) -> u32
    requires { k < 22 }
    ensures { result ≡ group_at phones.now k }
{
    let a = phone_at(phones, 3 * k);
    let b = phone_at(phones, 3 * k + 1);
    let c = phone_at(phones, 3 * k + 2);
    (a + 256 * b + 65536 * c) as u32
}

// The groups of the phones. Gives how many.
pub fn pack(phones: &[u8], groups: &mut [u32]) -> usize
    requires { (length phones.now ≤ 64) × (22 ≤ length groups.old) }
    ensures { (result ≡ count phones.now) × Written (group_at phones.now) 0 result groups.old groups.new }
{
    let n = (phones.len() + 2) / 3;
    for (k, g) in groups[..n].iter_mut().enumerate() {
        *g = group(phones, k);
    }
    n
}
