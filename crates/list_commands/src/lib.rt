// The monitor's commands on the exceptions list, 20 to 26, one function each (docs/MONITOR.md): a command's bytes without their checksum in, the
// answer's line out.
#![tactic(auto)]

mod changes;
mod texts;
mod units;

ghost use Rattle.std.specs.Prelude.{◌≡◌, true, false, ◌≤◌, length, get_or, eqb};
ghost use Rattle.list_commands.specs.ListCommands.{longest_answer, is_list_command, holding, Replied};

// What a command gives: the length of its answer, and how many units of the list are lent from now on.
#[derive(Clone, Copy)]
pub struct Reply {
    pub len: usize,
    pub lent: usize,
}

// Whether a command is one of these.
pub fn is_list_command(f: &[u8]) -> bool
    ensures { result ≡ is_list_command f.now }
{
    let [kind, ..] = f else {
        return false;
    };
    0x20 <= *kind && *kind <= 0x26
}

// The answer to a command that leaves as many units lent, and its length.
fn answer_kept(f: &[u8], list: &mut [u32], lent: usize, text: &mut [u8], out: &mut [u8]) -> usize
    requires { (is_list_command f.now ≡ true) × ((eqb (get_or f.now 0 0) 37 ≡ false) × ((lent ≤ length list.old) × (longest_answer ≤ length out.old))) }
    ensures { Replied f.now (holding list.old lent text.old) (holding list.new lent text.new) result out.old out.new }
{
    match f[0] {
        0x20 => changes::add_command(f, &mut list[..lent], out),
        0x21 => changes::remove_command(f, &mut list[..lent], out),
        0x22 => texts::read_out_command(f, &list[..lent], text, out),
        0x23 => texts::show_command(f, text, out),
        0x24 => changes::clear_command(f, &mut list[..lent], out),
        _ => units::store_command(f, list, out),
    }
}

// The answer to a command, at the front of `out`, where the first `lent` units of the list are lent.
pub fn answer(f: &[u8], list: &mut [u32], lent: usize, text: &mut [u8], out: &mut [u8]) -> Reply
    requires { (is_list_command f.now ≡ true) × ((lent ≤ length list.old) × (longest_answer ≤ length out.old)) }
    ensures replied { Replied f.now (holding list.old lent text.old) (holding list.new result.lent text.new) result.len out.old out.new }
    ensures within { (result.len ≤ length out.new) × (result.lent ≤ length list.new) }
{
    if f[0] == 0x25 {
        return units::lend_command(f, list.len(), lent, out);
    }
    let len = answer_kept(f, list, lent, text, out);
    Reply { len, lent }
}
