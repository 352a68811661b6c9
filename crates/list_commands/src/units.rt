// The commands on the list's memory: how many of its units are lent, and one unit stored.
ghost use Rattle.std.specs.Prelude.{◌≡◌, ◌≤◌, length};
ghost use Rattle.rules.specs.Memory.{over};
ghost use Rattle.command_parts.specs.Answers.{Answered};
ghost use Rattle.list_commands.specs.ListCommands.{lent_line, lent_after, stored_unit};

use crate::Reply;
use command_parts::{answers, fields};

// 25, units (4): so many of those that are there are lent from now on.
pub fn lend_command(f: &[u8], there: usize, lent: usize, out: &mut [u8]) -> Reply
    requires { (lent ≤ there) × (15 ≤ length out.old) }
    ensures lent { result.lent ≡ lent_after f.now there lent }
    ensures within { result.lent ≤ there }
    ensures len { result.len ≡ length (lent_line f.now) }
    ensures bytes { out.new ≡ over (lent_line f.now) out.old }
{
    if f.len() != 5 {
        let len = answers::malformed(out);
        return Reply { len, lent };
    }
    let asked = fields::lent(fields::four_at(f, 1), there);
    let len = answers::done_line(out);
    Reply { len, lent: asked }
}

// 26, index (4), value (4): one unit is stored.
pub fn store_command(f: &[u8], list: &mut [u32], out: &mut [u8]) -> usize
    requires { 15 ≤ length out.old }
    ensures { Answered (stored_unit f.now list.old) list.new result out.old out.new }
{
    if f.len() != 9 {
        return answers::malformed(out);
    }
    let i = fields::four_at(f, 1);
    if list.len() <= i {
        return answers::malformed(out);
    }
    list[i] = fields::four_at(f, 5) as u32;
    answers::done_line(out)
}
