// The commands that change the list: each is lent the lent part of it.
ghost use Rattle.std.specs.Prelude.{◌≡◌, true, ◌≤◌, length};
ghost use Rattle.rules.specs.Memory.{over};
ghost use Rattle.rules.specs.Refusals.{reply_of};
ghost use Rattle.command_parts.specs.Answers.{Answered};
ghost use Rattle.change.specs.Change.{Changed};
ghost use Rattle.list_commands.specs.ListCommands.{change_line, add_sized, addition, Adds, Removes, empty_line, emptied_by, Carried};

use command_parts::answers;
use rules::Refusal;

// The answer of a change: 06, names (2), states (2) of the list after it.
fn change_line(answer: Result<(), Refusal>, list: &[u32], out: &mut [u8]) -> usize
    requires { 15 ≤ length out.old }
    ensures len { result ≡ length (change_line (reply_of answer) list.now) }
    ensures bytes { out.new ≡ over (change_line (reply_of answer) list.now) out.old }
{
    match answer {
        Ok(()) => {
            let names = exceptions::name_count(list);
            let states = exceptions::state_count(list);
            answers::states_line(names, states, out)
        },
        Err(x) => lines::refusal_line(x, out),
    }
}

// Whether the bytes of an add are as many as its name length says, or more.
fn add_sized(f: &[u8]) -> bool
    ensures { result ≡ add_sized f.now }
{
    if f.len() < 2 {
        return false;
    }
    2 + usize::from(f[1]) <= f.len()
}

// 20, name length (1), name, phones to the end.
fn add(f: &[u8], list: &mut [u32]) -> Result<(), Refusal>
    requires { add_sized f.now ≡ true }
    ensures { Changed (addition f.now) list.old list.new (reply_of result) }
{
    let end = 2 + usize::from(f[1]);
    change::add_name(list, &f[2..end], &f[end..])
}

// 20: add.
pub fn add_command(f: &[u8], list: &mut [u32], out: &mut [u8]) -> usize
    requires { 15 ≤ length out.old }
    ensures { Carried (Adds f.now list.old) list.new result out.old out.new }
{
    if !add_sized(f) {
        return answers::malformed(out);
    }
    let answer = add(f, &mut *list);
    change_line(answer, list, out)
}

// 21, name: remove.
pub fn remove_command(f: &[u8], list: &mut [u32], out: &mut [u8]) -> usize
    requires { (1 ≤ length f.now) × (15 ≤ length out.old) }
    ensures { Carried (Removes f.now list.old) list.new result out.old out.new }
{
    let answer = change::remove_name(&mut *list, &f[1..]);
    change_line(answer, list, out)
}

// The answer of a call that only accepts or declines: 06.
fn empty_line(answer: Result<(), Refusal>, out: &mut [u8]) -> usize
    requires { 15 ≤ length out.old }
    ensures len { result ≡ length (empty_line (reply_of answer)) }
    ensures bytes { out.new ≡ over (empty_line (reply_of answer)) out.old }
{
    match answer {
        Ok(()) => answers::done_line(out),
        Err(x) => lines::refusal_line(x, out),
    }
}

// 24: the empty list again.
pub fn clear_command(f: &[u8], list: &mut [u32], out: &mut [u8]) -> usize
    requires { 15 ≤ length out.old }
    ensures { Answered (emptied_by f.now list.old) list.new result out.old out.new }
{
    if f.len() != 1 {
        return answers::malformed(out);
    }
    let answer = exceptions::clear(list);
    empty_line(answer, out)
}
