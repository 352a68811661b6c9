// The commands that change the ruleset.
ghost use Rattle.std.specs.Prelude.{◌≡◌, ◌≤◌, length, get_or, drop};
ghost use Rattle.numbers.specs.Numbers.{two};
ghost use Rattle.rules.specs.Refusals.{reply_of};
ghost use Rattle.image.specs.Image.{image_size, outcome};
ghost use Rattle.edits.specs.Ledger.{Edit};
ghost use Rattle.edits.specs.Edits.{edited};
ghost use Rattle.command_parts.specs.Answers.{Answered};
ghost use Rattle.commands.specs.Editing.{added, dropped, moved, class_set};
ghost use Rattle.command_parts.specs.Fields.{AddSized, added_rule};
ghost use Rattle.command_parts.specs.Memory.{renumbered, forced, forced_by, recounted, recounted_by, cleared_by};

use command_parts::{answers, fields};
use rules::Refusal;

// 10, p (2), four lengths, their bytes.
pub fn add(f: &[u8], image: &mut [u8]) -> Result<(), Refusal>
    requires { AddSized f.now }
    ensures { outcome (reply_of result) image.new ≡ edited image.old (Edit.Add (added_rule f.now) (two 1 f.now)) }
{
    let rule = file_format::rule_in(f);
    edits::add_rule(image, rule, fields::two_at(f, 1))
}

// 11, number (2).
pub fn drop(f: &[u8], image: &mut [u8]) -> Result<(), Refusal>
    requires { length f.now ≡ 3 }
    ensures { outcome (reply_of result) image.new ≡ edited image.old (Edit.Drop (two 1 f.now)) }
{
    edits::drop_rule(image, numbers::two_at(f, 1))
}

// 12, number (2), p (2).
pub fn relocate(f: &[u8], image: &mut [u8]) -> Result<(), Refusal>
    requires { length f.now ≡ 5 }
    ensures { outcome (reply_of result) image.new ≡ edited image.old (Edit.Move (two 1 f.now) (two 3 f.now)) }
{
    edits::move_rule(image, numbers::two_at(f, 1), fields::two_at(f, 3))
}

// 28, symbol (1), letters to the end.
pub fn set_class(f: &[u8], image: &mut [u8]) -> Result<(), Refusal>
    requires { 2 ≤ length f.now }
    ensures { outcome (reply_of result) image.new ≡ edited image.old (Edit.SetClass (get_or f.now 1 0) (drop 2 f.now)) }
{
    edits::set_class(image, f[1], &f[2..])
}

// The number in the slot of a place is overwritten; a place above 511 is none.
fn renumber(image: &mut [u8], place: usize, number: u16)
    requires { image_size ≤ length image.old }
    ensures { image.new ≡ renumbered place number image.old }
{
    if place < rules::MAX_RULES {
        image::put_number(image, place, number);
    }
}

// 1E, place (2), number (2), count (2), last (2), with no check.
pub fn force(f: &[u8], image: &mut [u8])
    requires { (length f.now ≡ 9) × (image_size ≤ length image.old) }
    ensures { image.new ≡ forced f.now image.old }
{
    let edits = image::edit_count(image);
    renumber(&mut *image, fields::two_at(f, 1), numbers::two_at(f, 3));
    image::put_head(image, fields::two_at(f, 5), numbers::two_at(f, 7), edits);
}

// 2A, edit count (4), with no check.
pub fn recount(f: &[u8], image: &mut [u8])
    requires { (length f.now ≡ 5) × (image_size ≤ length image.old) }
    ensures { image.new ≡ recounted f.now image.old }
{
    let count = image::rule_count(image);
    let last = image::last_issued(image);
    let edits = fields::four_at(f, 1) as u32;
    image::put_head(image, count, last, edits);
}

// 10: add.
pub fn add_command(f: &[u8], image: &mut [u8], out: &mut [u8]) -> usize
    requires { (image_size ≤ length image.old) × (15 ≤ length out.old) }
    ensures { Answered (added f.now image.old) image.new result out.old out.new }
{
    if !fields::add_sized(f) {
        return answers::malformed(out);
    }
    let answer = add(f, &mut *image);
    answers::reply_line(answer, image, out)
}

// 11: drop.
pub fn drop_command(f: &[u8], image: &mut [u8], out: &mut [u8]) -> usize
    requires { (image_size ≤ length image.old) × (15 ≤ length out.old) }
    ensures { Answered (dropped f.now image.old) image.new result out.old out.new }
{
    if f.len() != 3 {
        return answers::malformed(out);
    }
    let answer = drop(f, &mut *image);
    answers::reply_line(answer, image, out)
}

// 12: move.
pub fn move_command(f: &[u8], image: &mut [u8], out: &mut [u8]) -> usize
    requires { (image_size ≤ length image.old) × (15 ≤ length out.old) }
    ensures { Answered (moved f.now image.old) image.new result out.old out.new }
{
    if f.len() != 5 {
        return answers::malformed(out);
    }
    let answer = relocate(f, &mut *image);
    answers::reply_line(answer, image, out)
}

// 28: set a class.
pub fn class_command(f: &[u8], image: &mut [u8], out: &mut [u8]) -> usize
    requires { (image_size ≤ length image.old) × (15 ≤ length out.old) }
    ensures { Answered (class_set f.now image.old) image.new result out.old out.new }
{
    if f.len() < 2 {
        return answers::malformed(out);
    }
    let answer = set_class(f, &mut *image);
    answers::reply_line(answer, image, out)
}

// 1E: an impossible ruleset.
pub fn force_command(f: &[u8], image: &mut [u8], out: &mut [u8]) -> usize
    requires { (image_size ≤ length image.old) × (15 ≤ length out.old) }
    ensures { Answered (forced_by f.now image.old) image.new result out.old out.new }
{
    if f.len() != 9 {
        return answers::malformed(out);
    }
    force(f, &mut *image);
    answers::done_line(out)
}

// 2A: another edit count.
pub fn recount_command(f: &[u8], image: &mut [u8], out: &mut [u8]) -> usize
    requires { (image_size ≤ length image.old) × (15 ≤ length out.old) }
    ensures { Answered (recounted_by f.now image.old) image.new result out.old out.new }
{
    if f.len() != 5 {
        return answers::malformed(out);
    }
    recount(f, &mut *image);
    answers::done_line(out)
}

// 1F: the empty ruleset again, without classes.
pub fn clear_command(f: &[u8], image: &mut [u8], out: &mut [u8]) -> usize
    requires { (image_size ≤ length image.old) × (15 ≤ length out.old) }
    ensures { Answered (cleared_by f.now image.old) image.new result out.old out.new }
{
    if f.len() != 1 {
        return answers::malformed(out);
    }
    let _ = image::clear(&mut *image); // the lent memory is long enough: it is accepted
    answers::done_line(out)
}
