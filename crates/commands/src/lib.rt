// The commands of the monitor, one function each: a command's bytes without their checksum in, the answer's lines out.
#![tactic(auto)]

mod editing;
mod filing;
pub mod speaking;

ghost use Rattle.std.specs.Prelude.{◌≡◌, ◌≤◌, length, take};
ghost use Rattle.rules.specs.Memory.{over};
ghost use Rattle.frames.specs.Lines.{sound_line, decoded};
ghost use Rattle.command_parts.specs.Memory.{Held};
ghost use Rattle.commands.specs.Monitor.{command_in, reads_file, holding, answer_to, Replied};

use command_parts::{answers, memory};

// The bytes of the longest rule file: a head line, 32 lines of classes with 32 letters, and 512 rule lines with each field full. No answer has
// more.
pub const LONGEST_FILE: usize = file_format::LONGEST_FILE;

// The bytes of a line without their checksum, at the front of `frame`: how many there are, 0 for a line that is unsound or whose bytes have no
// room. 2,048 bytes have room for each line of at most 4,096 digits.
pub fn command_in(text: &[u8], frame: &mut [u8]) -> usize
    ensures command { take result frame.new ≡ command_in (length frame.old) (sound_line text.now) }
    ensures within { result ≤ length frame.new }
    ensures bytes { frame.new ≡ over (take (length frame.old) (decoded text.now)) frame.old }
{
    let Some(line) = frames::read_line(text, 0, &mut *frame) else {
        return 0;
    };
    let n = line.len;
    if frame.len() < n {
        return 0;
    }
    n - 1
}

// Whether a command reads rules.hex.
pub fn asks_for_file(f: &[u8]) -> bool
    ensures { result ≡ reads_file f.now }
{
    f.len() == 1 && f[0] == 0x13
}

// The answer to a command, at the front of `out`, and its length; `file` holds the bytes of rules.hex where the command reads it, `list` is the
// lent list that names are looked up in, and `contested` the contested letters of the last name spoken.
pub fn answer(
    f: &[u8],
    file: &[u8],
    image: &mut [u8],
    list: &[u32],
    words: &mut [u16],
    sets: &mut [u64],
    phones: &mut [u8],
    numbers: &mut [u16],
    contested: &mut u8,
    out: &mut [u8],
) -> usize
    requires { Held (length image.old) (length phones.old) (length numbers.old) (length out.old) }
    ensures replied { Replied (answer_to f.now file.now list.now (holding image.old words.old sets.old phones.old numbers.old contested.old)) (holding image.new words.new sets.new phones.new numbers.new contested.new) result out.old out.new }
    ensures within { result ≤ length out.new }
{
    let [kind, ..] = f else {
        return answers::malformed(out);
    };
    match *kind {
        0x10 => editing::add_command(f, image, out),
        0x11 => editing::drop_command(f, image, out),
        0x12 => editing::move_command(f, image, out),
        0x13 => filing::read_command(f, file, image, out),
        0x14 => filing::write_command(f, image, out),
        0x15 => speaking::build_command(f, image, words, sets, out),
        0x16 => speaking::walk_command(
            f, image, list, words, sets, phones, numbers, contested, out,
        ),
        0x17 => speaking::plain_command(f, image, list, phones, numbers, contested, out),
        0x18 => memory::store_word(f, words, out),
        0x19 => memory::store_set(f, sets, out),
        0x1A => memory::show_words(f, words, out),
        0x1B => memory::show_sets(f, sets, out),
        0x1C => memory::show_phones(f, phones, out),
        0x1D => memory::show_numbers(f, numbers, out),
        0x1E => editing::force_command(f, image, out),
        0x1F => editing::clear_command(f, image, out),
        0x27 => memory::show_contested(f, *contested, out),
        0x28 => editing::class_command(f, image, out),
        0x29 => memory::show_edits(f, image, out),
        0x2A => editing::recount_command(f, image, out),
        0x2B => sheet_command::sheet_command(
            f, image, list, words, sets, phones, numbers, contested, out,
        ),
        _ => answers::malformed(out),
    }
}
