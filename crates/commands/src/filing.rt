// The commands that read and write the rule file.
ghost use Rattle.std.specs.Prelude.{◌≡◌, ◌≤◌, length};
ghost use Rattle.rules.specs.Memory.{over};
ghost use Rattle.rules.specs.Refusals.{reply_of};
ghost use Rattle.image.specs.Image.{image_size, outcome};
ghost use Rattle.file.specs.Loading.{filing};
ghost use Rattle.rules.specs.Refusals.{report_of};
ghost use Rattle.file_format.specs.Layout.{longest_file};
ghost use Rattle.command_parts.specs.Answers.{Answered};
ghost use Rattle.commands.specs.Filing.{loaded_from, loaded_by, filed_in, write_line};

use crate::speaking;
use command_parts::{answers, fields};
use rules::Refusal;

// The bytes of rules.hex become the ruleset; over 32,768 of them are refused.
pub fn load(file: &[u8], image: &mut [u8]) -> Result<(), Refusal>
    ensures { outcome (reply_of result) image.new ≡ loaded_from file.now image.old }
{
    if file_format::MAX_INPUT < file.len() {
        return Err(Refusal::BadLine(file_format::MAX_INPUT));
    }
    file::read_file(file, image)
}

// 13: read.
pub fn read_command(f: &[u8], file: &[u8], image: &mut [u8], out: &mut [u8]) -> usize
    requires { (image_size ≤ length image.old) × (15 ≤ length out.old) }
    ensures { Answered (loaded_by f.now file.now image.old) image.new result out.old out.new }
{
    if f.len() != 1 {
        return answers::malformed(out);
    }
    let answer = load(file, &mut *image);
    answers::reply_line(answer, image, out)
}

// The file into the first so many bytes.
fn write_in(image: &[u8], out: &mut [u8], n: usize) -> Result<usize, Refusal>
    requires { n ≤ length out.old }
    ensures { filing (report_of result) out.new ≡ filed_in n image.now out.old }
{
    file::write_file(image, &mut out[..n])
}

// 14, lent bytes (4; more than the longest file has count as that many): write.
pub fn write_command(f: &[u8], image: &[u8], out: &mut [u8]) -> usize
    requires { longest_file ≤ length out.old }
    ensures len { result ≡ length (write_line f.now image.now) }
    ensures bytes { out.new ≡ over (write_line f.now image.now) out.old }
{
    if f.len() != 5 {
        return answers::malformed(out);
    }
    let n = fields::lent(fields::four_at(f, 1), crate::LONGEST_FILE);
    let written = write_in(image, &mut *out, n);
    match written {
        Ok(k) => k,
        Err(x) => lines::refusal_line(x, out),
    }
}
