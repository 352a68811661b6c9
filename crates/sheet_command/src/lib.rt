// The monitor's command 2B: a walk sheet, over the first so many of what the monitor holds.
#![tactic(auto)]

ghost use Rattle.std.specs.Prelude.{◌≡◌, ◌*◌, ◌≤◌, length};
ghost use Rattle.rules.specs.Limits.{max_names};
ghost use Rattle.many_names.specs.Many.{reply_size};
ghost use Rattle.sheet.specs.Sheet.{sheet_said};
ghost use Rattle.file_format.specs.Layout.{longest_file};
ghost use Rattle.command_parts.specs.Answers.{SpeechAnswered};
ghost use Rattle.sheet_command.specs.SheetCommand.{sheet_in, sheet_for, sheet_by, Presentable, SheetPut};

use command_parts::{answers, fields};
use sheet::SheetAnswer;
use sheet_lines::NamesPrinted;

// Memory to work in that is enough for each sheet: words of the tree, kept parts, numbers of replies.
const ROOM: usize = rules::MAX_NAMES * (rules::MAX_NAME + 1);

const TREE: usize = prefix_tree::NODE * (ROOM + 1);

const KEPT: usize = ROOM + reading::MAX_FRAME;

const REPLIES: usize = many_names::REPLY * rules::MAX_NAMES;

// A sheet sent through the first so many words and set words, with the first so many phones and numbers lent.
fn speak_in<'a>(
    image: &[u8],
    list: &[u32],
    words: &'a [u16],
    sets: &'a [u64],
    sheet: &[u8],
    phones: &mut [u8],
    n: usize,
    numbers: &mut [u16],
    m: usize,
    replies: &mut [usize],
    tree: &mut [u16],
    kept: &mut [u32],
) -> SheetAnswer
    requires { (n ≤ length phones.old) × (m ≤ length numbers.old) }
    ensures { sheet_said result replies.new phones.new numbers.new ≡ sheet_in n m image.now list.now words.now sets.now sheet.now tree.old kept.old replies.old phones.old numbers.old }
{
    sheet::speak_sheet(
        image,
        list,
        words,
        sets,
        sheet,
        &mut phones[..n],
        &mut numbers[..m],
        replies,
        tree,
        kept,
    )
}

// The same by the fields of the command.
fn speak_lent<'a>(
    f: &[u8],
    image: &[u8],
    list: &[u32],
    words: &'a [u16],
    sets: &'a [u64],
    phones: &mut [u8],
    numbers: &mut [u16],
    replies: &mut [usize],
    tree: &mut [u16],
    kept: &mut [u32],
) -> SheetAnswer
    requires { 13 ≤ length f.now }
    ensures said { sheet_said result replies.new phones.new numbers.new ≡ sheet_for f.now image.now list.now words.now sets.now tree.old kept.old replies.old phones.old numbers.old }
    ensures presentable { Presentable (sheet_said result replies.new phones.new numbers.new) (length phones.old) (length numbers.old) }
{
    let a = fields::lent(fields::four_at(f, 1), words.len());
    let b = fields::lent(fields::four_at(f, 5), sets.len());
    let n = fields::lent(fields::two_at(f, 9), phones.len());
    let m = fields::lent(fields::two_at(f, 11), numbers.len());
    speak_in(
        image,
        list,
        &words[..a],
        &sets[..b],
        &f[13..],
        phones,
        n,
        numbers,
        m,
        replies,
        tree,
        kept,
    )
}

// The answer: 06, steps (4), names (2) and a line for each name, or 08 with no steps.
fn put_sheet(
    said: SheetAnswer,
    replies: &[usize],
    phones: &[u8],
    numbers: &[u16],
    contested: u8,
    out: &mut [u8],
) -> NamesPrinted
    requires { (reply_size * max_names ≤ length replies.now) × (length phones.now ≤ 256) × (length numbers.now ≤ 64) × (longest_file ≤ length out.old) × Presentable (sheet_said said replies.now phones.now numbers.now) (length phones.now) (length numbers.now) }
    ensures { SheetPut (sheet_said said replies.now phones.now numbers.now) contested result out.old out.new }
{
    let answer = said.answer;
    match answer {
        Ok(()) => {
            let at = sheet_lines::sheet_line(said.steps, said.names, &mut *out);
            let lines = sheet_lines::name_lines(
                replies,
                said.names,
                phones,
                numbers,
                contested,
                &mut out[at..],
            );
            NamesPrinted {
                len: at + lines.len,
                contested: lines.contested,
            }
        },
        Err(x) => {
            let len = answers::walk_refusal(0, x, out);
            NamesPrinted { len, contested }
        },
    }
}

// 2B: a sheet.
pub fn sheet_command<'a>(
    f: &[u8],
    image: &[u8],
    list: &[u32],
    words: &'a [u16],
    sets: &'a [u64],
    phones: &mut [u8],
    numbers: &mut [u16],
    contested: &mut u8,
    out: &mut [u8],
) -> usize
    requires { (length phones.old ≤ 256) × (length numbers.old ≤ 64) × (longest_file ≤ length out.old) }
    ensures { SpeechAnswered (sheet_by f.now image.now list.now words.now sets.now phones.old numbers.old contested.old) phones.new numbers.new contested.new result out.old out.new }
{
    if f.len() < 13 {
        return answers::malformed(out);
    }
    let mut replies = [0usize; REPLIES];
    let mut tree = [0u16; TREE];
    let mut kept = [0u32; KEPT];
    let said = speak_lent(
        f,
        image,
        list,
        words,
        sets,
        &mut *phones,
        &mut *numbers,
        &mut replies,
        &mut tree,
        &mut kept,
    );
    let put = put_sheet(said, &replies, phones, numbers, *contested, out);
    *contested = put.contested;
    put.len
}
