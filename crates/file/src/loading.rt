// A rule file judged whole, then stored in lent memory.
ghost use Rattle.std.specs.Prelude.{◌≡◌, true, [], map, ◌+◌, ◌*◌, ◌/◌, ◌%◌, ◌^◌, ◌<◌, ◌≤◌, length, get_or, drop, set, replicate};
ghost use Rattle.std.specs.Int.Bits.{bit_or};
ghost use Rattle.rules.specs.Limits.{max_rules};
ghost use Rattle.rules.specs.Refusals.{reply_of, accepted};
ghost use Rattle.classes.specs.Masks.{masks_size, classes_in};
ghost use Rattle.numbers.specs.Bits.{held};
ghost use Rattle.image.specs.Image.{image_size, with_rule, whole};
ghost use Rattle.frames.specs.Lines.{decoded};
ghost use Rattle.file_format.specs.Layout.{line_size, entry_in, numbered_of};
ghost use Rattle.file_format.specs.File.{read_rules, readFile};
ghost use Rattle.file.specs.Loading.{ledger_for, verdict, described, RulesFrom, rule_frame, with_rules};

use crate::{defining, heading, parsing};
use rules::Refusal;

// Whether a set of numbers, a bit for each, holds n; then it does.
fn mark(seen: &mut [u64], n: u16) -> bool
    requires { length seen.old ≡ 1024 }
    ensures was { result ≡ held seen.old n }
    ensures now { seen.new ≡ set seen.old (n / 64) (bit_or (get_or seen.old (n / 64) 0) (2 ^ (n % 64))) }
{
    let w = (n / 64) as usize;
    let k = (n % 64) as u64;
    let word = seen[w];
    seen[w] = numbers::with_bit(word, k);
    numbers::has_bit(word, k)
}

// The rule lines from a place on, judged.
fn judge_rules(
    file: &[u8],
    from: usize,
    count: usize,
    last: u16,
    masks: &[u8],
    seen: &mut [u64],
) -> Result<(), Refusal>
    requires { (from ≤ length file.now) × ((masks_size ≤ length masks.now) × (seen.old ≡ replicate 1024 0)) }
    ensures { reply_of result ≡ verdict (read_rules (length file.now) last (classes_in masks.now) count [] (drop from file.now)) }
{
    let mut at = from;
    let mut total: usize = 0;
    for _ in 0..count {
        let line = parsing::read_rule(file, at, last)?;
        let entry = line.entry;
        if mark(&mut *seen, entry.number) {
            return Err(Refusal::BadText(at)); // its later line
        }
        total = parsing::total_with(total, masks, entry.rule).ok_or(Refusal::BadText(at))?; // its literal rules
        at = line.next;
    }
    if at < file.len() {
        return Err(Refusal::BadText(at));
    }
    Ok(())
}

// The whole file, judged: refusals 13 and 14.
pub fn judge(file: &[u8]) -> Result<(), Refusal>
    ensures { reply_of result ≡ verdict (readFile file.now) }
{
    let head = heading::read_head(file)?;
    let mut masks = [0u8; classes::MASKS_SIZE];
    let at = defining::read_classes(file, head.next, &mut masks)?;
    let mut seen = [0u64; 1024];
    judge_rules(file, at, head.count, head.last, &masks, &mut seen)
}

// The rule of a line that was judged, put into its slot without judging it again, and where the next line starts.
fn store_rule(file: &[u8], at: usize, place: usize, image: &mut [u8]) -> usize
    requires { (rule_frame (decoded (drop at file.now)) ≡ true) × ((place < max_rules) × (image_size ≤ length image.old)) }
    ensures next { result ≡ at + line_size (length (decoded (drop at file.now))) }
    ensures slot { image.new ≡ with_rule place (numbered_of (entry_in (decoded (drop at file.now)))) image.old }
{
    let n = parsing::frame_size(file, at);
    let mut frame = [0u8; file_format::LONGEST];
    frames::decode(file, at, n, &mut frame);
    let entry = parsing::entry_in(&frame[..n]);
    image::put_rule(&mut *image, place, entry);
    at + (2 * n + 1)
}

// The rules of a file that was judged, put into their slots. Its rule lines start at `from`.
fn store_rules(file: &[u8], from: usize, count: usize, last: u16, image: &mut [u8])
    requires { (count ≤ max_rules) × ((from ≤ length file.now) × ((image_size ≤ length image.old) × ((verdict (readFile file.now) ≡ accepted) × RulesFrom file.now last count from))) }
    ensures { image.new ≡ with_rules 0 (map numbered_of (described (readFile file.now)).rules) image.old }
{
    let mut at = from;
    for i in 0..count {
        at = store_rule(file, at, i, &mut *image);
    }
}

// A file that was judged, put into an image.
pub fn store_file(file: &[u8], image: &mut [u8])
    requires { (image_size ≤ length image.old) × (verdict (readFile file.now) ≡ accepted) }
    ensures { image.new ≡ whole (ledger_for (described (readFile file.now))) image.old }
{
    let Ok(head) = heading::read_head(file) else {
        unreachable!()
    };
    let mut masks = [0u8; classes::MASKS_SIZE];
    let Ok(at) = defining::read_classes(file, head.next, &mut masks) else {
        unreachable!()
    };
    image::put_head(&mut *image, head.count, head.last, 0);
    store_rules(file, at, head.count, head.last, &mut *image);
    image::class_bytes::put_classes(&mut *image, &masks);
    image::table::settle(image);
}
