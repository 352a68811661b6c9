// The lines of a rule file after its classes: a rule in each.
ghost use Rattle.std.specs.Prelude.{◌≡◌, true, ◌≤◌, IfSome, length, drop};
ghost use Rattle.rules.specs.Limits.{max_rules};
ghost use Rattle.rules.specs.Shape.{view, shape};
ghost use Rattle.classes.specs.Masks.{masks_size, classes_in};
ghost use Rattle.frames.specs.Lines.{sound_line, decoded};
ghost use Rattle.file_format.specs.Layout.{longest_frame, entry_in, numbered_of};
ghost use Rattle.file_format.specs.File.{is_rule};
ghost use Rattle.file.specs.Loading.{rule_frame, ruled_in, rule_at, total_with};

use rules::{Numbered, Refusal, Rule};

// A rule line: where the next one starts, and its rule with its number.
#[derive(Clone, Copy)]
pub struct RuleLine {
    pub next: usize,
    pub entry: Numbered,
}

// Whether a frame has a rule's type and length.
fn is_rule(f: &[u8]) -> bool
    ensures { result ≡ is_rule f.now }
{
    if f.len() <= file_format::FRONT {
        return false;
    }
    if f[file_format::TYPE] != file_format::RULE_TYPE {
        return false;
    }
    f.len() - 1 == file_format::body_size(f)
}

// The rule of such a frame, with its number.
pub fn entry_in(f: &[u8]) -> Numbered
    requires { is_rule f.now ≡ true }
    ensures { result ≡ numbered_of (entry_in f.now) }
{
    let number = numbers::two_at(f, file_format::NUMBER);
    let rule = file_format::rule_in(f);
    Numbered { number, rule }
}

// The bytes of the frame in a line that was judged and starts at a place, by its lengths.
pub fn frame_size(file: &[u8], at: usize) -> usize
    requires { rule_frame (decoded (drop at file.now)) ≡ true }
    ensures { (result ≡ length (decoded (drop at file.now))) × (result ≤ longest_frame) }
{
    let l = usize::from(frames::byte_at(file, at, file_format::LEFT_LEN));
    let t = usize::from(frames::byte_at(file, at, file_format::TARGET_LEN));
    let r = usize::from(frames::byte_at(file, at, file_format::RIGHT_LEN));
    let p = usize::from(frames::byte_at(file, at, file_format::PHONES_LEN));
    file_format::FRONT + (l + (t + (r + p))) + 1
}

// The rule of a frame: of the shape, with a number from 1 to `last`.
fn ruled_in(f: &[u8], last: u16) -> Option<Numbered>
    ensures { result ≡ ruled_in last f.now }
{
    if !is_rule(f) {
        return None;
    }
    let entry = entry_in(f);
    if !rules::well_shaped(entry.rule) {
        return None;
    }
    if entry.number < 1 {
        return None;
    }
    if last < entry.number {
        return None;
    }
    Some(entry)
}

// The rule line that starts at a place: refusals 13 and 14.
pub fn read_rule(file: &[u8], at: usize, last: u16) -> Result<RuleLine, Refusal>
    ensures { result ≡ rule_at at last (length file.now) (sound_line (drop at file.now)) }
{
    let mut frame = [0u8; file_format::LONGEST];
    let Some(line) = frames::read_line(file, at, &mut frame) else {
        return Err(Refusal::BadLine(at));
    };
    let n = line.len;
    if file_format::LONGEST < n {
        return Err(Refusal::BadText(at));
    }
    let Some(entry) = ruled_in(&frame[..n], last) else {
        return Err(Refusal::BadText(at));
    };
    let next = line.next;
    Ok(RuleLine { next, entry })
}

// `before` literal rules with those of a rule more: none where a class that it uses is undefined, or where they are more than 512.
pub fn total_with(before: usize, masks: &[u8], rule: Rule) -> Option<usize>
    requires { (before ≤ max_rules) × ((masks_size ≤ length masks.now) × (shape (view rule) ≡ true)) }
    ensures { (result ≡ total_with before (classes_in masks.now) (view rule)) × IfSome result (λ n. n ≤ max_rules) }
{
    let left = rule.left;
    let right = rule.right;
    let l = usize::from(rule.left_len);
    let r = usize::from(rule.right_len);
    let count = classes::runs::literal_count(masks, &left[..l], &right[..r]);
    if count < 1 {
        return None;
    }
    if rules::MAX_RULES < before + count {
        return None;
    }
    Some(before + count)
}
