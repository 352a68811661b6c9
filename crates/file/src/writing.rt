// A ruleset written line after line, and the bytes that its file needs.
ghost use Rattle.std.specs.Prelude.{◌≡◌, ◌∷◌, [], ◌+◌, ◌*◌, ◌%◌, ◌<◌, ◌≤◌, length};
ghost use Rattle.rules.specs.Limits.{max_rules};
ghost use Rattle.rules.specs.Memory.{over, over_at};
ghost use Rattle.image.specs.Image.{count_of, entry_at, entries_of};
ghost use Rattle.frames.specs.Output.{output, Sent, digit_pairs};
ghost use Rattle.file_format.specs.Layout.{longest_frame, line_size, head_line_size};
ghost use Rattle.file_format.specs.File.{head_line, rule_line, rule_lines, encode};
ghost use Rattle.file.specs.Loading.{ruleset_in, number_bytes, length_bytes, field_bytes, body_bytes};

use crate::class_writing;
use frames::writer;
use frames::writer::Writer;
use image::ruleset::Ruleset;

// The bytes of the line of a rule's frame without its fields: two digits each, and 0A.
const FRONT_LINE: usize = 2 * (file_format::FRONT + 1) + 1;

// A field's length.
fn put_length(out: &mut [u8], w: Writer, pairs: &[u8], field: &[u8]) -> Writer
    requires { (w.at + 2 ≤ length out.old) × (pairs.now ≡ digit_pairs) }
    ensures next { result.at ≡ w.at + 2 }
    ensures sent { Sent (length field.now % 256 ∷ []) (output w out.old) (output result out.new) }
{
    writer::put_from(out, w, pairs, (field.len() % 256) as u8)
}

// The lengths of a rule's fields.
fn put_lengths(
    out: &mut [u8],
    w: Writer,
    pairs: &[u8],
    left: &[u8],
    target: &[u8],
    right: &[u8],
    phones: &[u8],
) -> Writer
    requires { (w.at + 8 ≤ length out.old) × (pairs.now ≡ digit_pairs) }
    ensures next { result.at ≡ w.at + 8 }
    ensures sent { Sent (length_bytes left.now target.now right.now phones.now) (output w out.old) (output result out.new) }
{
    let a = put_length(&mut *out, w, pairs, left);
    let b = put_length(&mut *out, a, pairs, target);
    let c = put_length(&mut *out, b, pairs, right);
    put_length(out, c, pairs, phones)
}

// Their bytes.
fn put_fields(
    out: &mut [u8],
    w: Writer,
    pairs: &[u8],
    left: &[u8],
    target: &[u8],
    right: &[u8],
    phones: &[u8],
) -> Writer
    requires { (w.at + 2 * length (field_bytes left.now target.now right.now phones.now) ≤ length out.old) × (pairs.now ≡ digit_pairs) }
    ensures next { result.at ≡ w.at + 2 * length (field_bytes left.now target.now right.now phones.now) }
    ensures sent { Sent (field_bytes left.now target.now right.now phones.now) (output w out.old) (output result out.new) }
{
    let a = writer::put_all_from(&mut *out, w, pairs, left);
    let b = writer::put_all_from(&mut *out, a, pairs, target);
    let c = writer::put_all_from(&mut *out, b, pairs, right);
    writer::put_all_from(out, c, pairs, phones)
}

// 02, number (2).
fn put_number(out: &mut [u8], w: Writer, pairs: &[u8], number: u16) -> Writer
    requires { (w.at + 6 ≤ length out.old) × (pairs.now ≡ digit_pairs) }
    ensures next { result.at ≡ w.at + 6 }
    ensures sent { Sent (number_bytes number) (output w out.old) (output result out.new) }
{
    let a = writer::put_from(&mut *out, w, pairs, file_format::RULE_TYPE);
    let b = writer::put_from(&mut *out, a, pairs, (number / 256) as u8);
    writer::put_from(out, b, pairs, (number % 256) as u8)
}

// A rule's frame without its checksum.
fn put_body(
    out: &mut [u8],
    w: Writer,
    pairs: &[u8],
    number: u16,
    left: &[u8],
    target: &[u8],
    right: &[u8],
    phones: &[u8],
) -> Writer
    requires { (w.at + 2 * length (body_bytes number left.now target.now right.now phones.now) ≤ length out.old) × (pairs.now ≡ digit_pairs) }
    ensures next { result.at ≡ w.at + 2 * length (body_bytes number left.now target.now right.now phones.now) }
    ensures sent { Sent (body_bytes number left.now target.now right.now phones.now) (output w out.old) (output result out.new) }
{
    let a = put_number(&mut *out, w, pairs, number);
    let b = put_lengths(&mut *out, a, pairs, left, target, right, phones);
    put_fields(out, b, pairs, left, target, right, phones)
}

// The line of the rule at a place from `at` on, and where it ends.
fn write_rule(rules: Ruleset<'_>, place: usize, pairs: &[u8], out: &mut [u8], at: usize) -> usize
    requires { (place < count_of rules.bytes.now) × ((pairs.now ≡ digit_pairs) × (at + length (rule_line (entry_at rules.bytes.now place)) ≤ length out.old)) }
    ensures next { result ≡ at + length (rule_line (entry_at rules.entry.bytes.now place)) }
    ensures bytes { out.new ≡ over_at at (rule_line (entry_at rules.entry.bytes.now place)) out.old }
{
    let number = rules.number_at(place);
    let left = rules.left_at(place);
    let target = rules.target_at(place);
    let right = rules.right_at(place);
    let phones = rules.phones_at(place);
    let start = writer::begin(at);
    let body = put_body(&mut *out, start, pairs, number, left, target, right, phones);
    writer::end(out, body)
}

// The head's line.
fn write_head(out: &mut [u8], count: usize, last: u16)
    requires { (count ≤ max_rules) × (head_line_size ≤ length out.old) }
    ensures { out.new ≡ over (head_line count last) out.old }
{
    let start = writer::begin(0);
    let kind = writer::put(&mut *out, start, file_format::HEAD_TYPE);
    let edition = writer::put(&mut *out, kind, file_format::FIRST_EDITION);
    let counted = writer::put_two(&mut *out, edition, count);
    let body = writer::put_two(&mut *out, counted, usize::from(last));
    writer::end(out, body);
}

// The lines of a ruleset's rules from `from` on.
fn write_rules(rules: Ruleset<'_>, pairs: &[u8], out: &mut [u8], from: usize)
    requires { (pairs.now ≡ digit_pairs) × (from + length (rule_lines (entries_of rules.bytes.now)) ≤ length out.old) }
    ensures { out.new ≡ over_at from (rule_lines (entries_of rules.entry.bytes.now)) out.old }
{
    let count = rules.rule_count();
    let mut at = from;
    for i in 0..count {
        at = write_rule(rules, i, pairs, &mut *out, at);
    }
}

// A ruleset's file, at the front of lent bytes.
pub fn write_ruleset(rules: Ruleset<'_>, out: &mut [u8])
    requires { length (encode (ruleset_in rules.bytes.now)) ≤ length out.old }
    ensures { out.new ≡ over (encode (ruleset_in rules.entry.bytes.now)) out.old }
{
    let count = rules.rule_count();
    let last = rules.last_issued();
    write_head(&mut *out, count, last);
    let pairs = writer::digit_pairs();
    let at = class_writing::write_classes(rules.masks(), &pairs, &mut *out);
    write_rules(rules, &pairs, out, at);
}

// The bytes of the line of the rule at a place.
fn rule_size(rules: Ruleset<'_>, place: usize) -> usize
    requires { place < count_of rules.bytes.now }
    ensures { (result ≡ length (rule_line (entry_at rules.entry.bytes.now place))) × (result ≤ line_size longest_frame) }
{
    let left = rules.left_at(place);
    let target = rules.target_at(place);
    let right = rules.right_at(place);
    let phones = rules.phones_at(place);
    FRONT_LINE + 2 * (left.len() + (target.len() + (right.len() + phones.len())))
}

// The bytes of a ruleset's file.
pub fn file_size(rules: Ruleset<'_>) -> usize
    ensures { result ≡ length (encode (ruleset_in rules.entry.bytes.now)) }
{
    let count = rules.rule_count();
    let mut n: usize = class_writing::HEAD_LINE + class_writing::classes_size(rules.masks());
    for i in 0..count {
        n += rule_size(rules, i);
    }
    n
}
