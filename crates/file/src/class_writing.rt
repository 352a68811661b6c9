// The classes of a ruleset written line after line, and the bytes that their lines need.
ghost use Rattle.std.specs.Prelude.{◌≡◌, ◌+◌, ◌*◌, ◌≤◌, length};
ghost use Rattle.rules.specs.Memory.{over_at};
ghost use Rattle.classes.specs.Masks.{masks_size, letters_in, classes_in};
ghost use Rattle.frames.specs.Output.{output, Sent, digit_pairs};
ghost use Rattle.file_format.specs.Layout.{head_line_size};
ghost use Rattle.file_format.specs.File.{class_body, class_line, class_lines};

use frames::writer;
use frames::writer::Writer;

// The bytes of the lines of a head, and of a class without its letters: two digits for each byte of the frame, and 0A.
pub const HEAD_LINE: usize = 2 * file_format::HEAD + 1;

const CLASS_FRONT_LINE: usize = 2 * (file_format::LETTERS + 1) + 1;

// The letters of a mask, ascending.
fn put_letters(out: &mut [u8], w: Writer, pairs: &[u8], mask: u64) -> Writer
    requires { (w.at + 2 * length (letters_in mask) ≤ length out.old) × (pairs.now ≡ digit_pairs) }
    ensures next { result.at ≡ w.at + 2 * length (letters_in mask) }
    ensures sent { Sent (letters_in mask) (output w out.old) (output result out.new) }
{
    let mut next = w;
    let mut x = mask;
    while x != 0 {
        next = writer::put_from(&mut *out, next, pairs, classes::masks::first_letter(x));
        x = classes::masks::without_first(x);
    }
    next
}

// A class's frame without its checksum.
fn put_class(out: &mut [u8], w: Writer, pairs: &[u8], symbol: u8, mask: u64) -> Writer
    requires { (w.at + 2 * length (class_body symbol (letters_in mask)) ≤ length out.old) × (pairs.now ≡ digit_pairs) }
    ensures next { result.at ≡ w.at + 2 * length (class_body symbol (letters_in mask)) }
    ensures sent { Sent (class_body symbol (letters_in mask)) (output w out.old) (output result out.new) }
{
    let a = writer::put_from(&mut *out, w, pairs, file_format::CLASS_TYPE);
    let b = writer::put_from(&mut *out, a, pairs, symbol);
    let n = classes::masks::size_in(mask);
    let c = writer::put_from(&mut *out, b, pairs, n as u8);
    put_letters(out, c, pairs, mask)
}

// The line of a class from `at` on, where it is defined, and where it ends.
fn write_class(mask: u64, symbol: u8, pairs: &[u8], out: &mut [u8], at: usize) -> usize
    requires { (at + length (class_line symbol (letters_in mask)) ≤ length out.old) × (pairs.now ≡ digit_pairs) }
    ensures next { result ≡ at + length (class_line symbol (letters_in mask)) }
    ensures bytes { out.new ≡ over_at at (class_line symbol (letters_in mask)) out.old }
{
    if mask == 0 {
        return at;
    }
    let start = writer::begin(at);
    let body = put_class(&mut *out, start, pairs, symbol, mask);
    writer::end(out, body)
}

// The lines of the classes, after the head's, and where they end.
pub fn write_classes(masks: &[u8], pairs: &[u8], out: &mut [u8]) -> usize
    requires { (masks_size ≤ length masks.now) × ((pairs.now ≡ digit_pairs) × (head_line_size + length (class_lines (classes_in masks.now)) ≤ length out.old)) }
    ensures next { result ≡ head_line_size + length (class_lines (classes_in masks.now)) }
    ensures bytes { out.new ≡ over_at head_line_size (class_lines (classes_in masks.now)) out.old }
{
    let mut at: usize = HEAD_LINE;
    for symbol in rules::FIRST_CLASS..=rules::MAX_SYMBOL {
        let mask = classes::storing::mask_at(masks, symbol);
        at = write_class(mask, symbol, pairs, &mut *out, at);
    }
    at
}

// The bytes of the line of a class.
fn class_size(mask: u64, symbol: u8) -> usize
    ensures { (result ≡ length (class_line symbol (letters_in mask))) × (result ≤ 137) }
{
    if mask == 0 {
        return 0;
    }
    CLASS_FRONT_LINE + 2 * classes::masks::size_in(mask)
}

// The bytes of the lines of the classes.
pub fn classes_size(masks: &[u8]) -> usize
    requires { masks_size ≤ length masks.now }
    ensures { (result ≡ length (class_lines (classes_in masks.now))) × (result ≤ 4384) }
{
    let mut n: usize = 0;
    for symbol in rules::FIRST_CLASS..=rules::MAX_SYMBOL {
        n += class_size(classes::storing::mask_at(masks, symbol), symbol);
    }
    n
}
