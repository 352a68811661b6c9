// The commands that reach into the memory of the tables, the phones, the numbers, the contested letters and the edit count.
ghost use Rattle.std.specs.Prelude.{◌≡◌, ◌∷◌, ◌+◌, ◌*◌, ◌≤◌, length};
ghost use Rattle.numbers.specs.Numbers.{bytes4};
ghost use Rattle.rules.specs.Memory.{over};
ghost use Rattle.image.specs.Image.{image_size};
ghost use Rattle.frames.specs.Output.{output, Sent};
ghost use Rattle.lines.specs.Printed.{twos, printed};
ghost use Rattle.command_parts.specs.Answers.{Answered};
ghost use Rattle.command_parts.specs.Memory.{eights, bytes8, stored_word, stored_set, inside, shown_words, shown_sets, shown_phones, shown_numbers, shown_contested, shown_edits};

use crate::{answers, fields};
use frames::writer;
use frames::writer::Writer;

// 18, index (4), value (2): one word is stored.
pub fn store_word(f: &[u8], words: &mut [u16], out: &mut [u8]) -> usize
    requires { 15 ≤ length out.old }
    ensures { Answered (stored_word f.now words.old) words.new result out.old out.new }
{
    if f.len() != 7 {
        return answers::malformed(out);
    }
    let i = fields::four_at(f, 1);
    if words.len() <= i {
        return answers::malformed(out);
    }
    words[i] = numbers::two_at(f, 5);
    answers::done_line(out)
}

// 19, index (4), value (8): one set word is stored.
pub fn store_set(f: &[u8], sets: &mut [u64], out: &mut [u8]) -> usize
    requires { 15 ≤ length out.old }
    ensures { Answered (stored_set f.now sets.old) sets.new result out.old out.new }
{
    if f.len() != 13 {
        return answers::malformed(out);
    }
    let i = fields::four_at(f, 1);
    if sets.len() <= i {
        return answers::malformed(out);
    }
    sets[i] = fields::eight_at(f, 5);
    answers::done_line(out)
}

// 0A and words, two bytes each.
fn words_line(words: &[u16], out: &mut [u8]) -> usize
    requires { (length words.now ≤ 255) × (4085 ≤ length out.old) }
    ensures len { result ≡ length (printed (10 ∷ twos words.now)) }
    ensures bytes { out.new ≡ over (printed (10 ∷ twos words.now)) out.old }
{
    let start = writer::begin(0);
    let kind = writer::put(&mut *out, start, 10);
    let body = lines::put_numbers(&mut *out, kind, words);
    writer::end(out, body)
}

// Index (4), count (1): whether so many elements from there on are all among `n`.
pub fn is_inside(f: &[u8], n: usize) -> bool
    ensures { result ≡ inside f.now n }
{
    if f.len() != 6 {
        return false;
    }
    fields::four_at(f, 1) + usize::from(f[5]) <= n
}

// 1A, index (4), count (1): so many words are shown.
pub fn show_words(f: &[u8], words: &[u16], out: &mut [u8]) -> usize
    requires { 4085 ≤ length out.old }
    ensures len { result ≡ length (shown_words f.now words.now) }
    ensures bytes { out.new ≡ over (shown_words f.now words.now) out.old }
{
    if !is_inside(f, words.len()) {
        return answers::malformed(out);
    }
    let i = fields::four_at(f, 1);
    let end = i + usize::from(f[5]);
    words_line(&words[i..end], out)
}

// A set word, high byte first.
fn put_set(out: &mut [u8], w: Writer, set: u64) -> Writer
    requires { w.at + 16 ≤ length out.old }
    ensures next { result.at ≡ w.at + 16 }
    ensures sent { Sent (bytes8 set) (output w out.old) (output result out.new) }
{
    let high = writer::put_four(&mut *out, w, (set / 4294967296) as usize);
    writer::put_four(out, high, set as usize)
}

// Set words, eight bytes each.
fn put_sets(out: &mut [u8], w: Writer, sets: &[u64]) -> Writer
    requires { w.at + 16 * length sets.now ≤ length out.old }
    ensures next { result.at ≡ w.at + 16 * length sets.now }
    ensures sent { Sent (eights sets.now) (output w out.old) (output result out.new) }
{
    let mut next = w;
    for &set in sets {
        next = put_set(&mut *out, next, set);
    }
    next
}

// 0A and set words, eight bytes each.
fn sets_line(sets: &[u64], out: &mut [u8]) -> usize
    requires { (length sets.now ≤ 255) × (4085 ≤ length out.old) }
    ensures len { result ≡ length (printed (10 ∷ eights sets.now)) }
    ensures bytes { out.new ≡ over (printed (10 ∷ eights sets.now)) out.old }
{
    let start = writer::begin(0);
    let kind = writer::put(&mut *out, start, 10);
    let body = put_sets(&mut *out, kind, sets);
    writer::end(out, body)
}

// 1B, index (4), count (1): so many set words are shown.
pub fn show_sets(f: &[u8], sets: &[u64], out: &mut [u8]) -> usize
    requires { 4085 ≤ length out.old }
    ensures len { result ≡ length (shown_sets f.now sets.now) }
    ensures bytes { out.new ≡ over (shown_sets f.now sets.now) out.old }
{
    if !is_inside(f, sets.len()) {
        return answers::malformed(out);
    }
    let i = fields::four_at(f, 1);
    let end = i + usize::from(f[5]);
    sets_line(&sets[i..end], out)
}

// 0A and bytes.
pub fn bytes_line(bytes: &[u8], out: &mut [u8]) -> usize
    requires { 5 + 2 * length bytes.now ≤ length out.old }
    ensures len { result ≡ length (printed (10 ∷ bytes.now)) }
    ensures bytes { out.new ≡ over (printed (10 ∷ bytes.now)) out.old }
{
    let start = writer::begin(0);
    let kind = writer::put(&mut *out, start, 10);
    let body = writer::put_all(&mut *out, kind, bytes);
    writer::end(out, body)
}

// 1C: the phone bytes are shown.
pub fn show_phones(f: &[u8], phones: &[u8], out: &mut [u8]) -> usize
    requires { (length phones.now ≤ 256) × (4085 ≤ length out.old) }
    ensures len { result ≡ length (shown_phones f.now phones.now) }
    ensures bytes { out.new ≡ over (shown_phones f.now phones.now) out.old }
{
    if f.len() != 1 {
        return answers::malformed(out);
    }
    bytes_line(phones, out)
}

// 1D: the numbers are shown.
pub fn show_numbers(f: &[u8], numbers: &[u16], out: &mut [u8]) -> usize
    requires { (length numbers.now ≤ 64) × (4085 ≤ length out.old) }
    ensures len { result ≡ length (shown_numbers f.now numbers.now) }
    ensures bytes { out.new ≡ over (shown_numbers f.now numbers.now) out.old }
{
    if f.len() != 1 {
        return answers::malformed(out);
    }
    words_line(numbers, out)
}

// 27: the contested letters of the last name spoken are shown.
pub fn show_contested(f: &[u8], contested: u8, out: &mut [u8]) -> usize
    requires { 15 ≤ length out.old }
    ensures len { result ≡ length (shown_contested f.now contested) }
    ensures bytes { out.new ≡ over (shown_contested f.now contested) out.old }
{
    if f.len() != 1 {
        return answers::malformed(out);
    }
    bytes_line(&[contested], out)
}

// 0A and an edit count (4).
fn edits_line(edits: u32, out: &mut [u8]) -> usize
    requires { 15 ≤ length out.old }
    ensures len { result ≡ length (printed (10 ∷ bytes4 edits)) }
    ensures bytes { out.new ≡ over (printed (10 ∷ bytes4 edits)) out.old }
{
    let start = writer::begin(0);
    let kind = writer::put(&mut *out, start, 10);
    let body = writer::put_four(&mut *out, kind, edits as usize);
    writer::end(out, body)
}

// 29: the edit count is shown.
pub fn show_edits(f: &[u8], image: &[u8], out: &mut [u8]) -> usize
    requires { (image_size ≤ length image.now) × (15 ≤ length out.old) }
    ensures len { result ≡ length (shown_edits f.now image.now) }
    ensures bytes { out.new ≡ over (shown_edits f.now image.now) out.old }
{
    if f.len() != 1 {
        return answers::malformed(out);
    }
    edits_line(image::edit_count(image), out)
}
