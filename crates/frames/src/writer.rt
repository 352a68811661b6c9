// A frame written byte by byte, as a line at a place of lent bytes: its sum is kept as the bytes go out, so that no frame is laid anywhere
// before its line.
ghost use Rattle.std.specs.Prelude.{◌≡◌, ◌+◌, ◌*◌, ◌/◌, ◌%◌, ◌≤◌, [], ◌∷◌, length};
ghost use Rattle.numbers.specs.Numbers.{bytes2, bytes4};
ghost use Rattle.frames.specs.Lines.{digit};
ghost use Rattle.frames.specs.Output.{output, begun, Sent, SumKept, ended, digit_pairs};

// A frame that is being written: where its next byte goes, and the sum modulo 256 of its bytes so far.
#[derive(Clone, Copy)]
pub struct Writer {
    pub at: usize,
    pub sum: u8,
}

// A frame whose line starts at a place.
pub fn begin(at: usize) -> Writer
    ensures next { result.at ≡ at }
    ensures begun { result ≡ begun at }
{
    Writer { at, sum: 0 }
}

// A byte goes out, whose digits are known. The sum does not hang on where they go: a card that takes a byte at a time can be fed from two
// lent bytes, each byte's digits at 0 and the sum carried on.
fn put_digits(out: &mut [u8], w: Writer, b: u8, high: u8, low: u8) -> Writer
    requires { (w.at + 2 ≤ length out.old) × ((high ≡ digit (b / 16)) × (low ≡ digit (b % 16))) }
    ensures next { result.at ≡ w.at + 2 }
    ensures sum { SumKept w b result }
    ensures sent { Sent (b ∷ []) (output w out.old) (output result out.new) }
{
    let at = w.at;
    out[at] = high;
    out[at + 1] = low;
    Writer {
        at: at + 2,
        sum: std::num::wrapping_add_u8(w.sum, b),
    }
}

// A byte goes out.
pub fn put(out: &mut [u8], w: Writer, b: u8) -> Writer
    requires { w.at + 2 ≤ length out.old }
    ensures next { result.at ≡ w.at + 2 }
    ensures sum { SumKept w b result }
    ensures sent { Sent (b ∷ []) (output w out.old) (output result out.new) }
{
    put_digits(
        out,
        w,
        b,
        crate::hex_digit(b / 16),
        crate::hex_digit(b % 16),
    )
}

// A field of two bytes, high byte first.
pub fn put_two(out: &mut [u8], w: Writer, n: usize) -> Writer
    requires { w.at + 4 ≤ length out.old }
    ensures next { result.at ≡ w.at + 4 }
    ensures sent { Sent (bytes2 n) (output w out.old) (output result out.new) }
{
    let high = put(&mut *out, w, (n / 256 % 256) as u8);
    put(out, high, (n % 256) as u8)
}

// A field of four bytes.
pub fn put_four(out: &mut [u8], w: Writer, n: usize) -> Writer
    requires { w.at + 8 ≤ length out.old }
    ensures next { result.at ≡ w.at + 8 }
    ensures sent { Sent (bytes4 n) (output w out.old) (output result out.new) }
{
    let high = put_two(&mut *out, w, n / 65536);
    put_two(out, high, n)
}

// The frame ends with its checksum, made from the running sum alone, and 0A; where the next line starts.
pub fn end(out: &mut [u8], w: Writer) -> usize
    requires { w.at + 3 ≤ length out.old }
    ensures next { result ≡ w.at + 3 }
    ensures line { out.new ≡ ended (output w out.old) }
{
    let last = put(&mut *out, w, std::num::wrapping_sub_u8(0, w.sum));
    let at = last.at;
    out[at] = 10;
    at + 1
}

// ---- many lines, by a table of digits

const PAIRS: [u8; 512] =
    *b"000102030405060708090A0B0C0D0E0F101112131415161718191A1B1C1D1E1F202122232425262728292A2B2C2D2E2F303132333435363738393A3B3C3D3E3F404142434445464748494A4B4C4D4E4F505152535455565758595A5B5C5D5E5F606162636465666768696A6B6C6D6E6F707172737475767778797A7B7C7D7E7F808182838485868788898A8B8C8D8E8F909192939495969798999A9B9C9D9E9FA0A1A2A3A4A5A6A7A8A9AAABACADAEAFB0B1B2B3B4B5B6B7B8B9BABBBCBDBEBFC0C1C2C3C4C5C6C7C8C9CACBCCCDCECFD0D1D2D3D4D5D6D7D8D9DADBDCDDDEDFE0E1E2E3E4E5E6E7E8E9EAEBECEDEEEFF0F1F2F3F4F5F6F7F8F9FAFBFCFDFEFF";

// The digits of every byte: whoever writes many lines keeps them, since one load is faster than to make two digits.
pub fn digit_pairs() -> [u8; 512]
    ensures { result ≡ digit_pairs }
{
    PAIRS
}

// A byte goes out, its digits taken from the table.
pub fn put_from(out: &mut [u8], w: Writer, pairs: &[u8], b: u8) -> Writer
    requires { (w.at + 2 ≤ length out.old) × (pairs.now ≡ digit_pairs) }
    ensures next { result.at ≡ w.at + 2 }
    ensures sum { SumKept w b result }
    ensures sent { Sent (b ∷ []) (output w out.old) (output result out.new) }
{
    let i = 2 * usize::from(b);
    put_digits(out, w, b, pairs[i], pairs[i + 1])
}

// Bytes go out, their digits taken from the table.
pub fn put_all_from(out: &mut [u8], w: Writer, pairs: &[u8], bytes: &[u8]) -> Writer
    requires { (w.at + 2 * length bytes.now ≤ length out.old) × (pairs.now ≡ digit_pairs) }
    ensures next { result.at ≡ w.at + 2 * length bytes.now }
    ensures sent { Sent bytes.now (output w out.old) (output result out.new) }
{
    let mut next = w;
    for &b in bytes {
        next = put_from(&mut *out, next, pairs, b);
    }
    next
}

// Bytes go out, one after the other, where no table is kept.
pub fn put_all(out: &mut [u8], w: Writer, bytes: &[u8]) -> Writer
    requires { w.at + 2 * length bytes.now ≤ length out.old }
    ensures next { result.at ≡ w.at + 2 * length bytes.now }
    ensures sent { Sent bytes.now (output w out.old) (output result out.new) }
{
    let pairs = digit_pairs();
    put_all_from(out, w, &pairs, bytes)
}
