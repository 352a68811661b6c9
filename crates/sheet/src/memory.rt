// Memory to work in, which is zero before and after a call: how much of it a sheet needs, and whether that is zero.
ghost use Rattle.std.specs.Prelude.{◌≡◌};
ghost use Rattle.sheet_judging.specs.Sheet.{work_room};
ghost use Rattle.sheet.specs.Zeros.{first_are};

// Bytes of a sheet for which nodes and parts are needed.
pub fn work_room(sheet: &[u8]) -> usize
    ensures { result ≡ work_room sheet.now }
{
    let most = rules::MAX_NAMES * (rules::MAX_NAME + 1);
    if most < sheet.len() {
        return most;
    }
    sheet.len()
}

// Whether the first n elements are there and are `zero`. All are looked at, which is faster than to stop at the first that is not.
pub fn first_are<T: Copy + PartialEq>(s: &[T], n: usize, zero: T) -> bool
    ensures { result ≡ first_are T.eq zero n s.now }
{
    if s.len() < n {
        return false;
    }
    let mut all = true;
    for &x in &s[..n] {
        if x != zero {
            all = false;
        }
    }
    all
}
