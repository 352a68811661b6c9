// The first line of a rule file: its head.
ghost use Rattle.std.specs.Prelude.{◌≡◌, length};
ghost use Rattle.frames.specs.Lines.{sound_line};
ghost use Rattle.file.specs.Loading.{head_in, head_at};

use rules::Refusal;

// A head: where the next line starts, how many rules the file has, and the number last issued.
#[derive(Clone, Copy)]
pub struct Head {
    pub next: usize,
    pub count: usize,
    pub last: u16,
}

// The head of a frame, whose line ends at `next`.
fn head_in(f: &[u8], next: usize) -> Option<Head>
    ensures { result ≡ head_in next f.now }
{
    if f.len() != file_format::HEAD {
        return None;
    }
    if f[file_format::TYPE] != file_format::HEAD_TYPE {
        return None;
    }
    if f[file_format::EDITION] != file_format::FIRST_EDITION {
        return None;
    }
    let count = usize::from(numbers::two_at(f, file_format::COUNT));
    if rules::MAX_RULES < count {
        return None;
    }
    let last = numbers::two_at(f, file_format::LAST);
    Some(Head { next, count, last })
}

// The head of a file: refusals 13 and 14.
pub fn read_head(file: &[u8]) -> Result<Head, Refusal>
    ensures { result ≡ head_at (length file.now) (sound_line file.now) }
{
    let mut frame = [0u8; file_format::HEAD];
    let Some(line) = frames::read_line(file, 0, &mut frame) else {
        return Err(Refusal::BadLine(0));
    };
    let n = line.len;
    if file_format::HEAD < n {
        return Err(Refusal::BadText(0));
    }
    head_in(&frame[..n], line.next).ok_or(Refusal::BadText(0))
}
