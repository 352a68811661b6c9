// The lines of a rule file after the head that define its classes.
ghost use Rattle.std.specs.Prelude.{◌≡◌, ◌≤◌, length, drop, replicate};
ghost use Rattle.rules.specs.Limits.{first_class};
ghost use Rattle.classes.specs.Masks.{masks_size, masks_of};
ghost use Rattle.frames.specs.Lines.{sound_line};
ghost use Rattle.file_format.specs.File.{read_defined};
ghost use Rattle.file.specs.Loading.{class_mask, class_at, classes_end};

use rules::Refusal;

// A line that defines a class: where the next one starts, the class's symbol and the mask of its letters.
#[derive(Clone, Copy)]
pub struct ClassLine {
    pub next: usize,
    pub symbol: u8,
    pub mask: u64,
}

// The mask of the class that a frame of the type defines, with a symbol from `low` on.
fn class_in(f: &[u8], low: u8) -> Option<u64>
    requires { first_class ≤ low }
    ensures { result ≡ class_mask low f.now }
{
    if f.len() <= file_format::LETTERS {
        return None;
    }
    let symbol = f[file_format::SYMBOL];
    if symbol < low {
        return None;
    }
    if rules::MAX_SYMBOL < symbol {
        return None;
    }
    let end = file_format::LETTERS + usize::from(f[file_format::LETTER_COUNT]);
    if f.len() != end + 1 {
        return None;
    }
    classes::masks::class_mask(&f[file_format::LETTERS..end])
}

// The class that the line at a place defines, none where it is of another type: refusal 14.
fn read_class(file: &[u8], at: usize, low: u8) -> Result<Option<ClassLine>, Refusal>
    requires { first_class ≤ low }
    ensures { result ≡ class_at at low (length file.now) (sound_line (drop at file.now)) }
{
    let mut frame = [0u8; file_format::LONGEST_CLASS];
    let Some(line) = frames::read_line(file, at, &mut frame) else {
        return Ok(None);
    };
    if frame[file_format::TYPE] != file_format::CLASS_TYPE {
        return Ok(None);
    }
    let n = line.len;
    if file_format::LONGEST_CLASS < n {
        return Err(Refusal::BadText(at));
    }
    let Some(mask) = class_in(&frame[..n], low) else {
        return Err(Refusal::BadText(at));
    };
    let next = line.next;
    let symbol = frame[file_format::SYMBOL];
    Ok(Some(ClassLine { next, symbol, mask }))
}

// The class lines from a place on, each class stored in bytes that hold none: where they end, or refusal 14 at one that defines none.
pub fn read_classes(file: &[u8], from: usize, masks: &mut [u8]) -> Result<usize, Refusal>
    requires { (from ≤ length file.now) × (masks.old ≡ replicate masks_size 0) }
    ensures end { result ≡ classes_end (length file.now) (read_defined (drop from file.now)) }
    ensures classes { masks.new ≡ masks_of (read_defined (drop from file.now)).classes }
{
    let mut at = from;
    let mut low = rules::FIRST_CLASS;
    for _ in 0..rules::CLASSES {
        let Some(line) = read_class(file, at, low)? else {
            return Ok(at);
        };
        let symbol = line.symbol;
        classes::storing::put_mask(&mut *masks, symbol, line.mask);
        low = symbol + 1;
        at = line.next;
    }
    Ok(at)
}
