// The read-out of the exceptions list (document 02, request 1): every listed name with its phones, in letter order.
#![tactic(auto)]

mod writing;

ghost use Rattle.std.specs.Prelude.{◌≡◌, true, length};
ghost use Rattle.rules.specs.Refusals.{report_of};
ghost use Rattle.exceptions.specs.Judging.{is_list};
ghost use Rattle.readout.specs.Texts.{Wrote};
ghost use Rattle.readout.specs.ReadOut.{list_text, reading, read_out};

use rules::Refusal;

// The text of a list, at the front of the lent bytes where it has room. Gives its length.
fn write_text(list: &[u32], out: &mut [u8]) -> usize
    requires { is_list list.now ≡ true }
    ensures { Wrote (list_text list.now) 0 out.old out.new result }
{
    let words = &list[..exceptions::SIZE];
    let n = exceptions::start_of(words);
    let mut path = [0u8; rules::MAX_NAME];
    writing::write_from(words, n, n, &mut path, 0, rules::MAX_NAME, out, 0)
}

// The length of the text of a list.
fn text_length(list: &[u32]) -> usize
    requires { is_list list.now ≡ true }
    ensures { result ≡ length (list_text list.now) }
{
    let mut none = [0u8; 0];
    write_text(list, &mut none)
}

// The read-out of a lent list, at the front of lent bytes. Refusals 17 and 15, the place of which is the length needed, leave them as they were.
pub fn read_out(list: &[u32], out: &mut [u8]) -> Result<usize, Refusal>
    ensures { reading (report_of result) out.new ≡ read_out list.now out.old }
{
    if !exceptions::is_list(list) {
        return Err(Refusal::BadList(0));
    }
    let needed = text_length(list);
    if out.len() < needed {
        return Err(Refusal::FileRoom(needed));
    }
    write_text(list, out);
    Ok(needed)
}
