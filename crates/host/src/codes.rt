// What an answer to a rule file is as numbers: a code, and a place or a count.
ghost use Rattle.std.specs.Prelude.{◌≡◌};
ghost use Rattle.rules.specs.Refusals.{report_of};
ghost use Rattle.host.specs.Files.{written_code, bytes_or_place};

use rules::Refusal;

pub fn written_code(written: Result<usize, Refusal>) -> u8
    ensures { result ≡ written_code (report_of written) }
{
    match written {
        Ok(_) => rules::ACCEPTED,
        Err(x) => rules::refusal_number(x),
    }
}

pub fn bytes_or_place(written: Result<usize, Refusal>) -> usize
    ensures { result ≡ bytes_or_place (report_of written) }
{
    match written {
        Ok(n) => n,
        Err(x) => rules::refusal_place(x),
    }
}
