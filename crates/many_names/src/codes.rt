// What an answer is as numbers: a code, and a place or a count.
ghost use Rattle.std.specs.Prelude.{◌≡◌};
ghost use Rattle.speech.specs.Speech.{told_of};
ghost use Rattle.many_names.specs.Codes.{spoken_code, phones_or_place, phones_given, numbers_given, contested_given};

use rules::Refusal;
use speech::Spoken;

pub fn spoken_code(speech: Result<Spoken, Refusal>) -> u8
    ensures { result ≡ spoken_code (told_of speech) }
{
    match speech {
        Ok(_) => rules::ACCEPTED,
        Err(x) => rules::refusal_number(x),
    }
}

pub fn phones_or_place(speech: Result<Spoken, Refusal>) -> usize
    ensures { result ≡ phones_or_place (told_of speech) }
{
    match speech {
        Ok(said) => said.phones,
        Err(x) => rules::refusal_place(x),
    }
}

pub fn phones_given(speech: Result<Spoken, Refusal>) -> usize
    ensures { result ≡ phones_given (told_of speech) }
{
    match speech {
        Ok(said) => said.phones,
        Err(_) => 0, // a refused name takes no bytes
    }
}

pub fn numbers_given(speech: Result<Spoken, Refusal>) -> usize
    ensures { result ≡ numbers_given (told_of speech) }
{
    match speech {
        Ok(said) => said.numbers,
        Err(_) => 0,
    }
}

pub fn contested_given(speech: Result<Spoken, Refusal>) -> usize
    ensures { result ≡ contested_given (told_of speech) }
{
    match speech {
        Ok(said) => said.contested,
        Err(_) => 0,
    }
}
