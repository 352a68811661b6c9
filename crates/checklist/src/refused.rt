// A refusal, as it is printed and compared.
ghost use Rattle.std.specs.Prelude.{◌≡◌, IfOk};
ghost use Rattle.rules.specs.Refusals.{reply_of, accepted};

use rules::Refusal;
use std::fmt;

// Its number and its place.
#[derive(Clone, Copy, PartialEq, Eq)]
pub struct Refused {
    pub number: u8,
    pub place: usize,
}

impl From<Refusal> for Refused {
    fn from(x: Refusal) -> Refused {
        Refused {
            number: rules::refusal_number(x),
            place: rules::refusal_place(x),
        }
    }
}

impl fmt::Display for Refused {
    fn fmt<W: fmt::Write>(&self, f: &mut fmt::Formatter<W>) -> fmt::Result {
        let number = self.number;
        let place = self.place;
        write!(f, "refused {number} at {place}")
    }
}

// A call's answer, as a result.
pub fn accepted(answer: Result<(), Refusal>) -> Result<(), Refused>
    ensures { IfOk result (λ _. reply_of answer ≡ accepted) }
{
    match answer {
        Ok(()) => Ok(()),
        Err(x) => Err(Refused::from(x)),
    }
}

// What came of an edit.
#[derive(Clone, Copy)]
pub struct Outcome(pub Result<(), Refused>);

impl fmt::Display for Outcome {
    fn fmt<W: fmt::Write>(&self, f: &mut fmt::Formatter<W>) -> fmt::Result {
        match self.0 {
            Ok(()) => write!(f, "accepted"),
            Err(x) => write!(f, "{x}"),
        }
    }
}
