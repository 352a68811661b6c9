// A name through the walk and by the plain reading.
use crate::names::Name;
use crate::refused::Refused;
use crate::ruleset::Ruleset;
use rules::Refusal;
use speech::Spoken;

// What came of a name, with the memory for its phones and for the numbers of the rules applied.
#[derive(Clone, Copy, PartialEq, Eq)]
pub struct Came {
    pub spoken: Result<Spoken, Refused>,
    phones: [u8; 256],
    numbers: [u16; 64],
}

// The ruleset with its tables.
#[derive(Clone, Copy)]
pub struct Tables<'a> {
    pub rules: Ruleset<'a>,
    pub words: &'a [u16],
    pub sets: &'a [u64],
}

impl<'a> Tables<'a> {
    // The walk of a name.
    pub fn walk(&self, name: &Name) -> Came {
        let mut phones = [0; 256];
        let mut numbers = [0; 64];
        let answer = compiled::speak_valid(
            self.rules.image.bytes,
            self.words,
            self.sets,
            name.as_slice(),
            &mut phones,
            &mut numbers,
        );
        Came::new(answer.speech, phones, numbers)
    }
}

impl<'a> Ruleset<'a> {
    // The plain reading of a name.
    pub fn read(&self, name: &Name) -> Came {
        let mut phones = [0; 256];
        let mut numbers = [0; 64];
        let speech = reading::read_valid(
            self.image.bytes,
            name.as_slice(),
            &mut phones,
            &mut numbers,
        );
        Came::new(speech, phones, numbers)
    }
}

impl Came {
    fn new(speech: Result<Spoken, Refusal>, phones: [u8; 256], numbers: [u16; 64]) -> Came {
        let spoken = match speech {
            Ok(said) => Ok(said),
            Err(x) => Err(Refused::from(x)),
        };
        Came {
            spoken,
            phones,
            numbers,
        }
    }

    // The numbers of the rules applied.
    pub fn applied(&self) -> &[u16] {
        let n = self.spoken.map_or(0, |said| said.numbers);
        self.numbers.get(..n).unwrap_or(&self.numbers)
    }

    // Whether the last rule applied has no phones.
    pub fn ends_silent(&self, rules: Ruleset<'_>) -> bool {
        let Some(&number) = self.applied().last() else {
            return false;
        };
        rules
            .with_number(number)
            .is_some_and(|rule| rule.phone_len == 0)
    }

    // The number of the rule applied after the first `before` letters; none where the reading does not stop there.
    pub fn applied_after(&self, rules: Ruleset<'_>, before: usize) -> Option<u16> {
        let mut left = before;
        for &number in self.applied() {
            if left == 0 {
                return Some(number);
            }
            let rule = rules.with_number(number)?;
            left = left.checked_sub(usize::from(rule.target_len))?;
        }
        None
    }
}
