// The ruleset that is tried: its rules by their places, and where they fit.
ghost use Rattle.std.specs.Prelude.{◌≡◌, ◌<◌, IfSome};
ghost use Rattle.image.specs.Image.{count_of};

use rules::Rule;

#[derive(Clone, Copy)]
pub struct Ruleset<'a> {
    pub image: image::ruleset::Ruleset<'a>,
}

impl<'a> Ruleset<'a> {
    // How many rules there are.
    pub fn count(&self) -> usize
        ensures { result ≡ count_of self.now.image.bytes.now }
    {
        self.image.rule_count()
    }

    // The last number issued.
    pub fn last_issued(&self) -> u16 {
        self.image.last_issued()
    }

    // The rule at a place.
    pub fn rule_at(&self, place: usize) -> Rule
        requires { place < count_of self.now.image.bytes.now }
    {
        self.image.rule_at(place).rule
    }

    // Its number.
    pub fn number_at(&self, place: usize) -> u16
        requires { place < count_of self.now.image.bytes.now }
    {
        self.image.number_at(place)
    }

    // The rule that has a number.
    pub fn with_number(&self, number: u16) -> Option<Rule> {
        for p in 0..self.count() {
            if self.number_at(p) == number {
                return Some(self.rule_at(p));
            }
        }
        None
    }

    // The place of the rule with the highest number.
    pub fn newest(&self) -> Option<usize>
        ensures { IfSome result (λ p. p < count_of self.now.image.bytes.now) }
    {
        let n = self.count();
        if n == 0 {
            return None;
        }
        let mut newest = 0;
        for p in 1..n {
            if self.number_at(newest) < self.number_at(p) {
                newest = p;
            }
        }
        Some(newest)
    }

    // Whether the rule at a place fits at a position of a framed name.
    pub fn fits(&self, place: usize, frame: &[u8], i: usize) -> bool
        requires { place < count_of self.now.image.bytes.now }
    {
        i <= frame.len() && fitting::fits_at(self.image.bytes, place, frame, i)
    }

    // The number of the first rule in order that fits there.
    pub fn first_fitting(&self, frame: &[u8], i: usize) -> Option<u16> {
        for p in 0..self.count() {
            if self.fits(p, frame, i) {
                return Some(self.number_at(p));
            }
        }
        None
    }
}
