// The literal rules of the ruleset that is tried: names are made of their letters.
ghost use Rattle.std.specs.Prelude.{◌≡◌, ◌<◌};
ghost use Rattle.image.specs.Image.{count_of, total_of};

use crate::ruleset::Ruleset;
use classes::ordinals;
use rules::{MAX_CONTEXT, Rule};

// A literal rule, and the place of its rule.
#[derive(Clone, Copy)]
pub struct Literal {
    pub rule: Rule,
    pub place: usize,
}

impl<'a> Ruleset<'a> {
    // How many literal rules there are.
    pub fn literal_count(&self) -> usize
        ensures { (result ≡ total_of self.now.image.bytes.now) × (result < 65536) }
    {
        self.image.literal_total()
    }

    // The literal rule at a place of the literal list: its rule with the letters of its ordinal in place of classes.
    pub fn literal_at(&self, p: usize) -> Literal
        requires { p < total_of self.now.image.bytes.now }
        ensures { result.place < count_of self.now.image.bytes.now }
    {
        let place = self.image.owner_at(p);
        let ordinal = self.image.ordinal_at(p);
        let masks = self.image.masks();
        let left = self.image.left_at(place);
        let right = self.image.right_at(place);
        let mut rule = self.rule_at(place);
        rule.left = [0; MAX_CONTEXT];
        rule.right = [0; MAX_CONTEXT];
        let rest = ordinals::put_choice(masks, right, ordinal, &mut rule.right);
        ordinals::put_choice(masks, left, rest, &mut rule.left);
        Literal { rule, place }
    }

    // Whether that is the last of several literal rules of its rule.
    pub fn is_last_literal(&self, p: usize) -> bool
        requires { p < total_of self.now.image.bytes.now }
    {
        let n = self.literal_count();
        self.image.ordinal_at(p) != 0 && (p + 1 == n || self.image.ordinal_at(p + 1) == 0)
    }
}
