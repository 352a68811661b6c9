// The search of a ruleset for a name that an item of the checklist can be tried with. Names are made of the literal rules' letters and tried by
// the plain reading, in a fixed order, and no more than MAX_TRIED of them.
ghost use Rattle.std.specs.Prelude.{◌<◌, ◌≤◌};
ghost use Rattle.image.specs.Image.{count_of, total_of};

use crate::literal_rules::Literal;
use crate::names;
use crate::names::{MAX_FRAME, Name, Overlaid};
use crate::refused::Refused;
use crate::ruleset::Ruleset;
use rules::{MAX_LETTER, Rule};
use std::fmt;

const MAX_TRIED: usize = 4096;

// A letter that no rule covers, the first of a name, is refused so.
pub const UNCOVERED: Refused = Refused {
    number: 3,
    place: 1,
};

// The name found. Where it was sought for rules that fit at a position, that is after its first `before` letters; where it was for two of them,
// these have the numbers in `pair`.
#[derive(Clone, Copy)]
pub struct Found {
    pub name: Name,
    pub before: usize,
    pub pair: Option<(u16, u16)>,
    ghost within: { before ≤ 64 },
}

impl Found {
    fn new(name: Name) -> Found {
        Found {
            name,
            before: 0,
            pair: None,
        }
    }
}

// How many names were tried in vain.
#[derive(Clone, Copy)]
pub struct Tried(pub usize);

impl Tried {
    fn one_more(&mut self) {
        self.0 = self.0.saturating_add(1);
    }

    // Whether no more names are tried.
    fn is_over(&self) -> bool {
        MAX_TRIED <= self.0
    }
}

// How a line ends where nothing served; names tried in vain leave open whether the ruleset has one.
impl fmt::Display for Tried {
    fn fmt<W: fmt::Write>(&self, f: &mut fmt::Formatter<W>) -> fmt::Result {
        match self.0 {
            0 => writeln!(f, "none in this ruleset"),
            n => writeln!(f, "none found, names tried: {n}"),
        }
    }
}

impl<'a> Ruleset<'a> {
    // ---- a name whose last letter is silent

    fn try_silent(&self, tried: &mut Tried, name: Name) -> Option<Found> {
        tried.one_more();
        let came = self.read(&name);
        came.ends_silent(*self).then_some(Found::new(name))
    }

    // A silent rule at the end of a name: after the target of each rule in turn, then alone.
    fn silent_rule(&self, tried: &mut Tried, rule: &Rule) -> Option<Found> {
        if rule.phone_len != 0 || !names::can_end(rule) {
            return None;
        }
        for k in 0..self.count() {
            if tried.is_over() {
                return None;
            }
            let before = Name::new().with_target(&self.rule_at(k));
            let found = self.try_silent(tried, before.with_left(rule).with_target(rule));
            if found.is_some() {
                return found;
            }
        }
        if tried.is_over() {
            return None;
        }
        self.try_silent(tried, Name::new().with_left(rule).with_target(rule))
    }

    pub fn silent_end(&self, tried: &mut Tried) -> Option<Found> {
        for p in 0..self.literal_count() {
            if tried.is_over() {
                return None;
            }
            let literal = self.literal_at(p);
            let found = self.silent_rule(tried, &literal.rule);
            if found.is_some() {
                return found;
            }
        }
        None
    }

    // ---- a name where two rules fit

    // Literal rules of two rules, the second after the first and, where this is asked, longer.
    fn try_pair(
        &self,
        tried: &mut Tried,
        first: Literal,
        second: Literal,
        longer: bool,
    ) -> Option<Found>
        requires { (first.place < count_of self.now.image.bytes.now) × (second.place < count_of self.now.image.bytes.now) }
    {
        if second.place <= first.place {
            return None;
        }
        if longer && !names::is_longer(&second.rule, &first.rule) {
            return None;
        }
        let Overlaid { name, before } = names::overlay(&first.rule, &second.rule);
        let mut memory = [0; MAX_FRAME];
        let frame = name.framed(&mut memory);
        if !self.fits(first.place, frame, before + 1)
            || !self.fits(second.place, frame, before + 1)
        {
            return None;
        }
        tried.one_more();
        self.read(&name).applied_after(*self, before)?;
        let pair = Some((self.number_at(first.place), self.number_at(second.place)));
        Some(Found { name, before, pair })
    }

    // Each literal rule with each after it.
    fn pairs(&self, tried: &mut Tried, longer: bool) -> Option<Found> {
        let n = self.literal_count();
        for p in 0..n {
            let first = self.literal_at(p);
            for q in p..n {
                if tried.is_over() {
                    return None;
                }
                let found = self.try_pair(tried, first, self.literal_at(q), longer);
                if found.is_some() {
                    return found;
                }
            }
        }
        None
    }

    // Two rules of which the second is longer serve best: there the first is not also the longest.
    pub fn two_fitting(&self, tried: &mut Tried) -> Option<Found> {
        let longer = self.pairs(tried, true);
        if longer.is_some() {
            return longer;
        }
        *tried = Tried(0);
        self.pairs(tried, false)
    }

    // ---- a name where a rule is applied by the last letters of its classes

    // The last literal rule of a rule with classes, in the shortest name in which it could fit.
    fn try_last(&self, tried: &mut Tried, p: usize) -> Option<Found>
        requires { p < total_of self.now.image.bytes.now }
    {
        if !self.is_last_literal(p) {
            return None;
        }
        let Literal { rule, place } = self.literal_at(p);
        let Overlaid { name, before } = names::overlay(&rule, &rule);
        tried.one_more();
        let applied = self.read(&name).applied_after(*self, before);
        (applied == Some(self.number_at(place))).then_some(Found {
            name,
            before,
            pair: None,
        })
    }

    pub fn last_letters(&self, tried: &mut Tried) -> Option<Found> {
        for p in 0..self.literal_count() {
            if tried.is_over() {
                return None;
            }
            let found = self.try_last(tried, p);
            if found.is_some() {
                return found;
            }
        }
        None
    }

    // ---- a letter that no rule covers

    // Each letter is tried, so where none is found there is none.
    pub fn uncovered(&self) -> Option<Found> {
        for x in 1..=MAX_LETTER {
            let mut name = Name::new();
            name.push(x);
            if self.read(&name).spoken == Err(UNCOVERED) {
                return Some(Found::new(name));
            }
        }
        None
    }
}
