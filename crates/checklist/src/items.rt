// The items on names: each finds its name in the ruleset, sends it through the walk and beside that through the plain reading.
use crate::names::MAX_FRAME;
use crate::printing::{Output, verdict};
use crate::ruleset::Ruleset;
use crate::searches::{Found, Tried, UNCOVERED};
use crate::speaking::{Came, Tables};
use std::fmt;
use std::fmt::Write;

// What each catches: a walk that stops before the last letter, which its phones do not show where that letter is silent; one that applies
// another than the first of the rules that fit, as the longest; one that takes a class for fewer letters than it has; one that skips or guesses
// what no rule covers.
#[derive(Clone, Copy)]
pub enum Item {
    SilentEnd,
    TwoFitting,
    LastLetters,
    Uncovered,
}

impl Item {
    fn title(self) -> &'static str {
        match self {
            Item::SilentEnd => "the last letter is silent: ",
            Item::TwoFitting => "two rules fit, the first in order is applied: ",
            Item::LastLetters => "the last letters of classes: ",
            Item::Uncovered => "a letter that no rule covers: ",
        }
    }

    fn find(self, rules: Ruleset<'_>, tried: &mut Tried) -> Option<Found> {
        match self {
            Item::SilentEnd => rules.silent_end(tried),
            Item::TwoFitting => rules.two_fitting(tried),
            Item::LastLetters => rules.last_letters(tried),
            Item::Uncovered => rules.uncovered(),
        }
    }

    // Whether what came of the walk is what the item asks for.
    fn is_right(self, rules: Ruleset<'_>, found: &Found, came: &Came) -> bool {
        match self {
            Item::SilentEnd => came.ends_silent(rules),
            Item::TwoFitting | Item::LastLetters => is_first_applied(rules, found, came),
            Item::Uncovered => came.spoken == Err(UNCOVERED),
        }
    }
}

// Whether the rule applied after the first letters is the first in order that fits there.
fn is_first_applied(rules: Ruleset<'_>, found: &Found, came: &Came) -> bool {
    let mut memory = [0; MAX_FRAME];
    let frame = found.name.framed(&mut memory);
    came.applied_after(rules, found.before) == rules.first_fitting(frame, found.before + 1)
}

impl fmt::Display for Found {
    fn fmt<W: fmt::Write>(&self, f: &mut fmt::Formatter<W>) -> fmt::Result {
        let name = self.name;
        write!(f, "{name}")?;
        if let Some((first, second)) = self.pair {
            let position = self.before + 1;
            write!(f, ", where rules {first} and {second} fit at {position}")?;
        }
        Ok(())
    }
}

// With the words that stand before it.
impl fmt::Display for Came {
    fn fmt<W: fmt::Write>(&self, f: &mut fmt::Formatter<W>) -> fmt::Result {
        if let Err(x) = self.spoken {
            return write!(f, ", came {x}");
        }
        write!(f, ", came rules")?;
        for number in self.applied() {
            write!(f, " {number}")?;
        }
        Ok(())
    }
}

// An item's line.
pub fn try_item(rt: &impl Print, item: Item, tables: Tables<'_>) {
    let rules = tables.rules;
    let title = item.title();
    let mut tried = Tried(0);
    let Some(found) = item.find(rules, &mut tried) else {
        let _ = write!(Output { rt }, "none   {title}{tried}");
        return;
    };
    let came = tables.walk(&found.name);
    let alike = came == rules.read(&found.name);
    let ok = verdict(alike && item.is_right(rules, &found, &came));
    let unlike = if alike {
        ""
    } else {
        ", unlike the plain reading"
    };
    let _ = writeln!(Output { rt }, "{ok}{title}tried {found}{came}{unlike}");
}
