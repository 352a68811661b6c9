// The items on the file and the edits.
ghost use Rattle.std.specs.Prelude.{◌<◌, ◌≤◌, length};
ghost use Rattle.rules.specs.Limits.{max_rules};
ghost use Rattle.image.specs.Image.{image_size};

use crate::printing::{Output, verdict};
use crate::refused::{Outcome, Refused, accepted};
use crate::ruleset::Ruleset;
use crate::searches::Tried;
use rules::{MAX_NUMBER, Refusal, Rule};
use std::fmt::Write;

// Whether the ruleset's file has just these bytes.
fn writes(image: &[u8], file: &[u8], out: &mut [u8]) -> bool {
    match file::write_file(image, &mut *out) {
        Ok(n) => out.get(..n).is_some_and(|bytes| bytes == file),
        Err(_) => false,
    }
}

fn same(ok: bool) -> &'static str {
    if ok {
        ", came the same "
    } else {
        ", came other than its "
    }
}

// Catches a ruleset that is not held as its file says.
pub fn read_back(rt: &impl Print, image: &[u8], file: &[u8], out: &mut [u8]) {
    let ok = writes(image, file, out);
    let verdict = verdict(ok);
    let same = same(ok);
    let n = file.len();
    let _ = writeln!(
        Output { rt },
        "{verdict}the rule file read back: tried rules.hex{same}{n} bytes"
    );
}

// Catches a drop that gives `last` back.
fn drop_one(rt: &impl Print, image: &mut [u8], number: u16, last: u16)
    requires { image_size ≤ length image.old }
{
    let answer = accepted(edits::drop_rule(&mut *image, number));
    let now = image::last_issued(image);
    let verdict = verdict(answer.is_ok() && now == last);
    let came = Outcome(answer);
    let _ = writeln!(
        Output { rt },
        "{verdict}a rule leaves: tried number {number}, came {came}, the last number is {now}"
    );
}

// Catches a number that is given twice: a rule gets the number after `last`, which is then the last. Where no number is left, it is to be refused
// for that.
fn add_one(rt: &impl Print, image: &mut [u8], rule: Rule, place: usize, last: u16)
    requires { (image_size ≤ length image.old) × (place < max_rules) }
{
    let answer = accepted(edits::add_rule(&mut *image, rule, place));
    let now = image::last_issued(image);
    let number = image::number_at(image, place);
    let ok = if last == MAX_NUMBER {
        answer.is_err_and(|x| x.number == 10) && now == last
    } else {
        answer.is_ok() && last.checked_add(1) == Some(number) && now == number
    };
    let verdict = verdict(ok);
    let came = Outcome(answer);
    let _ = writeln!(
        Output { rt },
        "{verdict}no number is given twice: tried a rule at place {place} after number {last}, came {came}, the last number is {now}"
    );
}

// A rule for the letter a.
const RULE_FOR_A: Rule = Rule {
    left_len: 0,
    target_len: 1,
    right_len: 0,
    phone_len: 1,
    left: [0; rules::MAX_CONTEXT],
    target: [1, 0, 0, 0],
    right: [0; rules::MAX_CONTEXT],
    phones: [0x61, 0, 0, 0],
};

// The rule of the highest number leaves and is added again at its place; an empty ruleset gets a rule. `last` is the last number before all
// that.
#[tactic(auto, using(image::proofs::Tests::valid_long, image::proofs::Tests::valid_count))]
pub fn edit(rt: &impl Print, image: &mut [u8]) {
    let Some(judged) = image::ruleset::Ruleset::judge(image) else {
        // The memory is no ruleset any more, and so no edit of it is accepted.
        let fault = verdict(false);
        let came = Refused::from(Refusal::NotRuleset(0));
        let _ = writeln!(Output { rt }, "{fault}a rule leaves: came {came}");
        let _ = writeln!(
            Output { rt },
            "{fault}no number is given twice: came {came}"
        );
        return;
    };
    let rules = Ruleset { image: judged };
    let last = rules.last_issued();
    let Some(place) = rules.newest() else {
        let _ = write!(Output { rt }, "none   a rule leaves: {}", Tried(0));
        add_one(rt, image, RULE_FOR_A, 0, last);
        return;
    };
    let rule = rules.rule_at(place);
    let number = rules.number_at(place);
    drop_one(rt, &mut *image, number, last);
    add_one(rt, image, rule, place, last);
}

// Catches a reading that keeps something of what the memory held; the ruleset is then as it was.
pub fn restore(rt: &impl Print, image: &mut [u8], file: &[u8], out: &mut [u8]) {
    let read = accepted(file::read_file(file, &mut *image));
    let ok = read.is_ok() & writes(image, file, out);
    let verdict = verdict(ok);
    let same = same(ok);
    let n = file.len();
    let _ = writeln!(
        Output { rt },
        "{verdict}the ruleset as it was: tried rules.hex again{same}{n} bytes"
    );
}
