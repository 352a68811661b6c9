// The edits of a ruleset in lent memory, in place (document 01, "The ledger"; document 02, requests 5 and 6).
#![tactic(auto)]

ghost use Rattle.std.specs.Prelude.{◌≡◌, true, ◌<◌, ◌≤◌, length, MatchOption};
ghost use Rattle.rules.specs.Limits.{max_rules};
ghost use Rattle.rules.specs.Refusals.{reply_of};
ghost use Rattle.rules.specs.Shape.{shape, view};
ghost use Rattle.classes.specs.Counting.{capped};
ghost use Rattle.classes.specs.Expansion.{literal_count};
ghost use Rattle.image.specs.Image.{image_size, rules_in, classes_of, ledger_of, valid, outcome};
ghost use Rattle.edits.specs.Ledger.{Edit, place_of, judged};
ghost use Rattle.edits.specs.Edits.{edited};

use image::ruleset::Ruleset;
use rules::{Numbered, Refusal, Rule};

// The place of the rule numbered `number` among the first `count`.
fn place_of(image: &[u8], count: usize, number: u16) -> Option<usize>
    requires { (count ≤ max_rules) × (image_size ≤ length image.now) }
    ensures { MatchOption result (place_of number (rules_in count image.now) ≡ count) (λ k. (k ≡ place_of number (rules_in count image.now)) × (k < count)) }
{
    for i in 0..count {
        let n = image::number_at(image, i);
        if n == number {
            return Some(i);
        }
    }
    None
}

// How many literal rules a rule has by the classes of the image, counted to 513: 0 where a class that it uses is undefined.
fn literals_of(image: &[u8], rule: Rule) -> usize
    requires { (image_size ≤ length image.now) × (shape (view rule) ≡ true) }
    ensures { (result ≡ capped (literal_count (classes_of image.now) (view rule))) × (result ≤ 513) }
{
    let left = rule.left;
    let right = rule.right;
    let a = rule.left_len as usize;
    let b = rule.right_len as usize;
    classes::runs::literal_count(image::class_bytes::masks(image), &left[..a], &right[..b])
}

// The answer of Add(rule, p): the limit of 512 counts literal rules.
fn judge_add(rules: Ruleset<'_>, rule: Rule, p: usize) -> Result<(), Refusal>
    ensures { reply_of result ≡ judged (ledger_of rules.entry.bytes.now) (Edit.Add rule p) }
{
    if !rules::well_shaped(rule) {
        return Err(Refusal::Shape(0));
    }
    let n = literals_of(rules.bytes, rule);
    if n == 0 {
        return Err(Refusal::BadClass(0));
    }
    if rules.rule_count() < p {
        return Err(Refusal::Place(0));
    }
    if rules::MAX_RULES < rules.literal_total() + n {
        return Err(Refusal::Full(0));
    }
    if rules::MAX_NUMBER <= rules.last_issued() {
        return Err(Refusal::LastIssued(0));
    }
    if rules::MAX_EDITS <= rules.edit_count() {
        return Err(Refusal::EditsSpent(0));
    }
    Ok(())
}

// Add(rule, p).
pub fn add_rule(image: &mut [u8], rule: Rule, p: usize) -> Result<(), Refusal>
    ensures { outcome (reply_of result) image.new ≡ edited image.old (Edit.Add rule p) }
{
    if !image::is_ruleset(image) {
        return Err(Refusal::NotRuleset(0));
    }
    judge_add(Ruleset { bytes: image }, rule, p)?;
    let last = image::last_issued(image);
    let number = last + 1;
    slots::insert(image, p, Numbered { number, rule }, number);
    image::table::settle(image);
    Ok(())
}

// Drop(number).
pub fn drop_rule(image: &mut [u8], number: u16) -> Result<(), Refusal>
    ensures { outcome (reply_of result) image.new ≡ edited image.old (Edit.Drop number) }
{
    if !image::is_ruleset(image) {
        return Err(Refusal::NotRuleset(0));
    }
    let count = image::rule_count(image);
    let Some(k) = place_of(image, count, number) else {
        return Err(Refusal::NoNumber(0));
    };
    if rules::MAX_EDITS <= image::edit_count(image) {
        return Err(Refusal::EditsSpent(0));
    }
    slots::remove(image, k);
    image::table::settle(image);
    Ok(())
}

// Move(number, p).
pub fn move_rule(image: &mut [u8], number: u16, p: usize) -> Result<(), Refusal>
    ensures { outcome (reply_of result) image.new ≡ edited image.old (Edit.Move number p) }
{
    if !image::is_ruleset(image) {
        return Err(Refusal::NotRuleset(0));
    }
    let count = image::rule_count(image);
    let Some(k) = place_of(image, count, number) else {
        return Err(Refusal::NoNumber(0));
    };
    if count <= p {
        return Err(Refusal::Place(0));
    }
    if rules::MAX_EDITS <= image::edit_count(image) {
        return Err(Refusal::EditsSpent(0));
    }
    slots::relocate(image, k, p);
    image::table::settle(image);
    Ok(())
}

// SetClass(symbol, letters): only a class that no rule uses can be set.
pub fn set_class(image: &mut [u8], symbol: u8, letters: &[u8]) -> Result<(), Refusal>
    ensures { outcome (reply_of result) image.new ≡ edited image.old (Edit.SetClass symbol letters.now) }
{
    if !image::is_ruleset(image) {
        return Err(Refusal::NotRuleset(0));
    }
    if symbol < rules::FIRST_CLASS {
        return Err(Refusal::BadClass(0));
    }
    if rules::MAX_SYMBOL < symbol {
        return Err(Refusal::BadClass(0));
    }
    let Some(mask) = classes::masks::class_mask(letters) else {
        return Err(Refusal::BadClass(0));
    };
    let rules = Ruleset { bytes: image };
    if rules.in_use(symbol) {
        return Err(Refusal::BadClass(0));
    }
    image::class_bytes::put_class(image, symbol, mask);
    Ok(())
}
