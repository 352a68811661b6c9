// Memory that is known to be a ruleset (document 01, refusal 0), and what is read of it.
ghost use Rattle.std.specs.Prelude.{◌≡◌, true, false, ◌<◌, MatchOption, get_or};
ghost use Rattle.classes.specs.Ordinal.{origin};
ghost use Rattle.classes.specs.Setting.{list_uses};
ghost use Rattle.image.specs.Image.{valid, count_of, last_of, edits_of, total_of, numbered_at, entry_at, entries_of, origins_of, masks_in};

use crate::{ORIGIN, RULES, SLOT, TABLE};
use rules::Numbered;

// A ruleset. Whoever makes one shows that the memory is one.
#[derive(Clone, Copy)]
pub struct Ruleset<'a> {
    pub bytes: &'a [u8],
    pub ghost sound: { valid bytes.now ≡ true },
}

#[tactic(auto, using(crate::proofs::Tests::valid_long, crate::proofs::Tests::valid_count, crate::proofs::Literals::total_few))]
impl<'a> Ruleset<'a> {
    // The ruleset that lent memory is, if it is one.
    pub fn judge(bytes: &'a [u8]) -> Option<Ruleset<'a>>
        ensures { MatchOption result (valid bytes.now ≡ false) (λ r. r.bytes.now ≡ bytes.now) }
    {
        if !crate::is_ruleset(bytes) {
            return None;
        }
        Some(Ruleset { bytes })
    }

    // How many rules there are.
    pub fn rule_count(self) -> usize
        ensures { result ≡ count_of self.entry.bytes.now }
    {
        crate::rule_count(self.bytes)
    }

    // The last number issued.
    pub fn last_issued(self) -> u16
        ensures { result ≡ last_of self.entry.bytes.now }
    {
        crate::last_issued(self.bytes)
    }

    // How many additions, drops and moves were accepted.
    pub fn edit_count(self) -> u32
        ensures { result ≡ edits_of self.entry.bytes.now }
    {
        crate::edit_count(self.bytes)
    }

    // The rule at a place, as it was handed in.
    pub fn rule_at(self, place: usize) -> Numbered
        requires { place < count_of self.bytes.now }
        ensures { result ≡ numbered_at self.entry.bytes.now place }
    {
        crate::rule_at(self.bytes, place)
    }

    // Its number.
    pub fn number_at(self, place: usize) -> u16
        requires { place < count_of self.bytes.now }
        ensures { result ≡ (numbered_at self.entry.bytes.now place).number }
    {
        crate::number_at(self.bytes, place)
    }

    // Its left context.
    pub fn left_at(self, place: usize) -> &'a [u8]
        requires { place < count_of self.bytes.now }
        ensures { result.now ≡ (entry_at self.entry.bytes.now place).rule.left }
    {
        let at = RULES + SLOT * place;
        crate::run_at(self.bytes, at + rule_bytes::LEFT_LEN, at + rule_bytes::LEFT)
    }

    // Its target.
    pub fn target_at(self, place: usize) -> &'a [u8]
        requires { place < count_of self.bytes.now }
        ensures { result.now ≡ (entry_at self.entry.bytes.now place).rule.target }
    {
        let at = RULES + SLOT * place;
        crate::run_at(
            self.bytes,
            at + rule_bytes::TARGET_LEN,
            at + rule_bytes::TARGET,
        )
    }

    // Its right context.
    pub fn right_at(self, place: usize) -> &'a [u8]
        requires { place < count_of self.bytes.now }
        ensures { result.now ≡ (entry_at self.entry.bytes.now place).rule.right }
    {
        let at = RULES + SLOT * place;
        crate::run_at(
            self.bytes,
            at + rule_bytes::RIGHT_LEN,
            at + rule_bytes::RIGHT,
        )
    }

    // Its phones.
    pub fn phones_at(self, place: usize) -> &'a [u8]
        requires { place < count_of self.bytes.now }
        ensures { result.now ≡ (entry_at self.entry.bytes.now place).rule.phones }
    {
        let at = RULES + SLOT * place;
        crate::run_at(
            self.bytes,
            at + rule_bytes::PHONES_LEN,
            at + rule_bytes::PHONES,
        )
    }

    // The masks of its letter classes.
    pub fn masks(self) -> &'a [u8]
        ensures { result.now ≡ masks_in self.entry.bytes.now }
    {
        crate::class_bytes::masks(self.bytes)
    }

    // How many literal rules there are.
    pub fn literal_total(self) -> usize
        ensures { result ≡ total_of self.entry.bytes.now }
    {
        crate::table::literal_total(self.bytes)
    }

    // The place of the rule that a literal rule comes from.
    pub fn owner_at(self, p: usize) -> usize
        requires { p < total_of self.bytes.now }
        ensures { (result ≡ (get_or (origins_of self.entry.bytes.now) p (origin 0 0)).place) × (result < count_of self.entry.bytes.now) }
    {
        usize::from(numbers::two_at(self.bytes, TABLE + ORIGIN * p))
    }

    // Which of that rule's literal rules it is.
    pub fn ordinal_at(self, p: usize) -> usize
        requires { p < total_of self.bytes.now }
        ensures { result ≡ (get_or (origins_of self.entry.bytes.now) p (origin 0 0)).ordinal }
    {
        usize::from(numbers::two_at(self.bytes, TABLE + ORIGIN * p + 2))
    }

    // Whether a rule uses a class.
    pub fn in_use(self, symbol: u8) -> bool
        ensures { result ≡ list_uses symbol (entries_of self.entry.bytes.now) }
    {
        let count = self.rule_count();
        for i in 0..count {
            let left = self.left_at(i);
            let right = self.right_at(i);
            if classes::runs::uses(left, right, symbol) {
                return true;
            }
        }
        false
    }
}
