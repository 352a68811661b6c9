// Both tables of a ruleset, built into lent words with its edit count (document 01, "The tables"; document 02, request 6).
#![tactic(auto)]

ghost use Rattle.std.specs.Prelude.{◌≡◌, ◌+◌, ◌*◌, ◌/◌, ◌≤◌, ◌<◌, true, false, length};
ghost use Rattle.rules.specs.Memory.{over};
ghost use Rattle.rules.specs.Refusals.{reply_of};
ghost use Rattle.image.specs.Image.{total_of, edits_of, literals_of};
ghost use Rattle.tables.specs.States.{left_states, right_states};
ghost use Rattle.tables.specs.Words.{head_words, row_size, set_size, words_head, rows_of, sets_of, built_words, built_sets, words_for, sets_for, building, built_from, built};
ghost use Rattle.patterns.specs.Sides.{side_table, Scratch};
ghost use Rattle.build.specs.Counting.{Counted};

use image::ruleset::Ruleset;
use rules::Refusal;

// ---- one side

// How many states a side has.
fn count_side(rules: Ruleset<'_>, n: usize, right: bool, pats: &mut [u8], lens: &mut [u8]) -> usize
    requires { (n ≡ total_of rules.bytes.now) × Scratch pats.old lens.old }
    ensures { Counted rules.entry.bytes.now right result pats.new lens.new }
{
    patterns::lay_side(rules, n, right, pats, lens);
    count::count_states(pats, lens, n)
}

// The rows and the sets of a side, from where the lent parts start, and how many states it has.
fn fill_part(
    rules: Ruleset<'_>,
    n: usize,
    right: bool,
    pats: &mut [u8],
    lens: &mut [u8],
    rows: &mut [u16],
    sets: &mut [u64],
) -> usize
    requires { (n ≡ total_of rules.bytes.now) × (row_size * (side_table rules.bytes.now right).count ≤ length rows.old) × (set_size * (side_table rules.bytes.now right).count ≤ length sets.old) × Scratch pats.old lens.old }
    ensures rows { rows.new ≡ over (rows_of (side_table rules.entry.bytes.now right)) rows.old }
    ensures sets { sets.new ≡ over (sets_of (side_table rules.entry.bytes.now right)) sets.old }
    ensures count { Counted rules.entry.bytes.now right result pats.new lens.new }
{
    patterns::lay_side(rules, n, right, pats, lens);
    side::fill_side(rows, sets, pats, lens, n)
}

// ---- both sides

// The words before the rows: the edit count, high word first, and the two state counts.
fn put_counts(words: &mut [u16], edits: u32, left: u16, right: u16)
    requires { head_words ≤ length words.old }
    ensures { words.new ≡ over (words_head edits left right) words.old }
{
    words[tables::EDITS_HIGH] = (edits / 65536) as u16;
    words[tables::EDITS_LOW] = (edits % 65536) as u16;
    words[tables::LEFT_COUNT] = left;
    words[tables::RIGHT_COUNT] = right;
}

// The left table after the head, directly after it the right table, and the head with the edit count and the counts that the fillings gave; the left
// sets, then the right sets.
fn fill(
    rules: Ruleset<'_>,
    n: usize,
    pats: &mut [u8],
    lens: &mut [u8],
    words: &mut [u16],
    sets: &mut [u64],
)
    requires { (n ≡ total_of rules.bytes.now) × (words_for (literals_of rules.bytes.now) ≤ length words.old) × (sets_for (literals_of rules.bytes.now) ≤ length sets.old) × Scratch pats.old lens.old }
    ensures words { words.new ≡ over (built_words (edits_of rules.entry.bytes.now) (literals_of rules.entry.bytes.now)) words.old }
    ensures sets { sets.new ≡ over (built_sets (literals_of rules.entry.bytes.now)) sets.old }
{
    let l = fill_part(
        rules,
        n,
        false,
        pats,
        lens,
        &mut words[tables::HEAD..],
        sets,
    );
    let a = tables::HEAD + tables::ROW * l;
    let b = tables::SET * l;
    let r = fill_part(rules, n, true, pats, lens, &mut words[a..], &mut sets[b..]);
    put_counts(words, rules.edit_count(), l as u16, r as u16);
}

// No fewer than the states of both sides: each has one for the empty string, and each symbol of a pattern gives one at most.
fn most_states(rules: Ruleset<'_>, n: usize) -> usize
    requires { (n ≡ total_of rules.bytes.now) }
    ensures { ((side_table rules.entry.bytes.now false).count + (side_table rules.entry.bytes.now true).count ≤ result) × (result ≤ left_states + right_states) }
{
    let mut most: usize = 2;
    for i in 0..n {
        let place = rules.owner_at(i);
        let left = rules.left_at(place);
        let target = rules.target_at(place);
        let right = rules.right_at(place);
        most += left.len() + target.len() + right.len();
    }
    most
}

// Counts the states, then builds the tables or says what is needed and touches no lent word.
fn build_counted(
    rules: Ruleset<'_>,
    n: usize,
    pats: &mut [u8],
    lens: &mut [u8],
    words: &mut [u16],
    sets: &mut [u64],
) -> Result<(), Refusal>
    requires { (n ≡ total_of rules.bytes.now) × Scratch pats.old lens.old }
    ensures { building (reply_of result) words.new sets.new ≡ built_from (edits_of rules.entry.bytes.now) (literals_of rules.entry.bytes.now) words.old sets.old }
{
    let l = count_side(rules, n, false, pats, lens);
    let r = count_side(rules, n, true, pats, lens);
    let needed = tables::HEAD + tables::ROW * (l + r);
    let places = tables::SET * (l + r);
    if words.len() < needed {
        return Err(Refusal::WordsRoom(needed));
    }
    if sets.len() < places {
        return Err(Refusal::SetsRoom(places));
    }
    fill(rules, n, pats, lens, words, sets);
    Ok(())
}

// Builds the tables with scratch memory for the patterns of one side at a time. Memory that has room for any ruleset of so many symbols
// is filled at once; only where it has less are the states counted first.
fn build_with(
    rules: Ruleset<'_>,
    pats: &mut [u8],
    lens: &mut [u8],
    words: &mut [u16],
    sets: &mut [u64],
) -> Result<(), Refusal>
    requires { Scratch pats.old lens.old }
    ensures { building (reply_of result) words.new sets.new ≡ built_from (edits_of rules.entry.bytes.now) (literals_of rules.entry.bytes.now) words.old sets.old }
{
    let n = rules.literal_total();
    let most = most_states(rules, n);
    if tables::HEAD + tables::ROW * most <= words.len() && tables::SET * most <= sets.len() {
        fill(rules, n, pats, lens, words, sets);
        return Ok(());
    }
    build_counted(rules, n, pats, lens, words, sets)
}

// Builds the tables of a ruleset. The scratch arrays are made once: with the tree of a count they take 7.7 KB
// of stack, of the 32 KB that a call may have.
fn build_valid(rules: Ruleset<'_>, words: &mut [u16], sets: &mut [u64]) -> Result<(), Refusal>
    ensures { building (reply_of result) words.new sets.new ≡ built_from (edits_of rules.entry.bytes.now) (literals_of rules.entry.bytes.now) words.old sets.old }
{
    let mut pats = [0u8; rules::MAX_PATTERN * rules::MAX_RULES];
    let mut lens = [0u8; rules::MAX_RULES];
    build_with(rules, &mut pats, &mut lens, words, sets)
}

// Builds the tables of an image.
pub fn build(image: &[u8], words: &mut [u16], sets: &mut [u64]) -> Result<(), Refusal>
    ensures { building (reply_of result) words.new sets.new ≡ built image.now words.old sets.old }
{
    let Some(rules) = Ruleset::judge(image) else {
        return Err(Refusal::NotRuleset(0));
    };
    build_valid(rules, words, sets)
}
