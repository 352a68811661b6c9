// A whole transect in one go (document 02, request 8): the names of a walk sheet answered together, sent through a compiled ruleset.
#![tactic(auto)]

mod memory;

ghost use Rattle.std.specs.Prelude.{◌≡◌, true, length};
ghost use Rattle.rules.specs.Limits.{max_names};
ghost use Rattle.exceptions.specs.Judging.{is_list, listing_of};
ghost use Rattle.image.specs.Image.{valid, edits_of};
ghost use Rattle.tables.specs.Words.{compiled_from};
ghost use Rattle.walk.specs.Walked.{FitsAs, compiled_in};
ghost use Rattle.many_names.specs.Names.{names_in};
ghost use Rattle.sheet.specs.Zeros.{AllZero};
ghost use Rattle.sheet.specs.Sheet.{sheet_said, Ready, names_through, with_memory, spoken_sheet};

use passes::Compiled;
use rules::Refusal;

// The answer to a sheet, the one count of entries looked up, and how many names were answered.
#[derive(Clone, Copy)]
pub struct SheetAnswer {
    pub answer: Result<(), Refusal>,
    pub steps: usize,
    pub names: usize,
}

// A refusal of the sheet.
fn refused(x: Refusal) -> SheetAnswer
    ensures { result ≡ record { answer = Err x; steps = 0; names = 0 } }
{
    let answer = Err(x);
    SheetAnswer {
        answer,
        steps: 0,
        names: 0,
    }
}

// ---- the names

// The names of a sheet are judged, then answered, by tables of which the lengths and the edit count were looked at. The memory of the passes is made once for
// all names.
fn answer_fit(
    compiled: &Compiled<'_>,
    fit: bool,
    stale: bool,
    image: &[u8],
    list: &[u32],
    sheet: &[u8],
    limit: usize,
    phones: &mut [u8],
    numbers: &mut [u16],
    replies: &mut [usize],
    tree: &mut [u16],
    kept: &mut [u32],
) -> SheetAnswer
    requires { FitsAs compiled.now.words.now compiled.now.sets.now compiled.now.left_states compiled.now.right_states (edits_of image.now) fit stale × Ready image.now list.now sheet.now limit replies.old tree.old kept.old }
    ensures { sheet_said result replies.new phones.new numbers.new ≡ names_through (compiled_in compiled.now) image.now list.now sheet.now limit replies.old phones.old numbers.old }
{
    let mut ends = [0u32; rules::MAX_NAMES];
    let mut starts = [0u32; rules::MAX_NAMES];
    let mut found = [0u16; reading::MAX_FRAME];
    let mut left = [0u16; reading::MAX_FRAME];
    let mut right = [0u16; reading::MAX_FRAME];
    let judged = sheet_judging::judge_sheet(
        compiled,
        fit,
        stale,
        image,
        list,
        sheet,
        limit,
        tree,
        &mut ends,
        &mut starts,
        &mut *kept,
        &mut found,
        &mut left,
        &mut right,
    );
    let p = match judged {
        Ok(p) => p,
        Err(x) => return refused(x),
    };
    let names = sheet_answers::answer_sheet(
        image, list, sheet, limit, &ends, &starts, kept, phones, numbers, replies,
    );
    SheetAnswer {
        answer: Ok(()),
        steps: p.steps,
        names,
    }
}

// The tables are judged once for the whole sheet.
fn answer_tables(
    compiled: &Compiled<'_>,
    image: &[u8],
    list: &[u32],
    sheet: &[u8],
    limit: usize,
    phones: &mut [u8],
    numbers: &mut [u16],
    replies: &mut [usize],
    tree: &mut [u16],
    kept: &mut [u32],
) -> SheetAnswer
    requires { Ready image.now list.now sheet.now limit replies.old tree.old kept.old }
    ensures { sheet_said result replies.new phones.new numbers.new ≡ names_through (compiled_in compiled.now) image.now list.now sheet.now limit replies.old phones.old numbers.old }
{
    let long = walk::lengths_fit(compiled);
    let stale = walk::other_count(compiled.words, long, image::edit_count(image));
    let fit = walk::can_pass(long, stale);
    answer_fit(
        compiled, fit, stale, image, list, sheet, limit, phones, numbers, replies, tree, kept,
    )
}

// ---- the compiled ruleset

// The words are compiled once, and all names are sent through.
fn speak_words<'a>(
    words: &'a [u16],
    sets: &'a [u64],
    image: &[u8],
    list: &[u32],
    sheet: &[u8],
    limit: usize,
    phones: &mut [u8],
    numbers: &mut [u16],
    replies: &mut [usize],
    tree: &mut [u16],
    kept: &mut [u32],
) -> SheetAnswer
    requires { Ready image.now list.now sheet.now limit replies.old tree.old kept.old }
    ensures { sheet_said result replies.new phones.new numbers.new ≡ names_through (compiled_from words.now sets.now) image.now list.now sheet.now limit replies.old phones.old numbers.old }
{
    let compiled = compiled::compile(words, sets);
    answer_tables(
        &compiled, image, list, sheet, limit, phones, numbers, replies, tree, kept,
    )
}

// ---- memory to work in

// Zero memory is worked in, and is zero again.
fn answer_clear<'a>(
    words: &'a [u16],
    sets: &'a [u64],
    image: &[u8],
    list: &[u32],
    sheet: &[u8],
    limit: usize,
    phones: &mut [u8],
    numbers: &mut [u16],
    replies: &mut [usize],
    tree: &mut [u16],
    kept: &mut [u32],
) -> SheetAnswer
    requires { Ready image.now list.now sheet.now limit replies.old tree.old kept.old × AllZero tree.old × AllZero kept.old }
    ensures answer { sheet_said result replies.new phones.new numbers.new ≡ names_through (compiled_from words.now sets.now) image.now list.now sheet.now limit replies.old phones.old numbers.old }
    ensures tree { tree.new ≡ tree.old }
    ensures kept { kept.new ≡ kept.old }
{
    let answer = speak_words(
        words, sets, image, list, sheet, limit, phones, numbers, replies, &mut *tree, &mut *kept,
    );
    tree.fill(0);
    kept.fill(0);
    answer
}

// ---- the call

// A sound sheet with a ruleset and a list: 11 and 12 for the memory to work in, 15 for the replies.
fn speak_sound<'a>(
    words: &'a [u16],
    sets: &'a [u64],
    image: &[u8],
    list: &[u32],
    sheet: &[u8],
    limit: usize,
    phones: &mut [u8],
    numbers: &mut [u16],
    replies: &mut [usize],
    tree: &mut [u16],
    kept: &mut [u32],
) -> SheetAnswer
    requires { (valid image.now ≡ true) × (is_list list.now ≡ true) × (limit ≡ length (names_in max_names sheet.now)) }
    ensures answer { sheet_said result replies.new phones.new numbers.new ≡ with_memory sheet.now (names_in max_names sheet.now) tree.old kept.old (names_through (compiled_from words.now sets.now) image.now list.now sheet.now max_names replies.old phones.old numbers.old) replies.old phones.old numbers.old }
    ensures tree { tree.new ≡ tree.old }
    ensures kept { kept.new ≡ kept.old }
{
    let room = memory::work_room(sheet);
    let nodes = prefix_tree::NODE * (room + 1);
    if !memory::first_are(tree, nodes, 0) {
        return refused(Refusal::WordsRoom(nodes));
    }
    let parts = room + reading::MAX_FRAME;
    if !memory::first_are(kept, parts, 0) {
        return refused(Refusal::SetsRoom(parts));
    }
    let size = many_names::REPLY * limit;
    if replies.len() < size {
        return refused(Refusal::FileRoom(size));
    }
    answer_clear(
        words,
        sets,
        image,
        list,
        sheet,
        limit,
        phones,
        numbers,
        replies,
        &mut tree[..nodes],
        &mut kept[..parts],
    )
}

// The names of a sheet answered together: 24 before all else, 0, 17, the memory, then the first 16 or 22 of a name; else each name has its answer.
pub fn speak_sheet<'a>(
    image: &[u8],
    list: &[u32],
    words: &'a [u16],
    sets: &'a [u64],
    sheet: &[u8],
    phones: &mut [u8],
    numbers: &mut [u16],
    replies: &mut [usize],
    tree: &mut [u16],
    kept: &mut [u32],
) -> SheetAnswer
    ensures answer { sheet_said result replies.new phones.new numbers.new ≡ spoken_sheet image.now (listing_of list.now) words.now sets.now sheet.now tree.old kept.old replies.old phones.old numbers.old }
    ensures tree { tree.new ≡ tree.old }
    ensures kept { kept.new ≡ kept.old }
{
    let size = many_names::size_of(sheet);
    if !size.sound {
        return refused(Refusal::BadSheet(0));
    }
    if !image::is_ruleset(image) {
        return refused(Refusal::NotRuleset(0));
    }
    if !exceptions::is_list(list) {
        return refused(Refusal::BadList(0));
    }
    speak_sound(
        words, sets, image, list, sheet, size.count, phones, numbers, replies, tree, kept,
    )
}
