// What a firmware links: the library's calls on numbers and lent memory. host/pirrozketa.h says the same to C.
// A call answers with a code: 255 where it is accepted, else the refusal's number in documents 01 and 02.
#![tactic(auto)]

mod codes;
mod given;
pub mod lists;
mod many;
pub mod sheets;

ghost use Rattle.std.specs.Prelude.{◌≡◌};
ghost use Rattle.rules.specs.Refusals.{reply_code, reply_place};
ghost use Rattle.image.specs.Image.{cleared};
ghost use Rattle.edits.specs.Ledger.{Edit};
ghost use Rattle.edits.specs.Edits.{edited};
ghost use Rattle.exceptions.specs.Judging.{listing_of};
ghost use Rattle.speech.specs.Speech.{plain_said};
ghost use Rattle.tables.specs.Words.{built};
ghost use Rattle.tables.specs.Walk.{walk_said};
ghost use Rattle.many_names.specs.Codes.{spoken_code, phones_or_place, numbers_given, contested_given};
ghost use Rattle.host.specs.Codes.{checked, count_in, last_in, edits_in, rule_given};
ghost use Rattle.file.specs.Loading.{loaded, filed};
ghost use Rattle.host.specs.Files.{written_code, bytes_or_place};
ghost use Rattle.host.specs.Many.{many_said};
ghost use Rattle.host.specs.Version.{version};

// ---- the version

// Of this interface, as host/pirrozketa.h has it.
const VERSION_MAJOR: u16 = 8;

const VERSION_MINOR: u16 = 2;

// The version of the library that is linked, which may be another than that of the host's header.
#[unsafe(no_mangle)]
pub extern "C" fn pirrozketa_version() -> u16
    ensures { result ≡ version }
{
    256 * VERSION_MAJOR + VERSION_MINOR
}

// ---- the ruleset

// The empty ruleset, in memory that held anything.
#[unsafe(no_mangle)]
pub extern "C" fn pirrozketa_clear(image: &mut [u8]) -> u8
    ensures code { result ≡ reply_code (cleared image.old).reply }
    ensures image { image.new ≡ (cleared image.old).image }
{
    let answer = image::clear(image);
    rules::answer_code(answer)
}

// Whether the memory is a ruleset.
#[unsafe(no_mangle)]
pub extern "C" fn pirrozketa_check(image: &[u8]) -> u8
    ensures { result ≡ reply_code (checked image.now) }
{
    if image::is_ruleset(image) {
        return rules::ACCEPTED;
    }
    0
}

// The rule count that the memory holds.
#[unsafe(no_mangle)]
pub extern "C" fn pirrozketa_count(image: &[u8]) -> u16
    ensures { result ≡ count_in image.now }
{
    if image.len() < image::SIZE {
        return 0;
    }
    image::rule_count(image) as u16
}

// The last number issued that the memory holds.
#[unsafe(no_mangle)]
pub extern "C" fn pirrozketa_last(image: &[u8]) -> u16
    ensures { result ≡ last_in image.now }
{
    if image.len() < image::SIZE {
        return 0;
    }
    image::last_issued(image)
}

// The edit count that the memory holds: accepted additions, drops and moves.
#[unsafe(no_mangle)]
pub extern "C" fn pirrozketa_edits(image: &[u8]) -> u32
    ensures { result ≡ edits_in image.now }
{
    if image.len() < image::SIZE {
        return 0;
    }
    image::edit_count(image)
}

// Add(rule, p).
#[unsafe(no_mangle)]
pub extern "C" fn pirrozketa_add(image: &mut [u8], rule: &[u8], p: usize, place: &mut usize) -> u8
    ensures code { result ≡ reply_code (edited image.old (Edit.Add (rule_given rule.now) p)).reply }
    ensures place { place.new ≡ reply_place (edited image.old (Edit.Add (rule_given rule.now) p)).reply }
    ensures image { image.new ≡ (edited image.old (Edit.Add (rule_given rule.now) p)).image }
{
    let added = given::rule_in(rule);
    let answer = edits::add_rule(image, added, p);
    *place = rules::answer_place(answer);
    rules::answer_code(answer)
}

// Drop(number).
#[unsafe(no_mangle)]
pub extern "C" fn pirrozketa_drop(image: &mut [u8], number: u16, place: &mut usize) -> u8
    ensures code { result ≡ reply_code (edited image.old (Edit.Drop number)).reply }
    ensures place { place.new ≡ reply_place (edited image.old (Edit.Drop number)).reply }
    ensures image { image.new ≡ (edited image.old (Edit.Drop number)).image }
{
    let answer = edits::drop_rule(image, number);
    *place = rules::answer_place(answer);
    rules::answer_code(answer)
}

// Move(number, p).
#[unsafe(no_mangle)]
pub extern "C" fn pirrozketa_move(image: &mut [u8], number: u16, p: usize, place: &mut usize) -> u8
    ensures code { result ≡ reply_code (edited image.old (Edit.Move number p)).reply }
    ensures place { place.new ≡ reply_place (edited image.old (Edit.Move number p)).reply }
    ensures image { image.new ≡ (edited image.old (Edit.Move number p)).image }
{
    let answer = edits::move_rule(image, number, p);
    *place = rules::answer_place(answer);
    rules::answer_code(answer)
}

// SetClass(symbol, letters).
#[unsafe(no_mangle)]
pub extern "C" fn pirrozketa_set_class(
    image: &mut [u8],
    symbol: u8,
    letters: &[u8],
    place: &mut usize,
) -> u8
    ensures code { result ≡ reply_code (edited image.old (Edit.SetClass symbol letters.now)).reply }
    ensures place { place.new ≡ reply_place (edited image.old (Edit.SetClass symbol letters.now)).reply }
    ensures image { image.new ≡ (edited image.old (Edit.SetClass symbol letters.now)).image }
{
    let answer = edits::set_class(image, symbol, letters);
    *place = rules::answer_place(answer);
    rules::answer_code(answer)
}

// ---- the rule file

// A rule file is read into the memory, whatever it holds.
#[unsafe(no_mangle)]
pub extern "C" fn pirrozketa_read_file(file: &[u8], image: &mut [u8], place: &mut usize) -> u8
    ensures code { result ≡ reply_code (loaded file.now image.old).reply }
    ensures place { place.new ≡ reply_place (loaded file.now image.old).reply }
    ensures image { image.new ≡ (loaded file.now image.old).image }
{
    let answer = file::read_file(file, image);
    *place = rules::answer_place(answer);
    rules::answer_code(answer)
}

// The rule file is written. `bytes` is the bytes written or the refusal's place.
#[unsafe(no_mangle)]
pub extern "C" fn pirrozketa_write_file(image: &[u8], out: &mut [u8], bytes: &mut usize) -> u8
    ensures code { result ≡ written_code (filed image.now out.old).report }
    ensures bytes { bytes.new ≡ bytes_or_place (filed image.now out.old).report }
    ensures out { out.new ≡ (filed image.now out.old).bytes }
{
    let written = file::write_file(image, out);
    *bytes = codes::bytes_or_place(written);
    codes::written_code(written)
}

// ---- the tables

// Both tables are built.
#[unsafe(no_mangle)]
pub extern "C" fn pirrozketa_build(
    image: &[u8],
    words: &mut [u16],
    sets: &mut [u64],
    place: &mut usize,
) -> u8
    ensures code { result ≡ reply_code (built image.now words.old sets.old).reply }
    ensures place { place.new ≡ reply_place (built image.now words.old sets.old).reply }
    ensures words { words.new ≡ (built image.now words.old sets.old).words }
    ensures sets { sets.new ≡ (built image.now words.old sets.old).sets }
{
    let answer = build::build(image, words, sets);
    *place = rules::answer_place(answer);
    rules::answer_code(answer)
}

// ---- one name

// The plain reading of a name, the list first. `given` is the phones given or the refusal's place, `applied` the numbers given,
// `contested` the reached letters at which more than one rule fits.
#[unsafe(no_mangle)]
pub extern "C" fn pirrozketa_read_name(
    image: &[u8],
    list: &[u32],
    name: &[u8],
    phones: &mut [u8],
    numbers: &mut [u16],
    given: &mut usize,
    applied: &mut usize,
    contested: &mut usize,
) -> u8
    ensures code { result ≡ spoken_code (plain_said image.now (listing_of list.now) name.now phones.old numbers.old).told }
    ensures given { given.new ≡ phones_or_place (plain_said image.now (listing_of list.now) name.now phones.old numbers.old).told }
    ensures applied { applied.new ≡ numbers_given (plain_said image.now (listing_of list.now) name.now phones.old numbers.old).told }
    ensures contested { contested.new ≡ contested_given (plain_said image.now (listing_of list.now) name.now phones.old numbers.old).told }
    ensures phones { phones.new ≡ (plain_said image.now (listing_of list.now) name.now phones.old numbers.old).phones }
    ensures numbers { numbers.new ≡ (plain_said image.now (listing_of list.now) name.now phones.old numbers.old).numbers }
{
    let speech = reading::read_name(image, list, name, phones, numbers);
    *given = many_names::codes::phones_or_place(speech);
    *applied = many_names::codes::numbers_given(speech);
    *contested = many_names::codes::contested_given(speech);
    many_names::codes::spoken_code(speech)
}

// A name by the list, else by the walk through the compiled ruleset of lent tables, built or not. `steps` is the entries looked up.
#[unsafe(no_mangle)]
pub extern "C" fn pirrozketa_speak<'a>(
    image: &[u8],
    list: &[u32],
    words: &'a [u16],
    sets: &'a [u64],
    name: &[u8],
    phones: &mut [u8],
    numbers: &mut [u16],
    given: &mut usize,
    applied: &mut usize,
    steps: &mut usize,
    contested: &mut usize,
) -> u8
    ensures code { result ≡ spoken_code (walk_said image.now (listing_of list.now) words.now sets.now name.now phones.old numbers.old).said.told }
    ensures given { given.new ≡ phones_or_place (walk_said image.now (listing_of list.now) words.now sets.now name.now phones.old numbers.old).said.told }
    ensures applied { applied.new ≡ numbers_given (walk_said image.now (listing_of list.now) words.now sets.now name.now phones.old numbers.old).said.told }
    ensures steps { steps.new ≡ (walk_said image.now (listing_of list.now) words.now sets.now name.now phones.old numbers.old).steps }
    ensures contested { contested.new ≡ contested_given (walk_said image.now (listing_of list.now) words.now sets.now name.now phones.old numbers.old).said.told }
    ensures phones { phones.new ≡ (walk_said image.now (listing_of list.now) words.now sets.now name.now phones.old numbers.old).said.phones }
    ensures numbers { numbers.new ≡ (walk_said image.now (listing_of list.now) words.now sets.now name.now phones.old numbers.old).said.numbers }
{
    let answer = compiled::speak_compiled(image, list, words, sets, name, phones, numbers);
    let speech = answer.speech;
    *given = many_names::codes::phones_or_place(speech);
    *applied = many_names::codes::numbers_given(speech);
    *steps = answer.steps;
    *contested = many_names::codes::contested_given(speech);
    many_names::codes::spoken_code(speech)
}

// ---- many names

// Many names, the ruleset and the list checked once. `names` has each name after a byte that says its length; the reply to each is five
// numbers: its code, the phones given or the place, the numbers given, the steps, the contested letters. `count` is how many were answered.
#[unsafe(no_mangle)]
pub extern "C" fn pirrozketa_speak_many<'a>(
    image: &[u8],
    list: &[u32],
    words: &'a [u16],
    sets: &'a [u64],
    names: &[u8],
    phones: &mut [u8],
    numbers: &mut [u16],
    replies: &mut [usize],
    count: &mut usize,
) -> u8
    ensures code { result ≡ (many_said image.now (listing_of list.now) words.now sets.now names.now phones.old numbers.old replies.old).code }
    ensures count { count.new ≡ (many_said image.now (listing_of list.now) words.now sets.now names.now phones.old numbers.old replies.old).count }
    ensures replies { replies.new ≡ (many_said image.now (listing_of list.now) words.now sets.now names.now phones.old numbers.old replies.old).replies }
    ensures phones { phones.new ≡ (many_said image.now (listing_of list.now) words.now sets.now names.now phones.old numbers.old replies.old).phones }
    ensures numbers { numbers.new ≡ (many_said image.now (listing_of list.now) words.now sets.now names.now phones.old numbers.old replies.old).numbers }
{
    if !image::is_ruleset(image) {
        *count = 0;
        return 0;
    }
    if !exceptions::is_list(list) {
        *count = 0;
        return 17;
    }
    let rules = image::ruleset::Ruleset { bytes: image };
    *count = many::speak_all(rules, list, words, sets, names, phones, numbers, replies);
    rules::ACCEPTED
}
