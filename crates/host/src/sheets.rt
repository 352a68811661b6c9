// A whole sheet of names in one call (document 02, request 8).
ghost use Rattle.std.specs.Prelude.{◌≡◌};
ghost use Rattle.rules.specs.Refusals.{reply_code, reply_place};
ghost use Rattle.exceptions.specs.Judging.{listing_of};
ghost use Rattle.sheet.specs.Sheet.{spoken_sheet};

// The names of a sheet, each after a byte that says its length, are answered together: their words share the left pass. The reply to each is five numbers, of
// which the steps are 0: `steps` is the sheet's one count. `names` is how many were answered. Tree and kept parts are memory to work in, zero before and after.
#[unsafe(no_mangle)]
pub extern "C" fn pirrozketa_speak_sheet<'a>(
    image: &[u8],
    list: &[u32],
    words: &'a [u16],
    sets: &'a [u64],
    sheet: &[u8],
    phones: &mut [u8],
    numbers: &mut [u16],
    replies: &mut [usize],
    tree: &mut [u16],
    kept: &mut [u32],
    place: &mut usize,
    steps: &mut usize,
    names: &mut usize,
) -> u8
    ensures code { result ≡ reply_code (spoken_sheet image.now (listing_of list.now) words.now sets.now sheet.now tree.old kept.old replies.old phones.old numbers.old).reply }
    ensures place { place.new ≡ reply_place (spoken_sheet image.now (listing_of list.now) words.now sets.now sheet.now tree.old kept.old replies.old phones.old numbers.old).reply }
    ensures steps { steps.new ≡ (spoken_sheet image.now (listing_of list.now) words.now sets.now sheet.now tree.old kept.old replies.old phones.old numbers.old).steps }
    ensures names { names.new ≡ (spoken_sheet image.now (listing_of list.now) words.now sets.now sheet.now tree.old kept.old replies.old phones.old numbers.old).names }
    ensures replies { replies.new ≡ (spoken_sheet image.now (listing_of list.now) words.now sets.now sheet.now tree.old kept.old replies.old phones.old numbers.old).replies }
    ensures phones { phones.new ≡ (spoken_sheet image.now (listing_of list.now) words.now sets.now sheet.now tree.old kept.old replies.old phones.old numbers.old).phones }
    ensures numbers { numbers.new ≡ (spoken_sheet image.now (listing_of list.now) words.now sets.now sheet.now tree.old kept.old replies.old phones.old numbers.old).numbers }
    ensures tree { tree.new ≡ tree.old }
    ensures kept { kept.new ≡ kept.old }
{
    let told = sheet::speak_sheet(
        image, list, words, sets, sheet, phones, numbers, replies, tree, kept,
    );
    *steps = told.steps;
    *names = told.names;
    let answer = told.answer;
    *place = rules::answer_place(answer);
    rules::answer_code(answer)
}
