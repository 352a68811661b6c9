// The rule file, read into a ruleset in lent memory and written to lent bytes (document 01, "The rule file"; document 02, request
// 5: letter classes).
#![tactic(auto)]

mod class_writing;
mod defining;
mod heading;
mod loading;
mod parsing;
mod writing;

ghost use Rattle.std.specs.Prelude.{◌≡◌};
ghost use Rattle.rules.specs.Refusals.{reply_of, report_of};
ghost use Rattle.image.specs.Image.{outcome};
ghost use Rattle.file.specs.Loading.{loaded, filing, filed};

use image::ruleset::Ruleset;
use rules::Refusal;

// A file read into lent memory, which holds its ruleset afterwards. The whole file is judged before the first byte is stored: refusals 0,
// 13 and 14 leave the memory as it was.
pub fn read_file(file: &[u8], image: &mut [u8]) -> Result<(), Refusal>
    ensures { outcome (reply_of result) image.new ≡ loaded file.now image.old }
{
    if image.len() < image::SIZE {
        return Err(Refusal::NotRuleset(0));
    }
    loading::judge(file)?;
    loading::store_file(file, image);
    Ok(())
}

// The file of a ruleset, at the front of lent bytes. Refusals 0 and 15 leave them as they were.
pub fn write_file(image: &[u8], out: &mut [u8]) -> Result<usize, Refusal>
    ensures { filing (report_of result) out.new ≡ filed image.now out.old }
{
    let Some(rules) = Ruleset::judge(image) else {
        return Err(Refusal::NotRuleset(0));
    };
    let needed = writing::file_size(rules);
    if out.len() < needed {
        return Err(Refusal::FileRoom(needed));
    }
    writing::write_ruleset(rules, out);
    Ok(needed)
}
