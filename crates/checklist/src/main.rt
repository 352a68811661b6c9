// The field engineer's checklist on the ruleset of rules.hex, whichever it is: for each item a line with the verdict, what was tried and what
// came. The names are found in the ruleset itself; where it has none for an item, the line says so.
#![tactic(auto)]

mod editing;
mod items;
mod literal_rules;
mod names;
mod printing;
mod refused;
mod ruleset;
mod searches;
mod speaking;

ghost use Rattle.std.specs.Prelude.{◌≡◌, true, IfOk};
ghost use Rattle.image.specs.Image.{valid};

use file_format::MAX_INPUT;
use items::Item;
use printing::{Output, verdict};
use refused::{Refused, accepted};
use rules::Refusal;
use ruleset::Ruleset;
use speaking::Tables;
use std::fmt::Write;
use std::rt::Files;

// The rule file is read, then its tables are built.
fn prepare(
    file: &[u8],
    image: &mut [u8],
    words: &mut [u16],
    sets: &mut [u64],
) -> Result<(), Refused>
    ensures { IfOk result (λ _. valid image.new ≡ true) }
{
    if MAX_INPUT < file.len() {
        return Err(Refused::from(Refusal::BadLine(MAX_INPUT)));
    }
    accepted(file::read_file(file, &mut *image))?;
    accepted(build::build(image, words, sets))
}

fn try_names<'a>(rt: &impl Print, image: &'a [u8], words: &'a [u16], sets: &'a [u64])
    requires { valid image.now ≡ true }
{
    let rules = image::ruleset::Ruleset { bytes: image };
    let rules = Ruleset { image: rules };
    let tables = Tables { rules, words, sets };
    items::try_item(rt, Item::SilentEnd, tables);
    items::try_item(rt, Item::TwoFitting, tables);
    items::try_item(rt, Item::LastLetters, tables);
    items::try_item(rt, Item::Uncovered, tables);
}

fn run(
    rt: &(impl Files + Print),
    buf: &mut [u8],
    out: &mut [u8],
    image: &mut [u8],
    words: &mut [u16],
    sets: &mut [u64],
) {
    let n = rules_hex::read(rt, &mut *buf);
    let file = &buf[..n];
    if let Err(x) = prepare(file, &mut *image, &mut *words, &mut *sets) {
        let _ = writeln!(Output { rt }, "{}rules.hex: {x}", verdict(false));
        return;
    }
    editing::read_back(rt, image, file, &mut *out);
    try_names(rt, image, words, sets);
    editing::edit(rt, &mut *image);
    editing::restore(rt, image, file, out);
}

fn main(rt: HostRuntime) {
    let mut buf = [0u8; MAX_INPUT + 1];
    let mut out = [0u8; file_format::LONGEST_FILE];
    let mut image = [0u8; image::SIZE];
    let mut words = [0u16; tables::WORDS];
    let mut sets = [0u64; tables::SETS];
    run(&rt, &mut buf, &mut out, &mut image, &mut words, &mut sets);
}
