// A name added to the exceptions list, replaced or removed (document 02, request 1).
#![tactic(auto)]

mod rebuild;

ghost use Rattle.std.specs.Prelude.{◌≡◌, [], ◌≤◌, min, length};
ghost use Rattle.rules.specs.Limits.{max_listed};
ghost use Rattle.rules.specs.Refusals.{reply_of};
ghost use Rattle.automaton.specs.Automaton.{rows_of, look, changed};
ghost use Rattle.automaton.specs.Totals.{total};
ghost use Rattle.packing.specs.Packing.{groups_of};
ghost use Rattle.minimality.specs.Judging.{Decides};
ghost use Rattle.exceptions.specs.Layout.{list_size, words_of, start_of, phones_for};
ghost use Rattle.exceptions.specs.Judging.{IsList};
ghost use Rattle.change.specs.Change.{Change, good_entry, Changed};
ghost use Rattle.change.specs.Steps.{ListAsks, PhonesAsk, names_after, Relisted, ChangeAsks, Limited, judged};

use rules::Refusal;

// A count for each state of a list, and for 0.
const COUNTS: usize = rules::MAX_STATES + 1;

// Groups of the phones of a name.
const GROUPS: usize = 22;

// Whether nothing is said of the name.
fn unlisted(words: &[u32], name: &[u8]) -> bool
    requires { ListAsks words.now name.now }
    ensures { Decides (look (rows_of words.now) (start_of words.now) name.now ≡ []) result }
{
    let n = exceptions::start_of(words);
    let q = states::end_state(words, n, name);
    states::at(words, n, q, automaton::PHONES) == 0
}

// How many names are listed.
fn count(words: &[u32]) -> usize
    requires { IsList words.now × (length words.now ≡ list_size) }
    ensures { result ≡ min 1001 (total (rows_of words.now) (start_of words.now)) }
{
    let n = exceptions::start_of(words);
    let mut counts = [0u16; COUNTS];
    measures::count_names(words, n, &mut counts)
}

// Whether the names are not too many once the name has these phones.
fn names_fit(words: &[u32], name: &[u8], phones: &[u8]) -> bool
    requires { PhonesAsk words.now name.now phones.now }
    ensures { Decides (names_after words.now name.now (groups_of phones.now) ≤ max_listed) result }
{
    if phones.len() == 0 {
        return true;
    }
    if !unlisted(words, name) {
        return true;
    }
    count(words) < rules::MAX_LISTED
}

// The name gets these phones, where the list is within the limits then.
fn relist(words: &mut [u32], name: &[u8], phones: &[u8]) -> bool
    requires { PhonesAsk words.old name.now phones.now }
    ensures { Relisted words.old name.now phones.now words.new result }
{
    if !names_fit(words, name, phones) {
        return false;
    }
    let mut groups = [0u32; GROUPS];
    let len = packing::pack(phones, &mut groups);
    rebuild::regroup(words, name, &groups[..len])
}

// The same on a lent list, as the answer to a change.
fn change_list(list: &mut [u32], name: &[u8], phones: &[u8]) -> Result<(), Refusal>
    requires { ChangeAsks list.old name.now phones.now }
    ensures { Limited (changed name.now phones.now (phones_for (words_of list.old))) list.old list.new (reply_of result) }
{
    if relist(&mut list[..exceptions::SIZE], name, phones) {
        return Ok(());
    }
    Err(Refusal::ListFull(0))
}

// A name of some letters with 1 to 64 phones.
fn is_entry(name: &[u8], phones: &[u8]) -> bool
    ensures { result ≡ good_entry name.now phones.now }
{
    if name.len() == 0 {
        return false;
    }
    if phones.len() == 0 {
        return false;
    }
    if rules::MAX_LISTED_PHONES < phones.len() {
        return false;
    }
    rules::all_within(phones, rules::MAX_PHONE)
}

// The refusals of an addition before the limits.
fn judge_addition(list: &[u32], name: &[u8], phones: &[u8]) -> Result<(), Refusal>
    ensures { reply_of result ≡ judged list.now (Change.Add name.now phones.now) }
{
    if !exceptions::is_list(list) {
        return Err(Refusal::BadList(0));
    }
    rules::judge_name(name)?;
    if !is_entry(name, phones) {
        return Err(Refusal::BadList(0));
    }
    Ok(())
}

// The refusals of a removal before the limits.
fn judge_removal(list: &[u32], name: &[u8]) -> Result<(), Refusal>
    ensures { reply_of result ≡ judged list.now (Change.Remove name.now) }
{
    if !exceptions::is_list(list) {
        return Err(Refusal::BadList(0));
    }
    rules::judge_name(name)?;
    if unlisted(&list[..exceptions::SIZE], name) {
        return Err(Refusal::NotListed(0));
    }
    Ok(())
}

// A name is added with its phones; a listed name gets new ones.
pub fn add_name(list: &mut [u32], name: &[u8], phones: &[u8]) -> Result<(), Refusal>
    ensures { Changed (Change.Add name.now phones.now) list.old list.new (reply_of result) }
{
    judge_addition(list, name, phones)?;
    change_list(list, name, phones)
}

// A listed name is removed.
pub fn remove_name(list: &mut [u32], name: &[u8]) -> Result<(), Refusal>
    ensures { Changed (Change.Remove name.now) list.old list.new (reply_of result) }
{
    judge_removal(list, name)?;
    change_list(list, name, &name[..0])
}
