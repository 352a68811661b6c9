// The exceptions list in lent words (document 02, request 1): whether it is one (refusal 17), made empty, counted, and asked for a name.
// specs/Layout.antt has the layout.
#![tactic(auto)]

mod judging;

ghost use Rattle.std.specs.Prelude.{◌≡◌, true, ◌+◌, ◌≤◌, length};
ghost use Rattle.std.proofs.Math.Seq.{paste};
ghost use Rattle.rules.specs.Limits.{max_listed_phones};
ghost use Rattle.rules.specs.Refusals.{reply_of};
ghost use Rattle.rules.specs.Names.{SoundName};
ghost use Rattle.automaton.specs.Automaton.{Letters};
ghost use Rattle.phone_strings.specs.Groups.{HoldsPhones};
ghost use Rattle.exceptions.specs.Layout.{list_size, words_of, start_of, phones_for, phones_ending};
ghost use Rattle.exceptions.specs.Judging.{IsList, is_list, KnownList, StateOf};
ghost use Rattle.exceptions.specs.Calls.{emptying, emptied, name_count, state_count, looking_up, looked_up, EndsIn, EndsInList, StateIn};

use phone_strings::phone_groups;
use phone_strings::phone_groups::Located;
use rules::Refusal;

// Words of a list.
pub const SIZE: usize = 35886;

// The word that holds the start's number.
pub const START: usize = 4199;

// What a list says of a name: nothing; so many phones, which were given; or so many, for which there was no room.
#[derive(Clone, Copy)]
pub enum Lookup {
    Unlisted,
    Given(usize),
    NoRoom(usize),
}

// The number of the start.
pub fn start_of(words: &[u32]) -> usize
    requires { list_size ≤ length words.now }
    ensures { result ≡ start_of words.now }
{
    words[START] as usize
}

// Whether the memory is a list (refusal 17).
pub fn is_list(list: &[u32]) -> bool
    ensures { result ≡ is_list list.now }
{
    if list.len() < SIZE {
        return false;
    }
    judging::words_listed(&list[..SIZE])
}

// The empty list, in memory that held anything.
pub fn clear(list: &mut [u32]) -> Result<(), Refusal>
    ensures { emptying (reply_of result) list.new ≡ emptied list.old }
{
    if list.len() < SIZE {
        return Err(Refusal::BadList(0));
    }
    list[0] = automaton::FIRST_CELL;
    list[1] = automaton::FIRST_CELL;
    list[START] = 0;
    Ok(())
}

// How many names are listed, 0 where the memory is no list.
pub fn name_count(list: &[u32]) -> usize
    ensures { result ≡ name_count list.now }
{
    if list.len() < SIZE {
        return 0;
    }
    judging::names_counted(&list[..SIZE])
}

// How many states the list has, 0 where the memory is no list. The start is counted: the empty list has 1.
pub fn state_count(list: &[u32]) -> usize
    ensures { result ≡ state_count list.now }
{
    if !is_list(list) {
        return 0;
    }
    let n = start_of(list);
    if n == 0 {
        return 1;
    }
    n
}

// The phones that words which are a list say of a name.
fn look_up_words(words: &[u32], name: &[u8], phones: &mut [u8]) -> Lookup
    requires { (list_size ≤ length words.now) × IsList words.now × Letters name.now }
    ensures { looking_up result phones.new ≡ looked_up (phones_for words.now name.now) phones.old }
{
    let n = start_of(words);
    let q = states::end_state(words, n, name);
    let found = phone_groups::locate(words, n, q);
    let from = found.from;
    let count = found.count;
    if count == 0 {
        return Lookup::Unlisted;
    }
    if phones.len() < count {
        return Lookup::NoRoom(count);
    }
    phone_groups::write(words, from, count, phones, 0);
    Lookup::Given(count)
}

// The phones that a list says of a sound name, in lent bytes.
pub fn look_up(list: &[u32], name: &[u8], phones: &mut [u8]) -> Lookup
    requires { (is_list list.now ≡ true) × SoundName name.now }
    ensures { looking_up result phones.new ≡ looked_up (phones_for (words_of list.now) name.now) phones.old }
{
    look_up_words(&list[..SIZE], name, phones)
}

// The state in which a listed name ends, of words which are a list.
fn end_state_words(words: &[u32], name: &[u8]) -> Option<usize>
    requires { (list_size ≤ length words.now) × IsList words.now × Letters name.now }
    ensures { EndsIn words.now name.now result }
{
    let n = start_of(words);
    let q = states::end_state(words, n, name);
    let found = phone_groups::locate(words, n, q);
    if found.count == 0 {
        return None;
    }
    Some(q)
}

// The state in which a sound name ends that is listed, for a caller that knows the list to be one, or lends too few words for any.
pub fn end_state(list: &[u32], name: &[u8]) -> Option<usize>
    requires { KnownList list.now × SoundName name.now }
    ensures { EndsInList list.now name.now result }
{
    if list.len() < SIZE {
        return None;
    }
    end_state_words(&list[..SIZE], name)
}

// Where the phones of a state stand.
fn located(words: &[u32], q: usize) -> Located
    requires { StateIn words.now q }
    ensures { HoldsPhones words.now q result.from result.count }
{
    phone_groups::locate(words, start_of(words), q)
}

// How many phones the names have that end in a state.
pub fn phone_count(list: &[u32], q: usize) -> usize
    requires { StateOf list.now q }
    ensures { (result ≡ length (phones_ending (words_of list.now) q)) × (result ≤ max_listed_phones) }
{
    let found = located(&list[..SIZE], q);
    found.count
}

// The phones of a state of words which are a list, from a place on.
fn write_phones_words(words: &[u32], q: usize, phones: &mut [u8], at: usize) -> usize
    requires { StateIn words.now q × (at + length (phones_ending words.now q) ≤ length phones.old) }
    ensures count { result ≡ length (phones_ending words.now q) }
    ensures phones { phones.new ≡ paste phones.old at (phones_ending words.now q) (length (phones_ending words.now q)) }
{
    let found = located(words, q);
    let count = found.count;
    phone_groups::write(words, found.from, count, phones, at);
    count
}

// The phones of the names that end in a state, from a place of the lent bytes on; how many they are.
pub fn write_phones(list: &[u32], q: usize, phones: &mut [u8], at: usize) -> usize
    requires { StateOf list.now q × (at + length (phones_ending (words_of list.now) q) ≤ length phones.old) }
    ensures count { result ≡ length (phones_ending (words_of list.now) q) }
    ensures phones { phones.new ≡ paste phones.old at (phones_ending (words_of list.now) q) (length (phones_ending (words_of list.now) q)) }
{
    write_phones_words(&list[..SIZE], q, phones, at)
}
