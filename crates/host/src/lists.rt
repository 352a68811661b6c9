// The calls on the exceptions list.
ghost use Rattle.std.specs.Prelude.{◌≡◌};
ghost use Rattle.rules.specs.Refusals.{reply_code};
ghost use Rattle.exceptions.specs.Judging.{judged_list};
ghost use Rattle.exceptions.specs.Calls.{emptied, name_count, state_count};
ghost use Rattle.change.specs.Change.{Change};
ghost use Rattle.readout.specs.ReadOut.{read_out};
ghost use Rattle.host.specs.Files.{written_code, bytes_or_place};
ghost use Rattle.host.specs.Lists.{ListChanged};

use super::codes;

// The empty list, in memory that held anything.
#[unsafe(no_mangle)]
pub extern "C" fn pirrozketa_list_clear(list: &mut [u32]) -> u8
    ensures code { result ≡ reply_code (emptied list.old).reply }
    ensures list { list.new ≡ (emptied list.old).list }
{
    let answer = exceptions::clear(list);
    rules::answer_code(answer)
}

// Whether the memory is a list.
#[unsafe(no_mangle)]
pub extern "C" fn pirrozketa_list_check(list: &[u32]) -> u8
    ensures { result ≡ reply_code (judged_list list.now) }
{
    if exceptions::is_list(list) {
        return rules::ACCEPTED;
    }
    17
}

// How many names are listed, 0 where the memory is no list.
#[unsafe(no_mangle)]
pub extern "C" fn pirrozketa_list_names(list: &[u32]) -> u16
    ensures { result ≡ name_count list.now }
{
    exceptions::name_count(list) as u16
}

// How many states the list has, 0 where the memory is no list.
#[unsafe(no_mangle)]
pub extern "C" fn pirrozketa_list_states(list: &[u32]) -> u16
    ensures { result ≡ state_count list.now }
{
    exceptions::state_count(list) as u16
}

// A name is added with its phones; a listed name gets new ones.
#[unsafe(no_mangle)]
pub extern "C" fn pirrozketa_list_add(
    list: &mut [u32],
    name: &[u8],
    phones: &[u8],
    place: &mut usize,
) -> u8
    ensures { ListChanged (Change.Add name.now phones.now) list.old list.new result place.new }
{
    let answer = change::add_name(list, name, phones);
    *place = rules::answer_place(answer);
    rules::answer_code(answer)
}

// A listed name is removed.
#[unsafe(no_mangle)]
pub extern "C" fn pirrozketa_list_remove(list: &mut [u32], name: &[u8], place: &mut usize) -> u8
    ensures { ListChanged (Change.Remove name.now) list.old list.new result place.new }
{
    let answer = change::remove_name(list, name);
    *place = rules::answer_place(answer);
    rules::answer_code(answer)
}

// Every listed name with its phones. `bytes` is the bytes written or the refusal's place.
#[unsafe(no_mangle)]
pub extern "C" fn pirrozketa_list_read_out(list: &[u32], out: &mut [u8], bytes: &mut usize) -> u8
    ensures code { result ≡ written_code (read_out list.now out.old).report }
    ensures bytes { bytes.new ≡ bytes_or_place (read_out list.now out.old).report }
    ensures out { out.new ≡ (read_out list.now out.old).bytes }
{
    let written = readout::read_out(list, out);
    *bytes = codes::bytes_or_place(written);
    codes::written_code(written)
}
