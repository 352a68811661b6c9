// The serial monitor: lines of commands on standard input, each answered before the next is read (docs/MONITOR.md).
#![tactic(auto)]

mod input_lines;

ghost use Rattle.std.specs.Prelude.{◌≤◌};
ghost use Rattle.file_format.specs.Layout.{longest_file};

use input_lines::{Input, MAX_LINE};
use std::io;
use std::io::Read;
use std::rt::Files;

// The memory that the commands work on. Of the list, `lent` units are lent.
#[derive(Drop)]
struct Memory {
    image: [u8; image::SIZE],
    list: [u32; exceptions::SIZE],
    lent: usize,
    text: [u8; 130000],
    words: [u16; tables::WORDS],
    sets: [u64; tables::SETS],
    phones: [u8; 256],
    numbers: [u16; 64],
    contested: u8,
    out: [u8; commands::LONGEST_FILE],
    ghost within: { lent ≤ 35886 },
}

impl Memory {
    // The answer to a command; `file` holds the bytes of rules.hex where the command asks for them.
    fn answer(&mut self, command: &[u8], file: &[u8]) -> &[u8] {
        let n = self.answer_len(command, file);
        &self.out[..n]
    }

    // The answer is written to `out`, and has this length.
    fn answer_len(&mut self, command: &[u8], file: &[u8]) -> usize
        ensures { result ≤ longest_file }
    {
        let Memory {
            image,
            list,
            lent,
            text,
            words,
            sets,
            phones,
            numbers,
            contested,
            out,
        } = self;
        if list_commands::is_list_command(command) {
            let reply = list_commands::answer(command, list, *lent, text, out);
            *lent = reply.lent;
            return reply.len;
        }
        commands::answer(
            command,
            file,
            image,
            &list[..*lent],
            words,
            sets,
            phones,
            numbers,
            contested,
            out,
        )
    }
}

// The bytes of rules.hex where a command asks for them.
fn fetch<'m>(rt: &impl Files, command: &[u8], memory: &'m mut [u8]) -> &'m [u8] {
    if !commands::asks_for_file(command) {
        return &[];
    }
    let n = rules_hex::read(rt, memory);
    &memory[..n]
}

// Each line is answered in turn, until the input ends or an answer cannot be written. As in `Input::read_line`, the turns are counted.
fn converse(
    rt: &(impl Files + Print),
    from: &mut impl Read,
    input: &mut Input,
    memory: &mut Memory,
) -> io::Result<()> {
    let mut frame = [0; MAX_LINE / 2];
    let mut file = [0; file_format::MAX_INPUT + 1];
    for _ in 0..u64::MAX {
        let Some(text) = input.next_line(from) else {
            break;
        };
        let n = commands::command_in(text, &mut frame);
        let command = &frame[..n];
        let file = fetch(rt, command, &mut file);
        rt.write_all(memory.answer(command, file))?;
    }
    Ok(())
}

fn main(rt: HostRuntime) {
    let mut memory = Memory {
        image: [0; image::SIZE],
        list: [0; exceptions::SIZE],
        lent: exceptions::SIZE,
        text: [238; 130000],
        words: [65535; tables::WORDS],
        sets: [18446744073709551615; tables::SETS],
        phones: [238; 256],
        numbers: [61166; 64],
        contested: 0,
        out: [0; commands::LONGEST_FILE],
    };
    let _ = exceptions::clear(&mut memory.list); // the memory is long enough: it is accepted
    // An answer that cannot be written ends the conversation: there is nowhere else to say so.
    let _ = converse(&rt, &mut rt.reader(), &mut Input::new(), &mut memory);
}
