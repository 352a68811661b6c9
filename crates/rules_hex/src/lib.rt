// The file rules.hex of the working folder, which the programs read their rules from.
#![tactic(auto)]

ghost use Rattle.rules_hex.specs.Counts.{IsPrefixLen};

use std::fs;
use std::io::Read;
use std::rt::Files;

// Its bytes, as many as the buffer holds; a missing file counts as empty. A buffer of one byte more than a caller takes tells it that the file
// is too long.
pub fn read(rt: &impl Files, buf: &mut [u8]) -> usize
    ensures { IsPrefixLen result buf.new }
{
    match fs::open(rt, "rules.hex") {
        Ok(mut file) => read_full(&mut file, buf),
        Err(_) => 0,
    }
}

// What can be read, as many bytes as the buffer holds; a read that fails counts as the input's end.
pub fn read_full(from: &mut impl Read, buf: &mut [u8]) -> usize
    ensures { IsPrefixLen result buf.new }
{
    let mut done = 0;
    while done < buf.len() {
        let n = from.read(&mut buf[done..]).unwrap_or(0);
        if n == 0 {
            break;
        }
        done += n;
    }
    done
}
