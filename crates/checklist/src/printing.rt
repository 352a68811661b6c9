// How a line of the checklist is printed.
ghost use Rattle.std.specs.Prelude.{IsOk};

use std::fmt;

// The standard output, to which each piece of a line is written by itself: a text between the holes of a format string; a text, a letter or a
// number in a hole. What of a piece cannot be written is lost, and the next is tried: there is nowhere else to say so.
#[derive(Drop)]
pub struct Output<'a, R> {
    pub rt: &'a R,
}

impl<R: Print> fmt::Write for Output<'_, R> {
    // Never fails: after a failure nothing more of the line would be written.
    fn write_str(&mut self, s: &str) -> fmt::Result
        ensures { IsOk result }
    {
        let _ = self.rt.write_all(s.as_bytes());
        Ok(())
    }
}

// How a line starts.
pub fn verdict(ok: bool) -> &'static str {
    if ok { "ok     " } else { "FAULT  " }
}
