// An input that comes in chunks of any size.
ghost use Rattle.std.specs.Prelude.{◌≡◌, length};
ghost use Rattle.bench.specs.Input.{first_line, Steps, Finishes};

use crate::buffer::append;
use crate::line::{MAX_OUTPUT, MAX_WIDE_LINE, line};
use laws::front;
use pools::Fortuna;

// Room for a line that is too long to be a frame of any kind.
pub const LINE_BUFFER: usize = MAX_WIDE_LINE + 1;

// Between two steps: the state, and the line so far, which stands in the first `held` places of `text`.
// Kept: (a) `held` beside `text`, and no Vec: there is no heap.
#[derive(Clone, Copy)]
pub struct Session {
    pub state: Fortuna,
    pub text: [u8; LINE_BUFFER],
    pub held: usize,
}

// How many characters of the chunk a step used, and how many it printed.
#[derive(Clone, Copy)]
pub struct StepOutcome {
    pub used: usize,
    pub written: usize,
}

// How many characters stand before the first line feed, or in all.
// Kept: (a) a loop, and no `position`: two must-fail edits need a proof that lets a harmless `enumerate` through, and over `position` none was found.
pub fn line_length(chunk: &[u8]) -> usize
    ensures { result ≡ length (first_line chunk.now) }
{
    for (i, c) in chunk.iter().enumerate() {
        let ends = *c == b'\n';
        if ends {
            return i;
        }
    }
    chunk.len()
}

impl Session {
    // A step over what is left of a chunk: it adds the characters before the first line feed to the line so far, and carries
    // the line out if a line feed ends it.
    pub fn step(&mut self, chunk: &[u8], out: &mut [u8; MAX_OUTPUT]) -> StepOutcome
        ensures { Steps self.old chunk.now result self.new out.old out.new }
    {
        let n = line_length(chunk);
        self.held = append(&mut self.text, self.held, &chunk[..n]);
        if n == chunk.len() {
            return StepOutcome {
                used: n,
                written: 0,
            };
        }
        let o = line(self.state, front(&self.text, self.held), out);
        self.state = o.next;
        self.held = 0;
        StepOutcome {
            used: n + 1,
            written: o.written,
        }
    }

    // The end of the input: carries out a last line that has no line feed. Returns how many characters were printed.
    pub fn finish(&self, out: &mut [u8; MAX_OUTPUT]) -> usize
        ensures { Finishes self.now result out.old out.new }
    {
        if self.held == 0 {
            return 0;
        }
        line(self.state, front(&self.text, self.held), out).written
    }
}
