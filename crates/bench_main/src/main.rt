// The bench: carries out each line of standard input from a fresh state, and prints a line for each.
#![tactic(auto)]

use bench::input::{LINE_BUFFER, Session};
use bench::line::MAX_OUTPUT;
use pools::Fortuna;
use std::io::{ErrorKind, Read};
use std::rt::Clock;
use std::thread::sleep;
use std::time::Duration;
use std::{fmt, io};

// The most that one read takes.
const CHUNK: usize = 65536;

// What ends the program early.
#[derive(Drop)]
enum Failure {
    Read(io::Error),
    Write(io::Error),
    Full,
}

impl fmt::Display for Failure {
    fn fmt<W: fmt::Write>(&self, f: &mut fmt::Formatter<W>) -> fmt::Result {
        match self {
            Failure::Read(error) => write!(f, "standard input could not be read: {error}"),
            Failure::Write(error) => write!(f, "standard output could not be written: {error}"),
            Failure::Full => write!(f, "standard output takes nothing"),
        }
    }
}

// Whether to make a read or a write again that has just failed: a signal came first (EINTR), or the descriptor does not wait and
// had nothing, or no room, yet (EAGAIN). The library has no poll, so that the program sleeps for a moment, and others run.
fn passes(rt: &impl Clock, error: &io::Error) -> bool {
    let kind = error.kind();
    if kind == ErrorKind::WouldBlock {
        sleep(rt, Duration::from_micros(100));
        return true;
    }
    kind == ErrorKind::Interrupted
}

// Writes all of out to standard output.
// Kept: (a) turns are counted, and no `loop`: one that may never end needs Wait, and no function gets it (the turns: docs/decisions/bench.md).
fn write_all(rt: &(impl Print + Clock), out: &[u8]) -> Result<(), Failure> {
    let mut rest = out;
    for _ in 0..u64::MAX {
        if rest.is_empty() {
            return Ok(());
        }
        match rt.write_some(rest) {
            Ok(0) => return Err(Failure::Full),
            Ok(n) => rest = &rest[n..],
            Err(error) => {
                if !passes(rt, &error) {
                    return Err(Failure::Write(error));
                }
            }
        }
    }
    Err(Failure::Full)
}

// The session of an input, and room for what a line prints.
#[derive(Drop)]
struct Bench {
    session: Session,
    out: [u8; MAX_OUTPUT],
}

impl Bench {
    // Carries out the lines that end in a chunk.
    fn feed(&mut self, rt: &(impl Print + Clock), chunk: &[u8]) -> Result<(), Failure> {
        let mut rest = chunk;
        // Kept: (d) no `for`: `split_inclusive` would look for each line feed first, and `step` does again.
        while !rest.is_empty() {
            let o = self.session.step(rest, &mut self.out);
            write_all(rt, &self.out[..o.written])?;
            rest = &rest[o.used..];
        }
        Ok(())
    }

    // Carries out a last line that has no line feed.
    fn end(&mut self, rt: &(impl Print + Clock)) -> Result<(), Failure> {
        let written = self.session.finish(&mut self.out);
        write_all(rt, &self.out[..written])
    }
}

// Carries out all lines of an input.
// Kept: (a) turns are counted, and no `loop`: one that may never end needs Wait, and no function gets it (the turns: docs/decisions/bench.md).
fn run(rt: &(impl Print + Clock), input: &mut impl Read) -> Result<(), Failure> {
    let mut bench = Bench {
        session: Session {
            state: Fortuna::new(),
            text: [0u8; LINE_BUFFER],
            held: 0,
        },
        out: [0u8; MAX_OUTPUT],
    };
    let mut chunk = [0u8; CHUNK];
    for _ in 0..u64::MAX {
        match input.read(&mut chunk) {
            Ok(0) => break,
            Ok(n) => bench.feed(rt, &chunk[..n])?,
            Err(error) => {
                if !passes(rt, &error) {
                    return Err(Failure::Read(error));
                }
            }
        }
    }
    bench.end(rt)
}

// Where standard error cannot be written either, nothing is left to tell it to.
fn main(rt: HostRuntime) {
    if let Err(failure) = run(&rt, &mut rt.stdin()) {
        let _ = eprintln!(rt; "bench: {failure}");
    }
}
