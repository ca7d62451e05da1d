// Call logs of both kinds (02 (xii)): event frames 01 become 05, or 05 become 01, line by line, into a lent buffer.
#![tactic(auto)]

mod action;
mod line;
mod outcome;
mod refusal;

ghost use Rattle.std.specs.Prelude.{length};
ghost use Rattle.convert.specs.Logs.{conversion};
ghost use Rattle.convert.specs.Promises.{Gives};

use line::convert_line;
pub use outcome::{Outcome, Refused};
pub use refusal::Refusal;

// A whole log, at the front of out: 05 for every event where `wide`, else 01. A refused line ends the work; those before it are written.
// Kept: (a) a bool for the kind wanted, here and in what this calls: C has it (fortuna_convert), and `conversion` takes it.
pub fn convert(log: &[u8], wide: bool, out: &mut [u8]) -> Outcome
    ensures { Gives (conversion wide (length out.old) log.now) result out.old out.new }
{
    let mut line = 1;
    let mut written = 0;
    for part in log.split_inclusive(|c| *c == b'\n') {
        let text = part.strip_suffix(b"\n").unwrap_or(part);
        match convert_line(text, text.len() < part.len(), wide, &mut out[written..]) {
            Ok(n) => written += n,
            Err(refusal) => {
                return Outcome {
                    answer: Err(Refused { line, refusal }),
                    written,
                };
            }
        }
        line += 1;
    }
    Outcome {
        answer: Ok(()),
        written,
    }
}
