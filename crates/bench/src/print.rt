// What a line prints.
ghost use Rattle.std.specs.Prelude.{◌≡◌, ◌+◌, ◌≤◌, ◌<◌, length};
ghost use Rattle.pools.specs.Promises.{number};
ghost use Rattle.bench.specs.Lines.{number_line, output_line, Shown};

use crate::hex::encode;
use crate::line::MAX_OUTPUT;
use laws::{Numbered, overwrite};
use pools::{Fortuna, Outcome};

// The digit of a number below 10.
fn decimal_digit(n: u32) -> u8
    requires { n < 10 }
    ensures { result ≡ 48 + n }
{
    b'0' + n as u8
}

// A number below 100 in two decimal digits, and the line feed.
// Kept: (c) digits by hand: with `write!` of `{:02}` into the buffer nothing is known of what it then holds.
#[tactic(auto, unfolding(crate::specs::Lines::number_line, crate::specs::Hexadecimal::decimal))]
pub(crate) fn number_line(number: u32, out: &mut [u8; MAX_OUTPUT]) -> usize
    requires { number < 100 }
    ensures { Shown (number_line number) result out.old out.new }
{
    let line = [
        decimal_digit(number / 10),
        decimal_digit(number % 10),
        b'\n',
    ];
    overwrite(out, &line);
    line.len()
}

// The line of a request, an update or a write, by what it came to: a refusal's number, or 00, the pools emptied, and the bytes.
pub(crate) fn output_line(
    outcome: &Outcome<Fortuna>,
    bytes: &[u8],
    out: &mut [u8; MAX_OUTPUT],
) -> usize
    requires { (outcome.now.emptied < 100) × (length bytes.now ≤ 65535) }
    ensures { Shown (output_line (number outcome.now.answer) outcome.now.emptied bytes.now) result out.old out.new }
{
    if let Err(refusal) = outcome.answer {
        return number_line(refusal.number(), out);
    }
    let tens = decimal_digit(outcome.emptied / 10);
    let ones = decimal_digit(outcome.emptied % 10);
    if bytes.is_empty() {
        let line = [b'0', b'0', b' ', tens, ones, b'\n'];
        overwrite(out, &line);
        return line.len();
    }
    overwrite(out, &[b'0', b'0', b' ', tens, ones, b' ']);
    encode(bytes, &mut out[6..]);
    let n = 6 + 2 * bytes.len();
    out[n] = b'\n';
    n + 1
}
