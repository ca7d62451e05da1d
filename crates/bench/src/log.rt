// A whole log in one call.
ghost use Rattle.std.specs.Prelude.{◌≡◌, min, length};
ghost use Rattle.laws.specs.Lists.{overwrite};
ghost use Rattle.bench.specs.Input.{transcript};

use crate::buffer::append;
use crate::line::{MAX_OUTPUT, line};
use pools::Fortuna;

// What a log prints from a fresh state, at the front of out, as many characters as there is room for. Returns how many were stored.
pub fn log(input: &[u8], out: &mut [u8]) -> usize
    ensures { (result ≡ min (length (transcript input.now)) (length out.old)) × (out.new ≡ overwrite out.old (transcript input.now)) }
{
    let mut printed = [0u8; MAX_OUTPUT];
    let mut state = Fortuna::new();
    let mut stored = 0;
    for part in input.split_inclusive(|c| *c == b'\n') {
        let text = part.strip_suffix(b"\n").unwrap_or(part);
        let o = line(state, text, &mut printed);
        stored = append(out, stored, &printed[..o.written]);
        state = o.next;
    }
    stored
}
