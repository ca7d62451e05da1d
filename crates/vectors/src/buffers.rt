// The buffers of the program, and what is read into one.
ghost use Rattle.std.specs.Prelude.{◌≡◌, ◌≤◌, length, IfOk};

use std::io;
use std::io::Read;

// One byte more than the most of one call, and more than the input has.
pub(crate) const ROOM: usize = 1048577;

// A buffer of ROOM bytes, none of them 0.
// Kept: (c) a function of its own: with the array in main the check counts its length down and ends without a proof.
pub(crate) fn space() -> [u8; ROOM]
    ensures { 1048577 ≡ length result }
{
    [0xee; ROOM]
}

// Reads until the buffer is full or the input ends. Returns how many bytes came, which stand at the front.
pub(crate) fn read_full(input: &mut impl Read, buf: &mut [u8]) -> io::Result<usize>
    ensures { IfOk result (λ n. n ≤ length buf.new) }
{
    let mut done = 0;
    // Kept: (d) no read_to_end: it fills a Vec, which can run out of memory, where this array is filled up to ROOM and no further.
    while done < buf.len() {
        let n = input.read(&mut buf[done..])?;
        if n == 0 {
            break;
        }
        done += n;
    }
    Ok(done)
}
