// One line into a lent buffer, as a frame of the wanted kind.
ghost use Rattle.std.specs.Prelude.{◌≡◌, ◌++◌, ◌+◌, ◌≤◌, length};
ghost use Rattle.laws.specs.Lists.{overwrite};
ghost use Rattle.convert.specs.Logs.{end_of, line_with};
ghost use Rattle.convert.specs.Promises.{ConvertsLine, StoresText, PartsStored, EndStored};

use crate::action::{Action, action_of};
use crate::refusal::Refusal;
use bench::line::frame_of_text;
use laws::after;

// How many characters end a line.
#[tactic(auto, unfolding(crate::specs::Logs::end_of))]
fn end_size(ended: bool) -> usize
    ensures { result ≡ length (end_of ended) }
{
    usize::from(ended)
}

// A line feed at a place, where one ends the line.
fn store_end(ended: bool, at: usize, out: &mut [u8])
    requires { at + length (end_of ended) ≤ length out.old }
    ensures { EndStored ended at out.old out.new }
{
    if ended {
        out[at] = b'\n';
    }
}

// The first characters of out become those of s, as many as there is room for.
// Kept: (a) beside `overwrite` of laws, as a loop: between two lent slices that one calls memmove, which the archive may not need (fortuna.h).
fn copy_in(out: &mut [u8], s: &[u8])
    ensures { out.new ≡ overwrite out.old s.now }
{
    let n = s.len().min(out.len());
    for (i, c) in s[..n].iter().enumerate() {
        out[i] = *c;
    }
}

// One text behind the other, at the front.
fn store_parts(front: &[u8], rest: &[u8], out: &mut [u8])
    requires { length front.now + length rest.now ≤ length out.old }
    ensures { PartsStored front.now rest.now out.old out.new }
{
    copy_in(out, front);
    copy_in(&mut out[front.len()..], rest);
}

// A text in two parts and its end, if there is room for all of it: how many bytes that is. The first part is short, so that no sum of
// lengths overflows.
fn put(front: &[u8], rest: &[u8], ended: bool, out: &mut [u8]) -> Result<usize, Refusal>
    requires { length front.now ≤ 4 }
    ensures { StoresText ((front.now ++ rest.now) ++ end_of ended) result out.old out.new }
{
    let size = front.len() + rest.len();
    let total = size + end_size(ended);
    if out.len() < total {
        return Err(Refusal::NoRoom);
    }
    store_parts(front, rest, out);
    store_end(ended, size, out);
    Ok(total)
}

// A line's text and end: how many bytes were written.
pub(crate) fn convert_line(
    text: &[u8],
    ended: bool,
    wide: bool,
    out: &mut [u8],
) -> Result<usize, Refusal>
    ensures { ConvertsLine wide (line_with text.now ended) result out.old out.new }
{
    match action_of(frame_of_text(text), wide)? {
        Action::Keep => put(b"", text, ended, out),
        Action::Widen => put(b"0500", after(text, 2), ended, out),
        Action::Narrow => put(b"01", after(text, 4), ended, out),
    }
}
