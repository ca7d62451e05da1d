// One line: which frame it is, and what it does on a Fortuna state.
ghost use Rattle.std.specs.Prelude.{◌≡◌, ◌≤◌, length, true, false, Some, None, IfSome, IfNone};
ghost use Rattle.pools.specs.Calls.{event, request, update, write};
ghost use Rattle.pools.specs.Refusals.{seed_size};
ghost use Rattle.bench.specs.Frames.{max_line, frame_of, frame_of_text, is_readable};
ghost use Rattle.bench.specs.Hexadecimal.{decode_hex};
ghost use Rattle.bench.specs.Buffers.{zeros};
ghost use Rattle.bench.specs.Lines.{call_of, executed, line_of, Prints};

use crate::frame::{Frame, parse};
use crate::hex::{decode, is_hex};
use crate::print::{number_line, output_line};
use laws::number_of;
use pools::Fortuna;

// The most characters of a line, its line feed not counted: of one that begins with 05, and of any other.
pub(crate) const MAX_WIDE_LINE: usize = 258;

const MAX_OTHER_LINE: usize = 256;

// Room for the longest line that is printed: 00, the pools emptied, 65,535 bytes, and the line feed.
pub const MAX_OUTPUT: usize = 2 * 65535 + 7;

// What is printed of a line that is no frame.
const NO_FRAME: u32 = 16;

// The state after a line, and how many characters the line printed.
// Kept: (a) `next` beside `written`: the project's form, by which a call takes the state and gives the next one back.
#[derive(Clone, Copy)]
pub struct LineOutcome {
    pub next: Fortuna,
    pub written: usize,
}

// The most characters that a line may have: its first two decide.
#[tactic(auto, unfolding(crate::specs::Frames::max_line, crate::specs::Frames::is_wide))]
fn max_line(text: &[u8]) -> usize
    ensures { result ≡ max_line text.now }
{
    match text {
        [b'0', b'5', ..] => MAX_WIDE_LINE,
        _ => MAX_OTHER_LINE,
    }
}

// Whether a line's characters stand for bytes, and are no more than a frame's may be. In line, as `line_bytes` is.
#[inline(always)]
fn is_readable(text: &[u8]) -> bool
    ensures { result ≡ is_readable text.now }
{
    text.len() <= max_line(text) && is_hex(text)
}

// The bytes that a line's characters stand for, in the buffer, if they stand for any. In line: a conversion of events without data takes
// 1.3 times the instructions with a call here (docs/LOOK-BACK.md).
#[inline(always)]
fn line_bytes<'a>(text: &[u8], buffer: &'a mut [u8; MAX_WIDE_LINE / 2]) -> Option<&'a mut [u8]>
    ensures some { IfSome result (λ bytes. (is_readable text.now ≡ true) × (bytes.now ≡ decode_hex text.now)) }
    ensures none { IfNone result (is_readable text.now ≡ false) }
{
    if !is_readable(text) {
        return None;
    }
    decode(text, buffer);
    Some(&mut buffer[..text.len() / 2])
}

// The frame that a line of text is, without its line feed.
pub fn frame_of_text(text: &[u8]) -> Option<Frame>
    ensures { result ≡ frame_of_text text.now }
{
    let mut buffer = [0u8; MAX_WIDE_LINE / 2];
    parse(line_bytes(text, &mut buffer)?)
}

// No frame: no call is made.
// Kept: (d) state and out side by side in seven functions: a struct of them would be made for one call and taken apart in it.
fn invalid_line(state: Fortuna, out: &mut [u8; MAX_OUTPUT]) -> LineOutcome
    ensures { Prints (executed state None) result out.old out.new }
{
    LineOutcome {
        next: state,
        written: number_line(NO_FRAME, out),
    }
}

fn event_line(
    state: Fortuna,
    source: u32,
    pool: u32,
    data: &[u8],
    out: &mut [u8; MAX_OUTPUT],
) -> LineOutcome
    ensures { Prints (executed state (Some (event source pool «data».now))) result out.old out.new }
{
    let outcome = state.add_event(source, pool, data);
    LineOutcome {
        next: outcome.next,
        written: number_line(number_of(outcome.answer), out),
    }
}

// Kept: (d) this, update_line and write_line end alike: a helper for that, with its contract, is longer than what it saves.
fn request_line(state: Fortuna, clock: u32, count: u16, out: &mut [u8; MAX_OUTPUT]) -> LineOutcome
    ensures { Prints (executed state (Some (request clock (zeros count)))) result out.old out.new }
{
    let mut bytes = [0u8; 65535];
    let n = usize::from(count);
    let outcome = state.random_data(clock, &mut bytes[..n]);
    LineOutcome {
        next: outcome.next,
        written: output_line(&outcome, &bytes[..n], out),
    }
}

fn update_line(
    state: Fortuna,
    clock: u32,
    seed: &mut [u8],
    out: &mut [u8; MAX_OUTPUT],
) -> LineOutcome
    requires { length seed.old ≤ 65535 }
    ensures { Prints (executed state (Some (update clock seed.old))) result out.old out.new }
{
    let outcome = state.update_seed(clock, seed);
    LineOutcome {
        next: outcome.next,
        written: output_line(&outcome, seed, out),
    }
}

fn write_line(state: Fortuna, clock: u32, out: &mut [u8; MAX_OUTPUT]) -> LineOutcome
    ensures { Prints (executed state (Some (write clock (zeros seed_size)))) result out.old out.new }
{
    let mut seed = [0u8; 64];
    let outcome = state.write_seed(clock, &mut seed);
    LineOutcome {
        next: outcome.next,
        written: output_line(&outcome, &seed, out),
    }
}

// The call of a frame of bytes. An update writes over its seed.
fn execute(state: Fortuna, bytes: &mut [u8], out: &mut [u8; MAX_OUTPUT]) -> LineOutcome
    requires { length bytes.old ≤ 129 }
    ensures { Prints (executed state (call_of (frame_of bytes.old) bytes.old)) result out.old out.new }
{
    match parse(bytes) {
        Some(Frame::Event { source, pool }) => event_line(state, source, pool, &bytes[3..], out),
        Some(Frame::Request { clock, count }) => request_line(state, clock, count, out),
        Some(Frame::Update { clock }) => update_line(state, clock, &mut bytes[5..], out),
        Some(Frame::Write { clock }) => write_line(state, clock, out),
        Some(Frame::WideEvent { source, pool }) => {
            event_line(state, source, pool, &bytes[4..], out)
        }
        None => invalid_line(state, out),
    }
}

// A line, without its line feed: the next state, and what it prints at the front of out.
pub fn line(state: Fortuna, text: &[u8], out: &mut [u8; MAX_OUTPUT]) -> LineOutcome
    ensures { Prints (line_of state text.now) result out.old out.new }
{
    let mut buffer = [0u8; MAX_WIDE_LINE / 2];
    match line_bytes(text, &mut buffer) {
        Some(bytes) => execute(state, bytes, out),
        None => invalid_line(state, out),
    }
}
