// The generator, on the state that earlier lines left. All calls are lent one buffer or its front, as earlier lines left it.
use crate::buffers::ROOM;
use crate::cases::Case;
use crate::lines;
use crate::text::number;
use generator::{Generator, Outcome};
use laws::{after, front, number_of, overwrite};
use std::io;

// A state that no call here has led to: key and counter.
fn given(data: &[u8]) -> Generator {
    let mut key = [0u8; 32];
    let mut counter = [0u8; 16];
    overwrite(&mut key, data);
    overwrite(&mut counter, after(data, 32));
    Generator { key, counter }
}

// Prints what a call gave, and hands the state on that follows.
fn shown(rt: &impl Print, o: Outcome) -> io::Result<Generator> {
    lines::number(rt, b"", number_of(o.answer))?;
    lines::bytes(rt, b" key ", &o.next.key)?;
    lines::bytes(rt, b" counter ", &o.next.counter)?;
    Ok(o.next)
}

// Prints a lent buffer: its bytes, or their SHA-256 where they are more than 64; nothing where it is empty.
fn buffer(rt: &impl Print, out: &[u8]) -> io::Result<()> {
    match out.len() {
        0 => Ok(()),
        1..=64 => lines::bytes(rt, b" buffer ", out),
        _ => {
            let digest = hash::sha256(out).unwrap_or([0; 32]);
            lines::bytes(rt, b" buffer sha256 ", &digest)
        }
    }
}

// Reseeds by what the buffer holds, each before a request that fills it, as often as said.
fn turns(mut g: Generator, times: u64, out: &mut [u8]) -> Generator {
    for _ in 0..times {
        g = g.reseed(out).next;
        g = g.pseudo_random_data(out).next;
    }
    g
}

// Blocks (b), turns (t), as often as the bytes after the buffer's length say, or a request (r).
// Kept: (d) rt, case, g and out side by side in three functions: a struct of them would be taken apart at each call.
fn filled(rt: &impl Print, case: Case, g: Generator, out: &mut [u8]) -> io::Result<Generator> {
    match case.call {
        b'b' => shown(rt, g.generate_blocks(out)),
        b't' => Ok(turns(g, number(front(after(case.data, 3), 2)), out)),
        _ => shown(rt, g.pseudo_random_data(out)),
    }
}

// A call on the buffer: the first three bytes are its length, and those after the numbers what its front holds.
fn lent(rt: &impl Print, case: Case, g: Generator, out: &mut [u8; ROOM]) -> io::Result<Generator> {
    let numbers = if case.call == b't' { 5 } else { 3 };
    overwrite(out, after(case.data, numbers));
    let n = number(front(case.data, 3)) as usize;
    let next = match out.get_mut(..n) {
        Some(part) => filled(rt, case, g, part)?,
        None => g,
    };
    if case.call != b't' {
        buffer(rt, front(out, n))?;
    }
    Ok(next)
}

// A new state (n), a given one (k), a reseed (s), or a call on the buffer.
pub(crate) fn called(
    rt: &impl Print,
    case: Case,
    g: Generator,
    out: &mut [u8; ROOM],
) -> io::Result<Generator> {
    match case.call {
        b'n' => Ok(Generator::new()),
        b'k' => Ok(given(case.data)),
        b's' => shown(rt, g.reseed(case.data)),
        _ => lent(rt, case, g, out),
    }
}
