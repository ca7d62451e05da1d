// Test vectors of SHA-256, D, AES-256 and the generator. Reads cases from standard input, a line each, and prints the answers.
//
// A line has two letters, what is called and how; a space; bytes in hexadecimal, the call's arguments; a space; and a title.
// What is printed is the title, a colon, and the answer. Where the first letter is a capital, there is no title, and nothing is
// printed: the line sets a state for later ones. tests/independent/vectors.py writes the cases, and works out
// the answers without this program.
#![tactic(auto)]

mod buffers;
mod cases;
mod ciphers;
mod generators;
mod hashes;
mod lines;
mod text;

use buffers::{ROOM, read_full, space};
use cases::Case;
use generator::Generator;
use hash::Hasher;
use laws::{after, front};
use std::io;
use text::decode;

// The most bytes of a case.
const MOST: usize = 1024;

// What lines leave for later ones: a running hash and a generator.
#[derive(Clone, Copy)]
struct Held {
    hasher: Hasher,
    generator: Generator,
}

// The fewest bytes that a line's letters ask for, where they name a call.
// Kept: (d) calls are the letters of the lines, here, in ciphers, generators and hashes: an enum would say each a second time.
fn least(letter: u8, call: u8) -> Option<usize> {
    match (letter, call) {
        (b'h', b's' | b'd' | b'f' | b'p' | b'A' | b'F' | b'P') => Some(0),
        (b'G', b'n') | (b'g', b's') => Some(0),
        (b'H', b'n' | b'e' | b'a') => Some(2),
        (b'g', b'b' | b'r') => Some(3),
        (b'G', b't') => Some(5),
        (b'H', b'g') => Some(8),
        (b'h', b'j') => Some(32),
        (b'c' | b'w', b'w') => Some(33),
        (b'c' | b'w', b'e' | b'x') | (b'G', b'k') => Some(48),
        (b'w', b'p') => Some(49),
        _ => None,
    }
}

// Whether a line with n bytes is a case: its letters name a call, which asks for no more bytes, and what is left is a title after
// a space, or nothing where there is to be no title.
fn is_case(letter: u8, call: u8, n: usize, left: &[u8]) -> bool {
    let titled = match left {
        [] => letter.is_ascii_uppercase(),
        [first, ..] => !letter.is_ascii_uppercase() && *first == b' ',
    };
    titled && least(letter, call).is_some_and(|bytes| bytes <= n)
}

// The call of a case.
fn called(rt: &impl Print, case: Case, held: Held, out: &mut [u8; ROOM]) -> io::Result<Held> {
    match case.letter {
        b'h' => {
            hashes::answer(rt, case, held.hasher)?;
            Ok(held)
        }
        b'c' | b'w' => {
            ciphers::answer(rt, case)?;
            Ok(held)
        }
        b'H' => Ok(Held {
            hasher: hashes::set(case, held.hasher),
            ..held
        }),
        _ => Ok(Held {
            generator: generators::called(rt, case, held.generator, out)?,
            ..held
        }),
    }
}

// What a line leaves, when it is done.
// Kept: (d) rt, held and out side by side, here and in what this calls: a struct of them would be taken apart at each call.
fn done(rt: &impl Print, line: &[u8], held: Held, out: &mut [u8; ROOM]) -> io::Result<Held> {
    if let [letter, call, b' ', fields @ ..] = line {
        let mut bytes = [0u8; MOST];
        let n = decode(fields, &mut bytes);
        let left = after(after(fields, n), n);
        if is_case(*letter, *call, n, left) {
            lines::title(rt, after(left, 1))?;
            let case = Case {
                letter: *letter,
                call: *call,
                data: front(&bytes, n),
            };
            let next = called(rt, case, held, out)?;
            lines::end(rt, left)?;
            return Ok(next);
        }
    }
    lines::not_understood(rt, line)?;
    Ok(held)
}

// All lines, each on what the ones before it left.
fn run(rt: &impl Print, input: &[u8], out: &mut [u8; ROOM]) -> io::Result<()> {
    if input.len() >= ROOM {
        return lines::not_understood(rt, b"an input that long");
    }
    let mut held = Held {
        hasher: Hasher::new(),
        generator: Generator::new(),
    };
    for line in input.split_inclusive(|b| *b == b'\n') {
        held = done(rt, line.strip_suffix(b"\n").unwrap_or(line), held, out)?;
    }
    Ok(())
}

fn main(rt: HostRuntime) -> io::Result<()> {
    let mut input = space();
    let mut out = space();
    let n = read_full(&mut rt.stdin(), &mut input)?;
    run(&rt, &input[..n], &mut out)
}
