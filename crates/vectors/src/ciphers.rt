// AES-256, byte by byte (c) and by tables (w). The line's bytes begin with the key.
use crate::cases::Case;
use crate::lines;
use crate::text::number;
use laws::{after, front, overwrite};
use std::io;

// A block with a mask added; no byte of a mask is 0.
fn masked(mut block: [u8; 16], mask: &[u8]) -> [u8; 16] {
    for (b, m) in block.iter_mut().zip(mask) {
        *b ^= *m;
    }
    block
}

// Byte by byte: a block under the key (e), 4 bytes of the expanded key from a place on (w), a block under the expanded key with a mask
// added (x).
// Kept: (d) beside `by_tables`: their schedules are of two types, and each of the calls is another function.
fn bytewise(rt: &impl Print, case: Case, key: [u8; 32], block: [u8; 16]) -> io::Result<()> {
    let schedule = cipher::expand_key(key);
    match case.call {
        b'e' => lines::bytes(rt, b"", &cipher::encrypt(key, block)),
        b'w' => {
            let place = number(after(case.data, 32)) as usize;
            lines::bytes(rt, b"", front(after(&schedule.words, place), 4))
        }
        _ => {
            let c = masked(cipher::encrypt_with(schedule, block), after(case.data, 48));
            lines::bytes(rt, b"", &c)
        }
    }
}

// By tables: the same, with the number of a word where that has a place (w), and the block writer, cut short in 18 bytes, which keep
// 0xee behind it (p).
fn by_tables(rt: &impl Print, case: Case, key: [u8; 32], block: [u8; 16]) -> io::Result<()> {
    let tables = word_cipher::tables();
    let words = word_cipher::expand_key(key).words;
    let rest = after(case.data, 48);
    match case.call {
        b'e' => lines::bytes(rt, b"", &word_cipher::encrypt(key, block)),
        b'w' => {
            let word = words.get(number(after(case.data, 32)) as usize);
            lines::bytes(rt, b"", &word.copied().unwrap_or(0).to_le_bytes())
        }
        b'x' => {
            let c = masked(word_cipher::encrypt_by(tables, &words, block), rest);
            lines::bytes(rt, b"", &c)
        }
        _ => {
            let mut out = [0xee; 18];
            if let Some(part) = out.get_mut(..number(rest) as usize) {
                word_cipher::write_block(tables, &words, block, part);
            }
            lines::bytes(rt, b"", &out)
        }
    }
}

// Prints what the cipher that the letter names answers.
pub(crate) fn answer(rt: &impl Print, case: Case) -> io::Result<()> {
    let mut key = [0u8; 32];
    let mut block = [0u8; 16];
    overwrite(&mut key, case.data);
    overwrite(&mut block, after(case.data, 32));
    match case.letter {
        b'c' => bytewise(rt, case, key, block),
        _ => by_tables(rt, case, key, block),
    }
}
