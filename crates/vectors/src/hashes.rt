// SHA-256 and D: of the line's bytes, and of a running hash that earlier lines left.
use crate::cases::Case;
use crate::lines;
use crate::text::number;
use hash::{Hasher, TooLong};
use laws::{after, front, number_of};
use std::io;

// A state that no message is known for: another hash value, and a tail with no zeros after its bytes.
fn given(length: u64) -> Hasher {
    Hasher {
        chain: [
            0x0123_4567,
            0x1234_5678,
            0x2345_6789,
            0x3456_789a,
            0x4567_89ab,
            0x5678_9abc,
            0x6789_abcd,
            0x789a_bcde,
        ],
        tail: [0xa5; 64],
        length,
    }
}

// The part is absorbed as often as said.
fn absorbed(mut h: Hasher, times: u64, part: &[u8]) -> Hasher {
    for _ in 0..times {
        h = h.absorb(part).next;
    }
    h
}

// Sets the running hash: g gives it by its length; n, e and a absorb bytes as often as the first two say, from a new one, from an
// empty pool, and from what it is.
pub(crate) fn set(case: Case, state: Hasher) -> Hasher {
    let start = match case.call {
        b'g' => return given(number(front(case.data, 8))),
        b'n' => Hasher::new(),
        b'e' => Hasher::empty_pool(),
        _ => state,
    };
    absorbed(start, number(front(case.data, 2)), after(case.data, 2))
}

// The digest of the line's bytes, s by SHA-256, d by D, j by D with the first 32 as a part of their own; or of the running hash, f
// by SHA-256 and any other by D.
fn hashed(case: Case, state: Hasher) -> Result<[u8; 32], TooLong> {
    match case.call {
        b's' => hash::sha256(case.data),
        b'd' => hash::sha_d256(case.data),
        b'j' => hash::sha_d256_joined(front(case.data, 32), after(case.data, 32)),
        b'f' | b'F' => state.finish(),
        _ => state.pool_digest(),
    }
}

// Prints a digest; for a capital the answer's number, with A that of absorbing the line's bytes.
pub(crate) fn answer(rt: &impl Print, case: Case, state: Hasher) -> io::Result<()> {
    match case.call {
        b'A' => lines::number(rt, b"", number_of(state.absorb(case.data).answer)),
        b'F' | b'P' => lines::number(rt, b"", number_of(hashed(case, state))),
        _ => lines::bytes(rt, b"", &hashed(case, state).unwrap_or([0; 32])),
    }
}
