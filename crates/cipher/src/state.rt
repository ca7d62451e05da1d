// The steps of a round, on a state by value.
ghost use Rattle.std.specs.Prelude.{◌≡◌, [], ◌∷◌, ◌<◌};
ghost use Rattle.laws.specs.Lists.{tabulate};
ghost use Rattle.cipher.specs.Aes.{sub_bytes, shift_rows, mixed_byte, mix_columns, add_round_key};

use crate::field::{double, sub_byte};
use std::array;

// Each byte is replaced by its substitution.
pub(crate) fn sub_bytes(state: [u8; 16]) -> [u8; 16]
    ensures { result ≡ sub_bytes state }
{
    state.map(sub_byte)
}

pub(crate) fn shift_rows(state: [u8; 16]) -> [u8; 16]
    ensures { result ≡ shift_rows state }
{
    array::from_fn(|i| state[(i + 4 * (i % 4)) % 16])
}

// A column after MixColumns, from its four bytes; {03} times a byte is its double and itself.
fn mixed_column(a: u8, b: u8, c: u8, d: u8) -> [u8; 4]
    ensures { result ≡ tabulate (mixed_byte (a ∷ b ∷ c ∷ d ∷ [])) 4 }
{
    let a2 = double(a);
    let b2 = double(b);
    let c2 = double(c);
    let d2 = double(d);
    [
        a2 ^ (b2 ^ b) ^ c ^ d,
        b2 ^ (c2 ^ c) ^ d ^ a,
        c2 ^ (d2 ^ d) ^ a ^ b,
        d2 ^ (a2 ^ a) ^ b ^ c,
    ]
}

// Column after column, at constant places.
// Kept: (c) written out: behind a loop over `as_chunks_mut` no element is known; by `array::from_fn` over columns the places were not proved.
#[tactic(auto, unfolding(crate::specs::Aes::mix_columns, crate::specs::Aes::mixed_byte, laws::specs::Lists::tabulate))]
pub(crate) fn mix_columns(state: [u8; 16]) -> [u8; 16]
    ensures { result ≡ mix_columns state }
{
    let s = mixed_column(state[0], state[1], state[2], state[3]);
    let t = mixed_column(state[4], state[5], state[6], state[7]);
    let u = mixed_column(state[8], state[9], state[10], state[11]);
    let v = mixed_column(state[12], state[13], state[14], state[15]);
    [
        s[0], s[1], s[2], s[3], t[0], t[1], t[2], t[3], u[0], u[1], u[2], u[3], v[0], v[1], v[2],
        v[3],
    ]
}

// Round key n of the schedule is added.
pub(crate) fn add_round_key(schedule: &[u8; 240], n: usize, state: [u8; 16]) -> [u8; 16]
    requires { n < 15 }
    ensures { result ≡ add_round_key schedule.now n state }
{
    array::from_fn(|i| state[i] ^ schedule[16 * n + i])
}
