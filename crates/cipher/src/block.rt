// A block enciphered.
ghost use Rattle.std.specs.Prelude.{◌≡◌, ◌<◌};
ghost use Rattle.cipher.specs.Aes.{round, cipher_with, cipher};

use crate::key::{Schedule, expand_key};
use crate::state::{add_round_key, mix_columns, shift_rows, sub_bytes};

#[tactic(auto, unfolding(crate::specs::Aes::round))]
fn round(schedule: &[u8; 240], n: usize, state: [u8; 16]) -> [u8; 16]
    requires { n < 15 }
    ensures { result ≡ round schedule.now n state }
{
    add_round_key(schedule, n, mix_columns(shift_rows(sub_bytes(state))))
}

// All rounds, over a lent schedule.
fn encrypt_block(schedule: &[u8; 240], block: [u8; 16]) -> [u8; 16]
    ensures { result ≡ cipher_with schedule.now block }
{
    let mut state = add_round_key(schedule, 0, block);
    for n in 1..14 {
        // Kept: (c) `state = round(.., state)` is not proved, since state is an array that the call is passed too.
        let next = round(schedule, n, state);
        state = next;
    }
    add_round_key(schedule, 14, shift_rows(sub_bytes(state)))
}

// A block under an expanded key.
pub fn encrypt_with(schedule: Schedule, block: [u8; 16]) -> [u8; 16]
    ensures { result ≡ cipher_with schedule.words block }
{
    encrypt_block(&schedule.words, block)
}

// A block under a key.
#[tactic(auto, unfolding(crate::specs::Aes::cipher))]
pub fn encrypt(key: [u8; 32], block: [u8; 16]) -> [u8; 16]
    ensures { result ≡ cipher key block }
{
    encrypt_with(expand_key(key), block)
}
