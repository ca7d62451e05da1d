// The key schedule as 60 words.
ghost use Rattle.std.specs.Prelude.{◌≡◌, ◌<◌, ◌≤◌, ◌-◌};
ghost use Rattle.cipher.specs.Aes.{x_power, key_expansion};
ghost use Rattle.word_cipher.specs.Words.{packed};
ghost use Rattle.word_cipher.specs.Schedule.{sub_words, rotated_temp, four_more, Expands};

use crate::word::{byte_of, word_of};
use cipher::sub_byte;

// SubWord of the word whose bytes are bytes i, j, k and l of x.
#[tactic(auto, unfolding(crate::specs::Schedule::sub_words))]
fn sub_word(x: u32, i: usize, j: usize, k: usize, l: usize) -> u32
    requires { (i < 4) × (j < 4) × (k < 4) × (l < 4) }
    ensures { result ≡ sub_words x i j k l }
{
    let a = sub_byte(byte_of(x, i));
    let b = sub_byte(byte_of(x, j));
    let c = sub_byte(byte_of(x, k));
    let d = sub_byte(byte_of(x, l));
    word_of(a, b, c, d)
}

// The first byte of Rcon[n]: up to n = 7 a power of 2.
// Kept: (a) here as u32, in cipher as u8: shared it would be public, and no public function has a `requires`.
fn round_constant(n: usize) -> u32
    requires { (1 ≤ n) × (n < 8) }
    ensures { result ≡ x_power (n - 1) }
{
    1 << (n - 1)
}

// temp of KeyExpansion at word i, where 8 divides i, from the word before: with RotWord and the round constant.
#[tactic(auto, unfolding(crate::specs::Schedule::rotated_temp))]
fn rotated_temp(i: usize, x: u32) -> u32
    requires { (8 ≤ i) × (i < 60) }
    ensures { result ≡ rotated_temp i x }
{
    sub_word(x, 1, 2, 3, 0) ^ round_constant(i / 8)
}

// Words i to i + 3, from temp at i.
#[tactic(auto, unfolding(crate::specs::Schedule::four_more))]
fn four_more(w: &mut [u32; 60], i: usize, temp: u32)
    requires { (8 ≤ i) × (i ≤ 56) }
    ensures { w.new ≡ four_more w.old i temp }
{
    let a = w[i - 8] ^ temp;
    let b = w[i - 7] ^ a;
    let c = w[i - 6] ^ b;
    let d = w[i - 5] ^ c;
    w[i] = a;
    w[i + 1] = b;
    w[i + 2] = c;
    w[i + 3] = d;
}

// Words 8 to 59, from the key's own: eight a turn.
fn grow(words: &mut [u32; 60])
    ensures { Expands words.old words.new }
{
    for turn in 1..7 {
        let i = 8 * turn;
        let rotated = rotated_temp(i, words[i - 1]);
        four_more(words, i, rotated);
        let plain = sub_word(words[i + 3], 0, 1, 2, 3);
        four_more(words, i + 4, plain);
    }
    let last = rotated_temp(56, words[55]);
    four_more(words, 56, last);
}

// An expanded key as words: 15 round keys of four.
#[repr(C)]
#[derive(Clone, Copy)]
pub struct Schedule {
    pub words: [u32; 60],
}

// KeyExpansion.
pub fn expand_key(key: [u8; 32]) -> Schedule
    ensures { result.words ≡ packed 60 (key_expansion key) }
{
    let mut words = [0u32; 60];
    for (k, bytes) in key.as_chunks::<4>().0.iter().enumerate() {
        words[k] = u32::from_le_bytes(*bytes);
    }
    grow(&mut words);
    Schedule { words }
}
