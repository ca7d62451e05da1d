// The key schedule: 60 words of 4 bytes.
ghost use Rattle.std.specs.Prelude.{◌≡◌, ◌<◌, ◌≤◌, ◌*◌, ◌-◌};
ghost use Rattle.std.proofs.Math.Seq.{paste};
ghost use Rattle.cipher.specs.Aes.{word_at, xor_word, sub_word, x_power, temp, next_word, key_expansion};

use crate::field::sub_byte;
use laws::overwrite;
use std::array;

// The first byte of Rcon[n]: up to n = 7 a power of 2.
// Kept: (a) here as u8, in word_cipher as u32: shared it would be public, and no public function has a `requires`.
fn round_constant(n: usize) -> u8
    requires { (1 ≤ n) × (n < 8) }
    ensures { result ≡ x_power (n - 1) }
{
    1 << (n - 1)
}

// Word i of a schedule.
fn word_at(w: &[u8; 240], i: usize) -> [u8; 4]
    requires { i < 60 }
    ensures { result ≡ word_at w.now i }
{
    array::from_fn(|k| w[4 * i + k])
}

// Word i of a schedule is stored.
fn put_word(w: &mut [u8; 240], i: usize, word: [u8; 4])
    requires { i < 60 }
    ensures { w.new ≡ paste w.old (4 * i) word 4 }
{
    w[4 * i..4 * i + 4].copy_from_slice(&word);
}

// Kept: (c) beside `xored` of ctr_drbg (48 bytes; here 4): of the closure in one function over `N` the check finds no element.
fn xor_word(s: [u8; 4], t: [u8; 4]) -> [u8; 4]
    ensures { result ≡ xor_word s t }
{
    array::from_fn(|i| s[i] ^ t[i])
}

fn sub_word(t: [u8; 4]) -> [u8; 4]
    ensures { result ≡ sub_word t }
{
    t.map(sub_byte)
}

// temp of KeyExpansion at word i, from the word before.
#[tactic(auto, unfolding(crate::specs::Aes::temp))]
fn temp(i: usize, t: [u8; 4]) -> [u8; 4]
    requires { (8 ≤ i) × (i < 60) }
    ensures { result ≡ temp i t }
{
    // Kept: (b) with `match i % 8` in place of the two tests a key expansion takes 1.43 times the instructions (docs/BENCHMARKS.md).
    if i % 8 == 0 {
        let rotated = [t[1], t[2], t[3], t[0]];
        return xor_word(sub_word(rotated), [round_constant(i / 8), 0, 0, 0]);
    }
    if i % 8 == 4 {
        return sub_word(t);
    }
    t
}

#[tactic(auto, unfolding(crate::specs::Aes::next_word))]
fn next_word(w: &[u8; 240], i: usize) -> [u8; 4]
    requires { (8 ≤ i) × (i < 60) }
    ensures { result ≡ next_word w.now i }
{
    xor_word(word_at(w, i - 8), temp(i, word_at(w, i - 1)))
}

// An expanded key: 60 words, that is 15 round keys of 16 bytes.
#[repr(C)]
#[derive(Clone, Copy)]
pub struct Schedule {
    pub words: [u8; 240],
}

// KeyExpansion.
pub fn expand_key(key: [u8; 32]) -> Schedule
    ensures { result.words ≡ key_expansion key }
{
    let mut words = [0u8; 240];
    overwrite(&mut words, &key);
    // Kept: (d) by index: word i is made of words before it in the same array.
    for i in 8..60 {
        let word = next_word(&words, i);
        put_word(&mut words, i, word);
    }
    Schedule { words }
}
