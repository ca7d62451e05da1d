// A block enciphered: rounds of table look-ups.
ghost use Rattle.std.specs.Prelude.{◌≡◌, ◌<◌};
ghost use Rattle.laws.specs.Lists.{overwrite};
ghost use Rattle.cipher.specs.Aes.{cipher_with, cipher};
ghost use Rattle.word_cipher.specs.Words.{packed, unpacked};
ghost use Rattle.word_cipher.specs.Cipher.{mixed_word, substituted, last_word, add_words, word_round, last_round, word_cipher};

use crate::key::{Schedule, expand_key};
use crate::table::tables;
use crate::word::{byte_of, word_in, word_of};
use laws::overwrite;
use std::array;

// A mixed column, from the words that hold its four bytes.
#[tactic(auto, unfolding(crate::specs::Cipher::mixed_word))]
fn mixed_word(t: &[u32; 1024], p: u32, q: u32, r: u32, s: u32) -> u32
    ensures { result ≡ mixed_word t.now p q r s }
{
    let a = byte_of(p, 0);
    let b = byte_of(q, 1);
    let c = byte_of(r, 2);
    let d = byte_of(s, 3);
    t[usize::from(a)] ^ t[256 + usize::from(b)] ^ t[512 + usize::from(c)] ^ t[768 + usize::from(d)]
}

// The substitution of a byte stands in the first table, as its entries' second byte.
#[tactic(auto, unfolding(crate::specs::Cipher::substituted))]
fn substituted(t: &[u32; 1024], x: u8) -> u8
    ensures { result ≡ substituted t.now x }
{
    byte_of(t[usize::from(x)], 1)
}

// A column of the last round, which mixes none.
#[tactic(auto, unfolding(crate::specs::Cipher::last_word))]
fn last_word(t: &[u32; 1024], p: u32, q: u32, r: u32, s: u32) -> u32
    ensures { result ≡ last_word t.now p q r s }
{
    let a = substituted(t, byte_of(p, 0));
    let b = substituted(t, byte_of(q, 1));
    let c = substituted(t, byte_of(r, 2));
    let d = substituted(t, byte_of(s, 3));
    word_of(a, b, c, d)
}

// Kept: (d) beside `last_round`: one function would take mixed_word or last_word as a closure, and the place.
#[tactic(auto, unfolding(crate::specs::Cipher::word_round, crate::specs::Cipher::add_words, crate::specs::Cipher::columns, laws::specs::Lists::tabulate))]
fn round(t: &[u32; 1024], w: &[u32; 60], n: usize, u: [u32; 4]) -> [u32; 4]
    requires { n < 15 }
    ensures { result ≡ word_round t.now w.now n u }
{
    let [a, b, c, d] = u;
    [
        mixed_word(t, a, b, c, d) ^ w[4 * n],
        mixed_word(t, b, c, d, a) ^ w[4 * n + 1],
        mixed_word(t, c, d, a, b) ^ w[4 * n + 2],
        mixed_word(t, d, a, b, c) ^ w[4 * n + 3],
    ]
}

#[tactic(auto, unfolding(crate::specs::Cipher::last_round, crate::specs::Cipher::add_words, crate::specs::Cipher::columns, laws::specs::Lists::tabulate))]
fn last_round(t: &[u32; 1024], w: &[u32; 60], u: [u32; 4]) -> [u32; 4]
    ensures { result ≡ last_round t.now w.now u }
{
    let [a, b, c, d] = u;
    [
        last_word(t, a, b, c, d) ^ w[56],
        last_word(t, b, c, d, a) ^ w[57],
        last_word(t, c, d, a, b) ^ w[58],
        last_word(t, d, a, b, c) ^ w[59],
    ]
}

// The block's words, with the first round key added.
fn whiten(w: &[u32; 60], s: [u8; 16]) -> [u32; 4]
    ensures { result ≡ add_words w.now 0 (packed 4 s) }
{
    array::from_fn(|k| word_in(&s, k) ^ w[k])
}

fn unpack(u: [u32; 4]) -> [u8; 16]
    ensures { result ≡ unpacked 16 u }
{
    array::from_fn(|i| byte_of(u[i / 4], i % 4))
}

// A block under an expanded key, with the tables lent.
// Kept: (a) the tables are a parameter, here and in what this calls: this clause and write_block's hold for every table t.
pub fn encrypt_by(t: &[u32; 1024], w: &[u32; 60], block: [u8; 16]) -> [u8; 16]
    ensures { result ≡ word_cipher t.now w.now block }
{
    let mut u = whiten(w, block);
    // Kept: (b) two rounds a turn; with one a block takes 3 % more instructions, 844 for 819.
    for turn in 0..6 {
        let middle = round(t, w, 2 * turn + 1, u);
        u = round(t, w, 2 * turn + 2, middle);
    }
    unpack(last_round(t, w, round(t, w, 13, u)))
}

// A block under an expanded key, written to the front of a lent part and cut short where that is shorter.
pub fn write_block(t: &[u32; 1024], w: &[u32; 60], block: [u8; 16], out: &mut [u8])
    ensures { out.new ≡ overwrite out.old (word_cipher t.now w.now block) }
{
    let enciphered = encrypt_by(t, w, block);
    overwrite(out, &enciphered);
}

// A block under an expanded key, whatever words stand in it.
pub fn encrypt_with(schedule: Schedule, block: [u8; 16]) -> [u8; 16]
    ensures { result ≡ cipher_with (unpacked 240 schedule.words) block }
{
    encrypt_by(tables(), &schedule.words, block)
}

// A block under a key.
pub fn encrypt(key: [u8; 32], block: [u8; 16]) -> [u8; 16]
    ensures { result ≡ cipher key block }
{
    encrypt_with(expand_key(key), block)
}
