// The compression of one 64-byte block: FIPS 180-4, 6.2.2.
ghost use Rattle.std.specs.Prelude.{◌≡◌, ℕ, ◌+◌, ◌*◌, ◌<◌, ◌≤◌, take, slice_index};
ghost use Rattle.hash.specs.Word.{◌⊞◌};
ghost use Rattle.hash.specs.Constants.{K};
ghost use Rattle.hash.specs.Block.{next_word, schedule, initial_working, T₁, T₂, round, add_working, compress};
ghost use Rattle.hash.specs.Prepared.{prepared, prepared_round, prepared_rounds};

use crate::word::{big_sigma0, big_sigma1, choice, majority, sigma0, sigma1};
use std::array;

// The working variables.
#[derive(Clone, Copy)]
pub(crate) struct Working {
    pub a: u32,
    pub b: u32,
    pub c: u32,
    pub d: u32,
    pub e: u32,
    pub f: u32,
    pub g: u32,
    pub h: u32,
}

static ROUND_CONSTANTS: [u32; 64] = [
    0x428a_2f98,
    0x7137_4491,
    0xb5c0_fbcf,
    0xe9b5_dba5,
    0x3956_c25b,
    0x59f1_11f1,
    0x923f_82a4,
    0xab1c_5ed5,
    0xd807_aa98,
    0x1283_5b01,
    0x2431_85be,
    0x550c_7dc3,
    0x72be_5d74,
    0x80de_b1fe,
    0x9bdc_06a7,
    0xc19b_f174,
    0xe49b_69c1,
    0xefbe_4786,
    0x0fc1_9dc6,
    0x240c_a1cc,
    0x2de9_2c6f,
    0x4a74_84aa,
    0x5cb0_a9dc,
    0x76f9_88da,
    0x983e_5152,
    0xa831_c66d,
    0xb003_27c8,
    0xbf59_7fc7,
    0xc6e0_0bf3,
    0xd5a7_9147,
    0x06ca_6351,
    0x1429_2967,
    0x27b7_0a85,
    0x2e1b_2138,
    0x4d2c_6dfc,
    0x5338_0d13,
    0x650a_7354,
    0x766a_0abb,
    0x81c2_c92e,
    0x9272_2c85,
    0xa2bf_e8a1,
    0xa81a_664b,
    0xc24b_8b70,
    0xc76c_51a3,
    0xd192_e819,
    0xd699_0624,
    0xf40e_3585,
    0x106a_a070,
    0x19a4_c116,
    0x1e37_6c08,
    0x2748_774c,
    0x34b0_bcb5,
    0x391c_0cb3,
    0x4ed8_aa4a,
    0x5b9c_ca4f,
    0x682e_6ff3,
    0x748f_82ee,
    0x78a5_636f,
    0x84c8_7814,
    0x8cc7_0208,
    0x90be_fffa,
    0xa450_6ceb,
    0xbef9_a3f7,
    0xc671_78f2,
];

// The constants, lent from where they stand, built nowhere.
#[tactic(auto, unfolding(crate::specs::Constants::K))]
fn constants() -> &'static [u32; 64]
    ensures { result.now ≡ K }
{
    &ROUND_CONSTANTS
}

// The block's words, at the front of an array for the schedule.
fn loaded(block: &[u8; 64]) -> [u32; 64]
    ensures { take 16 result ≡ schedule block.now 16 }
{
    let mut w = [0u32; 64];
    for (t, bytes) in block.as_chunks::<4>().0.iter().enumerate() {
        w[t] = u32::from_be_bytes(*bytes);
    }
    w
}

// Word t of the schedule, from the words before it.
#[tactic(auto, unfolding(crate::specs::Block::next_word))]
fn next_word(w: &[u32; 64], t: usize) -> u32
    requires { (16 ≤ t) × (t < 64) }
    ensures { result ≡ next_word w.now t }
{
    sigma1(w[t - 2])
        .wrapping_add(w[t - 7])
        .wrapping_add(sigma0(w[t - 15]))
        .wrapping_add(w[t - 16])
}

// The message schedule of a block.
fn scheduled(block: &[u8; 64]) -> [u32; 64]
    ensures { result ≡ schedule block.now 64 }
{
    let mut w = loaded(block);
    // Kept: (b) four words a turn; a loop of one word a turn is 4 % slower on a long message.
    for i in 4..16 {
        let t = 4 * i;
        w[t] = next_word(&w, t);
        w[t + 1] = next_word(&w, t + 1);
        w[t + 2] = next_word(&w, t + 2);
        w[t + 3] = next_word(&w, t + 3);
    }
    w
}

// The words of all rounds, each its constant and the schedule's word as one sum modulo 2^32. Apart from the rounds: on x86-64 this
// compiles to sums of four at once.
fn prepared(w: &[u32; 64]) -> [u32; 64]
    ensures { result ≡ prepared K w.now }
{
    let k = constants();
    array::from_fn(|t| k[t].wrapping_add(w[t]))
}

// T1 with the prepared word x: there is no constant left to add.
fn temp1(s: Working, x: u32) -> u32
    ensures { result ≡ T₁ s 0 x }
{
    s.h.wrapping_add(big_sigma1(s.e))
        .wrapping_add(choice(s.e, s.f, s.g))
        .wrapping_add(x)
}

fn temp2(s: Working) -> u32
    ensures { result ≡ T₂ s }
{
    big_sigma0(s.a).wrapping_add(majority(s.a, s.b, s.c))
}

// One round with the prepared word x: the standard's, for every constant and word of which x is the sum.
fn round(s: Working, x: u32) -> Working
    ensures { (result ≡ prepared_round s x) × ((k w : ℕ) → x ≡ k ⊞ w → result ≡ round s k w) }
{
    let t1 = temp1(s, x);
    let t2 = temp2(s);
    Working {
        a: t1.wrapping_add(t2),
        b: s.a,
        c: s.b,
        d: s.c,
        e: s.d.wrapping_add(t1),
        f: s.e,
        g: s.f,
        h: s.g,
    }
}

fn round_at(s: Working, p: &[u32; 64], t: usize) -> Working
    requires { t < 64 }
    ensures { result ≡ prepared_round s (slice_index p.now t) }
{
    round(s, p[t])
}

// Eight rounds, after which each working variable is in its register again.
// Kept: (b) written out; a loop of one round a turn is 16 % slower on a long message.
fn eight_rounds(s: Working, p: &[u32; 64], t: usize) -> Working
    requires { t + 8 ≤ 64 }
    ensures { result ≡ prepared_rounds p.now t 8 s }
{
    let s1 = round_at(s, p, t);
    let s2 = round_at(s1, p, t + 1);
    let s3 = round_at(s2, p, t + 2);
    let s4 = round_at(s3, p, t + 3);
    let s5 = round_at(s4, p, t + 4);
    let s6 = round_at(s5, p, t + 5);
    let s7 = round_at(s6, p, t + 6);
    round_at(s7, p, t + 7)
}

// The 64 rounds with the prepared words p.
fn all_rounds(mut s: Working, p: &[u32; 64]) -> Working
    ensures { result ≡ prepared_rounds p.now 0 64 s }
{
    for i in 0..8 {
        s = eight_rounds(s, p, 8 * i);
    }
    s
}

// The working variables at the start of a block.
fn initial_working(chain: [u32; 8]) -> Working
    ensures { result ≡ initial_working chain }
{
    let [a, b, c, d, e, f, g, h] = chain;
    Working {
        a,
        b,
        c,
        d,
        e,
        f,
        g,
        h,
    }
}

// The hash value with the working variables added.
fn added(h: [u32; 8], s: Working) -> [u32; 8]
    ensures { result ≡ add_working h s }
{
    [
        h[0].wrapping_add(s.a),
        h[1].wrapping_add(s.b),
        h[2].wrapping_add(s.c),
        h[3].wrapping_add(s.d),
        h[4].wrapping_add(s.e),
        h[5].wrapping_add(s.f),
        h[6].wrapping_add(s.g),
        h[7].wrapping_add(s.h),
    ]
}

// The next hash value, from the hash value and a block of 64 bytes.
pub(crate) fn compress(chain: [u32; 8], block: &[u8; 64]) -> [u32; 8]
    ensures { result ≡ compress chain block.now }
{
    let p = prepared(&scheduled(block));
    added(chain, all_rounds(initial_working(chain), &p))
}
